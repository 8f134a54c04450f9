// The results of a block, and the place in its plane at which they are written (RULES 6.12, 6.13).
ghost use Rattle.std.specs.Prelude.{◌≡◌, ℕ, ◌+◌, ◌*◌, ◌≤◌, ◌<◌, nat_abs, length};
ghost use Rattle.prediction.specs.Planes.{macroblocks, plane_of, plane_length};
ghost use Rattle.laws.specs.Sizes.{ResultsInBounds};
ghost use Rattle.prediction.specs.Writers.{luma_address, chroma_address, block_width, block_address};
ghost use Rattle.prediction.specs.Writers.{Gives, made_block, set_const, overwrite, add_const, add_block};

use crate::planes::{block_size, plane_of};
use crate::position::Macroblock;
use crate::rows::put_row;
use laws::clamp_u8;

// Eight rows of eight bytes. `sample` makes each of the one that stands at its place, and of its number in the block. The 8 stands in the text, and each
// row is made before it is written: so the compiler makes vectors of both.
fn write_block<F: Fn(u8, usize) -> u8>(d: &mut [u8], di: usize, dw: usize, sample: F)
    requires le_dw { 8 ≤ dw }
    requires dw_in_bounds { di + 7 * dw + 8 ≤ length d.old }
    requires callable { (old k : ℕ) → old < 256 → k < 64 → F.pre sample old k }
    ensures { (g : ℕ → ℕ → ℕ) → Gives (F.post sample) g → d.new ≡ made_block g d.old di dw }
{
    for y in 0..8 {
        let at = di + y * dw;
        let mut row = [0u8; 8];
        for x in 0..8 {
            row[x] = sample(d[at + x], y * 8 + x);
        }
        put_row(d, at, &row);
    }
}

// One byte everywhere: an intra block that has a DC coefficient only.
pub fn block_set_const(d: &mut [u8], di: usize, dw: usize, value: u8)
    requires le_dw { 8 ≤ dw }
    requires dw_in_bounds { di + 7 * dw + 8 ≤ length d.old }
    ensures { d.new ≡ set_const d.old di dw value }
{
    write_block(d, di, dw, |_, _| value);
}

// The 64 results: an intra block.
pub fn block_set_overwrite(d: &mut [u8], di: usize, dw: usize, s: &[i32; 64])
    requires le_dw { 8 ≤ dw }
    requires dw_in_bounds { di + 7 * dw + 8 ≤ length d.old }
    ensures { d.new ≡ overwrite d.old di dw s.now }
{
    write_block(d, di, dw, |_, k| clamp_u8(s[k]));
}

// One number added to what is there: a block that is not intra and has one coefficient, at place 0.
pub fn block_set_add_const(d: &mut [u8], di: usize, dw: usize, value: i32)
    requires le_dw { 8 ≤ dw }
    requires dw_in_bounds { di + 7 * dw + 8 ≤ length d.old }
    requires value_bound { nat_abs value ≤ 131072 }
    ensures { d.new ≡ add_const d.old di dw value }
{
    write_block(d, di, dw, |old, _| clamp_u8(i32::from(old) + value));
}

// The 64 results added to what is there: a block that is not intra.
pub fn block_set_add(d: &mut [u8], di: usize, dw: usize, s: &[i32; 64])
    requires le_dw { 8 ≤ dw }
    requires dw_in_bounds { di + 7 * dw + 8 ≤ length d.old }
    requires results_in_bounds { ResultsInBounds s.now }
    ensures { d.new ≡ add_block d.old di dw s.now }
{
    write_block(d, di, dw, |old, k| clamp_u8(i32::from(old) + s[k]));
}

// The place of block 0, 1, 2 or 3 in the plane Y.
fn luma_address(m: Macroblock, block: usize) -> usize
    requires block_bound { block < 4 }
    ensures is { result ≡ luma_address (m.across * 16) m.row m.column block }
    ensures inside { result + 7 * (m.across * 16) + 8 ≤ 256 * macroblocks m }
{
    let dw = m.place.across * 16;
    (m.place.row * 16 + block / 2 % 2 * 8) * dw + m.place.column * 16 + block % 2 * 8
}

// The place of block 4 in the plane Cb and of block 5 in the plane Cr.
pub fn chroma_address(m: Macroblock) -> usize
    ensures is { result ≡ chroma_address (m.across * 8) m.row m.column }
    ensures inside { result + 7 * (m.across * 8) + 8 ≤ 64 * macroblocks m }
{
    let dw = m.place.across * 8;
    m.place.row * 8 * dw + m.place.column * 8
}

// The width of the plane of block 0 to 5.
pub fn block_width(m: Macroblock, number: usize) -> usize
    ensures is { result ≡ block_width m number }
    ensures wide { 8 ≤ result }
{
    m.place.across * block_size(plane_of(number))
}

// The place of block 0 to 5 in its plane.
pub fn block_address(m: Macroblock, number: usize) -> usize
    ensures is { result ≡ block_address m number }
    ensures inside { result + 7 * block_width m number + 8 ≤ plane_length (plane_of number) (macroblocks m) }
{
    if number < 4 {
        return luma_address(m, number);
    }
    chroma_address(m)
}
