// The step of a motion vector's component: the Rust's decode_motion_vector, with r for its r_size.
ghost use Rattle.std.specs.Prelude.{◌≡◌, ◌^◌, ◌≤◌, ◌<◌, nat_abs};
ghost use Rattle.bits.specs.Runs.{ReaderInBounds, RunsInBounds};
ghost use Rattle.motion.specs.Displacement.{InRange, displacement_from, corrected};
ghost use Rattle.motion.specs.Vector.{displacement, motion_vector};

use bits::reader::{Read, Reader};
use codes::codes::read_motion;
use codes::lent::Tables;

// The displacement that a code other than 0 and its residual say (RULES 5.4).
fn displacement(r: u32, m_code: i32, residual: u32) -> i32
    requires r_bound { r ≤ 6 }
    requires m_code_nonzero { (0 < nat_abs m_code) × (nat_abs m_code ≤ 16) }
    requires residual_bound { residual < 2 ^ r }
    ensures { result ≡ displacement_from (2 ^ r) m_code residual }
{
    let size = ((m_code.unsigned_abs() - 1) << r) + residual + 1;
    let d = size as i32;
    if m_code < 0 {
        return -d;
    }
    d
}

// A sum that left the range of f = 2 ^ r is brought back by 32 f, once (RULES 5.5).
fn corrected(r: u32, motion: i32) -> i32
    requires r_bound { r ≤ 6 }
    requires motion_bound { nat_abs motion ≤ 2048 }
    ensures { result ≡ corrected (2 ^ r) motion }
{
    let fscale: i32 = 1 << r;
    if motion > (fscale << 4) - 1 {
        return motion - (fscale << 5);
    }
    if motion < -(fscale << 4) {
        return motion + (fscale << 5);
    }
    motion
}

// The displacement at the reader's place: a code alone where it is 0 or r is 0, else with a residual of r bits (RULES 5.3, 5.4).
fn read_displacement(s: &[u8], reader: Reader, tables: &Tables, r: u32) -> Read<i32>
    requires reader_in_bounds { ReaderInBounds s.now reader }
    requires r_bound { r ≤ 6 }
    ensures { RunsInBounds (displacement r) s.now reader result.value result.reader }
{
    let code = read_motion(s, reader, tables);
    if code.value == 0 || r == 0 {
        return code;
    }
    let residual = code.reader.read(s, r as usize);
    Read {
        reader: residual.reader,
        value: displacement(r, code.value, residual.value),
    }
}

// The component after a step (RULES 5.5). It is asked to be within -1024..=1023, the range of f = 64, which is all that a record keeps to
// (RULES Q2): it may lie outside the range of this f.
pub fn decode_motion_vector(
    s: &[u8],
    reader: Reader,
    tables: &Tables,
    r: u32,
    motion: i32,
) -> Read<i32>
    requires reader_in_bounds { ReaderInBounds s.now reader }
    requires r_bound { r ≤ 6 }
    requires in_range { InRange 64 motion }
    ensures { RunsInBounds (motion_vector r motion) s.now reader result.value result.reader }
{
    let d = read_displacement(s, reader, tables, r);
    let moved = corrected(r, motion + d.value);
    Read {
        reader: d.reader,
        value: moved,
    }
}
