// Places in a plane: of a block, and of the block that a vector leads to (RULES 6.3 to 6.6, 6.9).
ghost use Rattle.std.specs.Prelude.{◌≡◌, ◌+◌, ◌*◌, ◌≤◌, ◌<◌, eqb};
ghost use Rattle.laws.specs.Signed.{odd};
ghost use Rattle.prediction.specs.Predict.{MacroblockInPicture, BlockInPlane, macroblock_at, block_position_of, width, address, start, max_address, reach};
ghost use Rattle.prediction.specs.Predict.{prediction_source};

use crate::vector::Vector;
use std::marker::Model;

// A block of a plane: the block's size in samples, how many blocks the plane has across and down, and the block's row and column among them.
#[derive(Clone, Copy)]
pub struct BlockPosition {
    pub size: usize,
    pub across: usize,
    pub down: usize,
    pub row: usize,
    pub column: usize,
}

// The place of a macroblock: how many of them the picture has across and down, and its row and column among them.
#[derive(Clone, Copy)]
pub struct MacroblockPlace {
    pub across: usize,
    pub down: usize,
    pub row: usize,
    pub column: usize,
}

#[derive(Clone, Copy)]
pub struct Macroblock {
    pub place: MacroblockPlace,
}

// A clause sees the place. That it is in the picture is true of every macroblock, so that no reader asks for it.
impl Model for Macroblock {
    ghost use Rattle.prediction.specs.declared.position.MacroblockPlace.{MacroblockPlace};

    ghost Value = { MacroblockPlace };

    ghost use Rattle.prediction.specs.Predict.{MacroblockInPicture};

    ghost view = { λ m. m.place };

    ghost invariant = { λ m. MacroblockInPicture m.place };

    ghost inverse = { λ p. record { place = p } };
}

// A prediction is refused, since its half samples reach past max_address (RULES 6.9, Q9: number 9).
#[derive(Clone, Copy, Debug, PartialEq, Eq)]
pub struct HalfSampleOutside;

// An odd component asks for a half sample (RULES 6.3): 1 for one, else 0.
pub fn half_sample(n: i32) -> usize
    ensures { (result ≤ 1) × (eqb result 1 ≡ odd n) }
{
    (n & 1) as usize
}

// The macroblock with this address; addresses go by rows.
pub fn macroblock_at(across: usize, down: usize, address: usize) -> Macroblock
    requires across_bound { across ≤ 256 }
    requires down_bound { down ≤ 256 }
    requires address_bound { address < across * down }
    ensures is { result ≡ macroblock_at across down address }
    ensures inside { MacroblockInPicture result }
{
    Macroblock {
        place: MacroblockPlace {
            across,
            down,
            row: address / across,
            column: address % across,
        },
    }
}

impl MacroblockPlace {
    // The macroblock's block in a plane of this block size.
    pub fn block(self, size: usize) -> BlockPosition
        ensures { result ≡ block_position_of self size }
    {
        BlockPosition {
            size,
            across: self.across,
            down: self.down,
            row: self.row,
            column: self.column,
        }
    }
}

impl BlockPosition {
    // The plane's width in samples.
    pub fn width(self) -> usize
        requires { BlockInPlane self }
        ensures { result ≡ width self }
    {
        self.across * self.size
    }

    // The address of the block itself.
    pub fn address(self) -> usize
        requires { BlockInPlane self }
        ensures { result ≡ address self }
    {
        self.row * self.size * self.width() + self.column * self.size
    }

    // The address that a vector of half samples leads to (RULES 6.4).
    fn start(self, vector: Vector) -> i32
        requires block_in_plane { BlockInPlane self }
        ensures { result ≡ start self vector.h vector.v }
    {
        let dw = self.width() as i32;
        let row = (self.row * self.size) as i32;
        let column = (self.column * self.size) as i32;
        (row + (vector.v >> 1)) * dw + column + (vector.h >> 1)
    }

    // RULES 6.5.
    fn max_address(self) -> usize
        requires { BlockInPlane self }
        ensures { result ≡ max_address self }
    {
        self.width() * (self.down * self.size - self.size + 1) - self.size
    }

    // How far past the start half samples reach (RULES 6.9).
    fn reach(self, h: i32, v: i32) -> usize
        requires { BlockInPlane self }
        ensures { result ≡ reach self h v }
    {
        half_sample(v) * self.width() + half_sample(h)
    }

    // RULES 6.6, 6.9: the address from which samples are copied, or none where the source lies outside and the block is left alone.
    pub fn prediction_source(self, vector: Vector) -> Result<Option<usize>, HalfSampleOutside>
        requires block_in_plane { BlockInPlane self }
        ensures { result ≡ prediction_source self vector.h vector.v }
    {
        let Ok(at) = usize::try_from(self.start(vector)) else {
            return Ok(None);
        };
        let max = self.max_address();
        if max < at {
            return Ok(None);
        }
        if max < at + self.reach(vector.h, vector.v) {
            return Err(HalfSampleOutside);
        }
        Ok(Some(at))
    }
}
