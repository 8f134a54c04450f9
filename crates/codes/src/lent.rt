// The tables that decoding reads and the two matrices of a sequence, in one array that is lent: where each part begins, which is where the one
// before it ends, and single entries.
ghost use Rattle.std.specs.Prelude.{◌≡◌, List, ℕ, ◌<◌, pos, get_or};
ghost use Rattle.codes.specs.DecodingTables.{DecodingTables, matrix_of};
ghost use Rattle.codes.specs.Matrices.{zig_zag, premultiplier_matrix};

use std::marker::Model;

// The length of the array.
pub const LENGTH: usize = 830;

pub const INCREMENT: usize = 0;

pub const TYPE_I: usize = 80;

pub const TYPE_P: usize = 84;

pub const TYPE_B: usize = 98;

pub const PATTERN: usize = 120;

pub const VECTOR: usize = 246;

pub const LUMINANCE: usize = 314;

pub const CHROMINANCE: usize = 332;

pub const COEFFICIENT: usize = 350;

pub const SCAN: usize = 574;

pub const PREMULTIPLIERS: usize = 638;

pub const INTRA_MATRIX: usize = 702;

pub const NON_INTRA_MATRIX: usize = 766;

#[derive(Clone, Copy)]
pub struct Tables {
    entries: [u16; LENGTH],
}

// A clause sees the entries. That they are the tables of decoding, with some matrices, is true of every value, so that no reader asks for it.
impl Model for Tables {
    ghost Value = { List ℕ };

    ghost view = { λ t. t.entries };

    ghost invariant = { λ t. DecodingTables t.entries };

    ghost inverse = { λ l. record { entries = l } };
}

impl Tables {
    pub fn new(entries: [u16; LENGTH]) -> Tables
        requires { DecodingTables entries }
        ensures { result ≡ entries }
    {
        Tables { entries }
    }

    pub fn entries(&self) -> &[u16; LENGTH]
        ensures is { result.now ≡ self.now }
        ensures decoding_tables { DecodingTables result.now }
    {
        &self.entries
    }

    // The place of the coefficient that is number n in zig-zag order.
    pub fn zig_zag_position(&self, n: usize) -> usize
        requires { n < 64 }
        ensures { result ≡ get_or zig_zag n 0 }
    {
        usize::from(self.entries[SCAN + n])
    }

    pub fn premultiplier(&self, position: usize) -> i32
        requires { position < 64 }
        ensures { result ≡ get_or premultiplier_matrix position (pos 0) }
    {
        i32::from(self.entries[PREMULTIPLIERS + position])
    }

    // The entry at this place of the matrix for intra blocks, or of the other.
    pub fn entry(&self, intra: bool, position: usize) -> u8
        requires { position < 64 }
        ensures { result ≡ get_or (matrix_of self.now intra) position 0 }
    {
        if intra {
            return self.entries[INTRA_MATRIX + position] as u8;
        }
        self.entries[NON_INTRA_MATRIX + position] as u8
    }
}
