// What decoding a picture reads and changes, by value. The reader is beside it, and the store is lent.
ghost use Rattle.std.specs.Prelude.{◌≡◌};
ghost use Rattle.picture_state.specs.Stop.{mark_number};

use bits::reader::Reader;

// A vector of one direction, with the flags and the size that its reading needs. Here and below the fields are the record's: plain numbers, of which question 2
// (`decode` answers 2) finds the impossible ones.
#[derive(Clone, Copy, Default)]
pub struct Motion {
    pub full_px: bool,
    pub is_set: bool,
    pub r_size: u32,
    pub h: i32,
    pub v: i32,
}

// The numbers of the stores: the one that is written, and those that predictions come from.
#[derive(Clone, Copy)]
pub struct Stores {
    pub cur: usize,
    pub fwd: usize,
    pub bwd: usize,
}

// Macroblocks in a row, rows of macroblocks, and macroblocks.
#[derive(Clone, Copy, PartialEq, Eq, Debug, Default)]
pub struct Sizes {
    pub mb_width: usize,
    pub mb_height: usize,
    pub mb_size: usize,
}

#[derive(Clone, Copy)]
pub struct Matrices {
    pub intra_quant_matrix: [u8; 64],
    pub non_intra_quant_matrix: [u8; 64],
}

// What macroblocks change beside the left-over coefficients (the Rust's `block_data`) and the store, which are lent.
#[derive(Clone, Copy)]
pub struct Slice {
    pub quantizer_scale: u32,
    pub macroblock_address: i32,
    pub motion_forward: Motion,
    pub motion_backward: Motion,
    pub dc_predictor: [i32; 3],
}

// What a picture changes beside them. `picture_type` and `start_code` are numbers: the host's memory may hold any, and question 2 (`decode` answers 2) is
// asked of the impossible ones.
#[derive(Clone, Copy)]
pub struct Picture {
    pub picture_type: u32,
    pub start_code: i32,
    pub stores: Stores,
    pub slice: Slice,
}

// What stays the same while the slices of a picture are read. The two matrices are among the tables that are lent. `picture_type` is the record's number: the
// clauses of slices and macroblocks hold for any, and an enum of the three types would ask more of callers.
#[derive(Clone, Copy)]
pub struct Context {
    pub picture_type: u32,
    pub sizes: Sizes,
    pub stores: Stores,
}

// RULES Q8, Q9: why a picture ends a call early. The decoder's record keeps its number.
#[derive(Clone, Copy, Debug, PartialEq, Eq)]
pub enum StopMark {
    DcOutside,
    PredictionOutside,
}

impl StopMark {
    pub fn number(self) -> u32
        ensures { result ≡ mark_number self }
    {
        match self {
            StopMark::DcOutside => 8,
            StopMark::PredictionOutside => 9,
        }
    }
}

// Where a part of a slice ended.
#[derive(Clone, Copy)]
pub struct Progress {
    pub reader: Reader,
    pub state: Slice,
    pub stop: Option<StopMark>,
}

// Where a turn over the slices of a picture ended. `continues`: another start code follows. `begun`: a slice has been read. Code, state and reader are of
// use on each way: of an enum beside them only `stop` would stand in a variant, and what follows asks for each flag by itself.
#[derive(Clone, Copy)]
pub struct SlicesProgress {
    pub reader: Reader,
    pub code: i32,
    pub state: Slice,
    pub begun: bool,
    pub continues: bool,
    pub stop: Option<StopMark>,
}

// Where a picture ended.
#[derive(Clone, Copy)]
pub struct PictureProgress {
    pub reader: Reader,
    pub picture: Picture,
    pub stop: Option<StopMark>,
}
