// The decoder's record, by value.
ghost use Rattle.std.specs.Prelude.{◌≡◌};
ghost use Rattle.decoder.specs.Fit.{Fit};
ghost use Rattle.decoder.specs.Record.{store_bytes, fresh};

use header::state::{Sequence, fresh_sequence};
use playback::state::{State, fresh_state};
use prediction::planes::MACROBLOCK_STORES;

// `state`: what hand-outs change. `block_data` are the left-over coefficients, `stop` is the stop mark: 0, 8 or 9. It is a number:
// the host's memory may hold any, and question 2 is asked of the others.
#[derive(Clone, Copy)]
pub struct Decoder {
    pub sequence: Sequence,
    pub state: State,
    pub block_data: [i32; 64],
    pub stop: u32,
}

// RULES 6.11: bytes of the three stores.
pub fn store_bytes(d: Decoder) -> usize
    requires { Fit d }
    ensures { result ≡ store_bytes d }
{
    MACROBLOCK_STORES * d.sequence.sizes.mb_size
}

// RULES O.1: the fresh record.
#[tactic(auto, unfolding(crate::specs::Record::fresh))]
pub fn fresh() -> Decoder
    ensures { result ≡ fresh }
{
    Decoder {
        sequence: fresh_sequence(),
        state: fresh_state(),
        block_data: [0; 64],
        stop: 0,
    }
}
