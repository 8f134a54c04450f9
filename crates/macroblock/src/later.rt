// RULES 7.9, 7.11: on to a later macroblock.
ghost use Rattle.std.specs.Prelude.{◌≡◌, false, pos, ◌+ℤ◌};
ghost use Rattle.std.specs.Int.Signed.{le_z};
ghost use Rattle.picture_state.specs.Possible.{PossibleSlice};
ghost use Rattle.macroblock.specs.Macroblocks.{skip_reset};
ghost use Rattle.picture_state.specs.Promises.{StoreFits};
ghost use Rattle.picture_state.specs.Stop.{stop_number};
ghost use Rattle.macroblock.specs.Promises.{RefinesAdvance};

use crate::addresses::address_plus;
use macroblock_head::heads::{reset, zeroed};
use macroblock_head::predictions::predict_skipped;
use picture_state::types::{Context, Slice, StopMark};

#[derive(Clone, Copy)]
pub struct Advanced {
    pub state: Slice,
    pub stop: Option<StopMark>,
}

// RULES 7.11, 7.19, 7.20: what a skip resets.
fn skip_reset(g: Context, before: Slice) -> Slice
    ensures { result ≡ skip_reset g before }
{
    let fresh = reset(before);
    if g.picture_type == 2 {
        return Slice {
            motion_forward: zeroed(before.motion_forward),
            ..fresh
        };
    }
    fresh
}

// On by n, or by 1 where n is 0; the macroblocks between are skipped.
pub fn advance(store: &mut [u8], g: Context, n: usize, state: Slice) -> Advanced
    requires store_fits { StoreFits g store.old }
    requires possible_slice { PossibleSlice state }
    requires n_value { le_z (pos g.sizes.mb_size) (state.macroblock_address +ℤ pos n) ≡ false }
    ensures { RefinesAdvance g n state store.old result.state (stop_number result.stop) store.new }
{
    let next = address_plus(state, 1);
    if n < 2 {
        return Advanced {
            state: next,
            stop: None,
        };
    }
    let skipped = skip_reset(g, state);
    let first = next.macroblock_address as usize;
    let Ok(()) = predict_skipped(store, g, first, n - 1, skipped) else {
        return Advanced {
            state: skipped,
            stop: Some(StopMark::PredictionOutside),
        };
    };
    let here = address_plus(skipped, n);
    Advanced {
        state: here,
        stop: None,
    }
}
