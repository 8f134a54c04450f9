// RULES 7.17, 7.18, 6.10: the prediction of a macroblock, and of those that are skipped. Nothing is read.
ghost use Rattle.std.specs.Prelude.{◌≡◌, ◌+◌, ◌*◌, ◌≤◌, ◌<◌, nat_abs};
ghost use Rattle.motion.specs.Displacement.{InRange};
ghost use Rattle.prediction.specs.Predict.{in_halves};
ghost use Rattle.picture_state.specs.Possible.{PossibleMotion};
ghost use Rattle.macroblock_head.specs.Predictions.{predict_from, predict_both, predict, predict_skipped};
ghost use Rattle.picture_state.specs.Promises.{StoreFits};
ghost use Rattle.macroblock_head.specs.Promises.{PossibleMotions, RefinesPrediction};

use picture_state::types::{Context, Motion, Slice};
use prediction::position::{HalfSampleOutside, macroblock_at};
use prediction::predict::predict_macroblock_planes;
use prediction::vector::Vector;

// RULES 6.2: in half samples.
fn in_halves(full: bool, x: i32) -> i32
    requires { InRange 64 x }
    ensures { (result ≡ in_halves full x) × (nat_abs result ≤ 2048) }
{
    if full {
        return x * 2;
    }
    x
}

// The planes of the current store, from the store number k by the vector m.
fn predict_from(
    store: &mut [u8],
    g: Context,
    address: usize,
    k: usize,
    m: Motion,
    interpolate: bool,
) -> Result<(), HalfSampleOutside>
    requires store_fits { StoreFits g store.old }
    requires address_bound { (address < g.sizes.mb_width * g.sizes.mb_height) × (k < 3) × (g.stores.cur ≡ k → ⊥) }
    requires possible_motion { PossibleMotion m }
    ensures { RefinesPrediction (predict_from g address k m interpolate store.old) result store.new }
{
    let vector = Vector {
        h: in_halves(m.full_px, m.h),
        v: in_halves(m.full_px, m.v),
    };
    let position = macroblock_at(g.sizes.mb_width, g.sizes.mb_height, address);
    predict_macroblock_planes(store, position, k, g.stores.cur, vector, interpolate)
}

// Both directions of a B picture, where the forward flag is set.
fn predict_both(
    store: &mut [u8],
    g: Context,
    address: usize,
    state: Slice,
) -> Result<(), HalfSampleOutside>
    requires store_fits { StoreFits g store.old }
    requires address_bound { address < g.sizes.mb_width * g.sizes.mb_height }
    requires possible_motions { PossibleMotions state }
    ensures { RefinesPrediction (predict_both g address state store.old) result store.new }
{
    predict_from(store, g, address, g.stores.fwd, state.motion_forward, false)?;
    if state.motion_backward.is_set {
        return predict_from(store, g, address, g.stores.bwd, state.motion_backward, true);
    }
    Ok(())
}

// By the picture's type and the two flags.
pub fn predict(
    store: &mut [u8],
    g: Context,
    address: usize,
    state: Slice,
) -> Result<(), HalfSampleOutside>
    requires store_fits { StoreFits g store.old }
    requires address_bound { address < g.sizes.mb_width * g.sizes.mb_height }
    requires possible_motions { PossibleMotions state }
    ensures { RefinesPrediction (predict g address state store.old) result store.new }
{
    if g.picture_type != 3 {
        return predict_from(store, g, address, g.stores.fwd, state.motion_forward, false);
    }
    if state.motion_forward.is_set {
        return predict_both(store, g, address, state);
    }
    predict_from(
        store,
        g,
        address,
        g.stores.bwd,
        state.motion_backward,
        false,
    )
}

// RULES 7.11: n skipped macroblocks, the first at this address.
pub fn predict_skipped(
    store: &mut [u8],
    g: Context,
    address: usize,
    n: usize,
    state: Slice,
) -> Result<(), HalfSampleOutside>
    requires store_fits { StoreFits g store.old }
    requires n_bound { address + n ≤ g.sizes.mb_width * g.sizes.mb_height }
    requires possible_motions { PossibleMotions state }
    ensures { RefinesPrediction (predict_skipped g state address n store.old) result store.new }
{
    for k in 0..n {
        predict(store, g, address + k, state)?;
    }
    Ok(())
}
