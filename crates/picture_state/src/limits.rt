// RULES Q2: is the state of a picture possible, each field within its limits? Each function is one test of the definition.
// The tests are joined by `&` and `|`: none of them needs another to be asked first. The left-over coefficients are tested where they are lent.
ghost use Rattle.std.specs.Prelude.{◌≡◌, pos, get_or};
ghost use Rattle.laws.specs.Each.{all_below};
ghost use Rattle.coefficients.specs.Dcs.{dc_in_range};
ghost use Rattle.picture_state.specs.Possible.{possible_stores, possible_motion, possible_slice, possible_picture};

use crate::types::{Motion, Picture, Slice, Stores};
use coefficients::dc::dc_in_range;

// A permutation of 0, 1, 2.
fn possible_stores(t: Stores) -> bool
    ensures { result ≡ possible_stores t }
{
    (t.cur <= 2)
        & (t.fwd <= 2)
        & (t.bwd <= 2)
        & (t.cur != t.fwd)
        & (t.cur != t.bwd)
        & (t.fwd != t.bwd)
}

fn possible_motion(m: Motion) -> bool
    ensures { result ≡ possible_motion m }
{
    (m.r_size <= 6) & (-1024..=1023).contains(&m.h) & (-1024..=1023).contains(&m.v)
}

#[tactic(auto, unfolding(laws::specs::Each::all_below))]
fn possible_predictors(dc: [i32; 3]) -> bool
    ensures { result ≡ all_below 3 (λ k. dc_in_range (get_or dc k (pos 0))) }
{
    dc_in_range(dc[0]) & dc_in_range(dc[1]) & dc_in_range(dc[2])
}

fn possible_slice(s: Slice) -> bool
    ensures { result ≡ possible_slice s }
{
    (s.quantizer_scale <= 31)
        & (-1..=402700000).contains(&s.macroblock_address)
        & possible_motion(s.motion_forward)
        & possible_motion(s.motion_backward)
        & possible_predictors(s.dc_predictor)
}

pub fn possible_picture(p: Picture) -> bool
    ensures { result ≡ possible_picture p }
{
    (p.picture_type <= 7)
        & (-1..=255).contains(&p.start_code)
        & possible_stores(p.stores)
        & possible_slice(p.slice)
}
