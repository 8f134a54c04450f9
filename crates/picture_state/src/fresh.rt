// RULES O.1: the state of a picture in a fresh record.
ghost use Rattle.std.specs.Prelude.{◌≡◌};
ghost use Rattle.picture_state.specs.State.{fresh_picture};

use crate::types::{Motion, Picture, Slice, Stores};

// No `Default`: the stores have their numbers, and the predictors begin at 128.
pub fn fresh_picture() -> Picture
    ensures { result ≡ fresh_picture }
{
    let stores = Stores {
        cur: 0,
        fwd: 1,
        bwd: 2,
    };
    let slice = Slice {
        quantizer_scale: 0,
        macroblock_address: 0,
        motion_forward: Motion::default(),
        motion_backward: Motion::default(),
        dc_predictor: [128; 3],
    };
    Picture {
        picture_type: 0,
        start_code: -1,
        stores,
        slice,
    }
}
