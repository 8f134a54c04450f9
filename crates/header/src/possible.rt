// RULES Q2: are width, height and the sizes possible? The tests that need no other to be asked first are joined by `&`.
ghost use Rattle.std.specs.Prelude.{◌≡◌, ◌≤◌};
ghost use Rattle.header.specs.Possible.{sizes_of, possible_sequence};

use crate::state::Sequence;
use picture_state::types::Sizes;

// RULES O.4: the macroblock sizes of a picture.
pub fn sizes_of(width: usize, height: usize) -> Sizes
    requires { (width ≤ 4095) × (height ≤ 4095) }
    ensures { result ≡ sizes_of width height }
{
    let mb_width = width.div_ceil(16);
    let mb_height = height.div_ceil(16);
    Sizes {
        mb_width,
        mb_height,
        mb_size: mb_width * mb_height,
    }
}

// Sizes follow only from a width and a height within their bounds, so these are tested first.
pub fn possible_sequence(q: Sequence) -> bool
    ensures { result ≡ possible_sequence q }
{
    if 4095 < q.width || 4095 < q.height {
        return false;
    }
    if q.has_sequence_header {
        let same = q.sizes == sizes_of(q.width, q.height);
        return (1 <= q.width) & (1 <= q.height) & same;
    }
    q.sizes == Sizes::default()
}
