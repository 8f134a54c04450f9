// What a sequence header sets, by value, and the state of it in a fresh record.
ghost use Rattle.std.specs.Prelude.{◌≡◌};
ghost use Rattle.header.specs.State.{fresh_sequence};

use picture_state::types::{Matrices, Sizes};

#[derive(Clone, Copy)]
pub struct Sequence {
    pub has_sequence_header: bool,
    pub width: usize,
    pub height: usize,
    pub sizes: Sizes,
    pub matrices: Matrices,
}

// RULES O.1. Written out: of an array a derived `Default` says that each entry is 0, which is longer to lead to the clause than these lines.
pub fn fresh_sequence() -> Sequence
    ensures { result ≡ fresh_sequence }
{
    Sequence {
        has_sequence_header: false,
        width: 0,
        height: 0,
        sizes: Sizes::default(),
        matrices: Matrices {
            intra_quant_matrix: [0; 64],
            non_intra_quant_matrix: [0; 64],
        },
    }
}
