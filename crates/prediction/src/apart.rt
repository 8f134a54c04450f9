// A predicted block, row by row, from one part of the store into another that is apart from it (RULES 6.7, 6.8). Each row is made in an array before it is
// written, so that it is one move of 16 or 8 bytes. The size is a const parameter, and so known before any inlining: a loop that becomes one of 8 turns by
// inlining only is unrolled byte by byte. The sample to the right or below stands at an offset that is a parameter: where the compiler sees that it is 1,
// it loads a row once and shuffles it, which takes longer. An offset of 0 averages a sample with itself: a copy.
ghost use Rattle.std.specs.Prelude.{◌≡◌, true, ◌⊎◌, ◌+◌, ◌*◌, ◌≤◌, ◌<◌, eqb, length};
ghost use Rattle.prediction.specs.DisjointBlocks.{Disjoint, averaged_four_or_two, sampled, stored_sample_at, stored_rows};

use crate::rows::put_row;
use crate::samples::{average2, average4, stored_sample};

// The sample at i averaged with the one that stands `other` further, or with the one to the right, the one below and the one between them; in place of
// the one at o or averaged with it.
#[tactic(auto, unfolding(crate::specs::Samples::sample))]
fn stored_sample_at(
    store: &[u8],
    i: usize,
    o: usize,
    dw: usize,
    other: usize,
    right: usize,
    four: bool,
    interpolate: bool,
) -> u8
    requires other_in_bounds { (i + other < length store.now) × (o < length store.now) }
    requires other_value { four ≡ true → (other ≡ dw + 1) × (right ≡ 1) }
    ensures { result ≡ stored_sample_at interpolate (averaged_four_or_two dw other four) store.now i o }
{
    let sample = if four {
        average4(
            store[i],
            store[i + right],
            store[i + dw],
            store[i + dw + right],
        )
    } else {
        average2(store[i], store[i + other])
    };
    stored_sample(interpolate, store[o], sample)
}

// The rows of SIZE samples, one after the other.
fn predict_rows<const SIZE: usize>(
    store: &mut [u8],
    from: usize,
    to: usize,
    dw: usize,
    right: usize,
    below: usize,
    interpolate: bool,
)
    requires right_bound { (right ≤ 1) × (below ≤ 1) }
    requires disjoint { Disjoint (length store.old) from to dw SIZE (below * dw + right) }
    ensures { store.new ≡ stored_rows interpolate (sampled dw (eqb right 1) (eqb below 1)) store.old from to dw SIZE }
{
    let other = below * dw + right;
    let four = below * 2 + right == 3;
    for y in 0..SIZE {
        let i = from + y * dw;
        let o = to + y * dw;
        let mut row = [0u8; SIZE];
        for x in 0..SIZE {
            row[x] = stored_sample_at(store, i + x, o + x, dw, other, right, four, interpolate);
        }
        put_row(store, o, &row);
    }
}

// The block of size by size samples that begins at `from`, laid at `to`. right and below are 1 for a half sample across and down, else 0.
pub fn predict_disjoint(
    store: &mut [u8],
    from: usize,
    to: usize,
    dw: usize,
    size: usize,
    right: usize,
    below: usize,
    interpolate: bool,
)
    requires fact { (size ≡ 8) ⊎ (size ≡ 16) }
    requires right_bound { (right ≤ 1) × (below ≤ 1) }
    requires disjoint { Disjoint (length store.old) from to dw size (below * dw + right) }
    ensures { store.new ≡ stored_rows interpolate (sampled dw (eqb right 1) (eqb below 1)) store.old from to dw size }
{
    if size == 16 {
        predict_rows::<16>(store, from, to, dw, right, below, interpolate);
    } else {
        predict_rows::<8>(store, from, to, dw, right, below, interpolate);
    }
}
