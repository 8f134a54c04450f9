// The transform: the step on each column of a block, then on each row.
ghost use Rattle.std.specs.Prelude.{◌≡◌, ◌+◌, ◌*◌, ◌<◌, ◌≤◌, nat_abs};
ghost use Rattle.laws.specs.Stores.{store_rows};
ghost use Rattle.codes.specs.Matrices.{Bounded};
ghost use Rattle.transform.specs.Butterfly.{nth};
ghost use Rattle.transform.specs.Idct.{lane, columns, rows, idct, dc_only};
ghost use Rattle.laws.specs.Sizes.{ResultsInBounds};
ghost use Rattle.transform.specs.Bounds.{BetweenPasses};

use crate::butterfly::{Eight, butterfly, rounded};

// The eight: a column or a row.
fn lane(block: &[i32; 64], start: usize, step: usize) -> Eight
    requires { start + 7 * step < 64 }
    ensures { result ≡ lane block.now start step }
{
    Eight {
        v0: block[start],
        v1: block[start + step],
        v2: block[start + 2 * step],
        v3: block[start + 3 * step],
        v4: block[start + 4 * step],
        v5: block[start + 5 * step],
        v6: block[start + 6 * step],
        v7: block[start + 7 * step],
    }
}

// Writes eight numbers back to where lane reads them.
fn put_lane(block: &mut [i32; 64], start: usize, step: usize, e: Eight)
    requires { start + 7 * step < 64 }
    ensures { block.new ≡ store_rows block.old start step 1 (λ k x. nth e k) 8 }
{
    block[start] = e.v0;
    block[start + step] = e.v1;
    block[start + 2 * step] = e.v2;
    block[start + 3 * step] = e.v3;
    block[start + 4 * step] = e.v4;
    block[start + 5 * step] = e.v5;
    block[start + 6 * step] = e.v6;
    block[start + 7 * step] = e.v7;
}

// RULES 4.2, the first pass: each column through the step. The second differs in the lanes, in the rounding and in the clause: one function for both
// would take the three as parameters, and have no body but what the two share already.
fn columns(block: &mut [i32; 64])
    requires { Bounded block.old }
    ensures { block.new ≡ columns block.old }
{
    for i in 0..8 {
        let a = lane(block, i, 8);
        let o = butterfly(a);
        put_lane(block, i, 8, o);
    }
}

// RULES 4.2, the second pass: each row through the step, and rounded.
fn rows(block: &mut [i32; 64])
    requires { BetweenPasses block.old }
    ensures { block.new ≡ rows block.old }
{
    for i in 0..8 {
        let a = lane(block, i * 8, 1);
        let o = rounded(butterfly(a));
        put_lane(block, i * 8, 1, o);
    }
}

// RULES 4.2: the transform, in place. Coefficients within the bounds keep every step inside 32 bits.
pub fn idct(block: &mut [i32; 64])
    requires { Bounded block.old }
    ensures is { block.new ≡ idct block.old }
    ensures narrow { ResultsInBounds block.new }
{
    columns(block);
    rows(block);
}

// RULES 4.3: the short way of a block that has no coefficient but c at place 0: each of its 64 results.
pub fn dc_only(c: i32) -> i32
    requires { nat_abs c ≤ 65536 }
    ensures is { result ≡ dc_only c }
    ensures narrow { nat_abs result ≤ 256 }
{
    (c + 128) >> 8
}
