// RULES 7.7 to 7.12: from one macroblock to the next.
ghost use Rattle.macroblock.specs.Macroblocks.{first_macroblock, later_macroblock, macroblock};
ghost use Rattle.picture_state.specs.State.{slice_state};
ghost use Rattle.picture_state.specs.Promises.{matrices_in, RefinesInSlice};
ghost use Rattle.macroblock.specs.Promises.{AdvanceInvariant, LaterInvariant, IncrementInvariant};

use crate::addresses::{address_plus, is_outside, past};
use crate::body::body;
use crate::later::advance;
use bits::reader::Reader;
use codes::lent::Tables;
use macroblock_head::increments::read_increment;
use picture_state::types::{Context, Progress, Slice};

// RULES 7.8, 7.12: the first macroblock of a slice, n from the address before it. What leads to it is not what leads to a later one (7.9 to 7.11):
// the two functions have only the call of `body` in common.
fn first_macroblock(
    s: &[u8],
    reader: Reader,
    store: &mut [u8],
    values: &mut [i32; 64],
    tables: &Tables,
    g: Context,
    n: usize,
    state: Slice,
) -> Progress
    requires advance_invariant { AdvanceInvariant g s.now reader state n values.old store.old }
    ensures { RefinesInSlice (first_macroblock g (matrices_in tables.now) n (slice_state state values.old store.old))
        g s.now reader result values.new store.new }
{
    let here = address_plus(state, n);
    if is_outside(g, here.macroblock_address) {
        return Progress {
            reader,
            state: here,
            stop: None,
        };
    }
    body(s, reader, store, values, tables, g, here)
}

// RULES 7.9 to 7.11: a later one.
fn later_macroblock(
    s: &[u8],
    reader: Reader,
    store: &mut [u8],
    values: &mut [i32; 64],
    tables: &Tables,
    g: Context,
    n: usize,
    state: Slice,
) -> Progress
    requires later_invariant { LaterInvariant g s.now reader state n values.old store.old }
    ensures { RefinesInSlice (later_macroblock g (matrices_in tables.now) n (slice_state state values.old store.old))
        g s.now reader result values.new store.new }
{
    if past(g, state.macroblock_address, n) {
        return Progress {
            reader,
            state,
            stop: None,
        };
    }
    let here = advance(store, g, n, state);
    if here.stop.is_some() {
        return Progress {
            reader,
            state: here.state,
            stop: here.stop,
        };
    }
    body(s, reader, store, values, tables, g, here.state)
}

// RULES 7.7 to 7.11: the increment, and the macroblock to which it leads; `first` says that it is the first of its slice.
pub fn macroblock(
    s: &[u8],
    reader: Reader,
    store: &mut [u8],
    values: &mut [i32; 64],
    tables: &Tables,
    g: Context,
    first: bool,
    state: Slice,
) -> Progress
    requires increment_invariant { IncrementInvariant g s.now reader first state values.old store.old }
    ensures { RefinesInSlice (macroblock g (matrices_in tables.now) first (slice_state state values.old store.old))
        g s.now reader result values.new store.new }
{
    let n = read_increment(s, reader, tables);
    if first {
        return first_macroblock(s, n.reader, store, values, tables, g, n.value, state);
    }
    later_macroblock(s, n.reader, store, values, tables, g, n.value, state)
}
