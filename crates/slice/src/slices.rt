// RULES 7.5, 7.6: a slice.
ghost use Rattle.std.specs.Prelude.{◌≡◌, true, ◌≤◌};
ghost use Rattle.bits.specs.Runs.{ReaderInBounds, RunsInBounds};
ghost use Rattle.picture_state.specs.State.{slice_state};
ghost use Rattle.picture_state.specs.Stop.{stop_number};
ghost use Rattle.slice.specs.Slices.{extra, slice_start, slice};
ghost use Rattle.picture_state.specs.Promises.{matrices_in, StoreFits, ReadInvariant, RefinesInSlice};
ghost use Rattle.slice.specs.Promises.{macroblocks, RefinesAfterMacroblock, RefinesMacroblocks};
ghost use Rattle.macroblock.specs.Promises.{AddressSumBound, IncrementInvariant};

use bits::reader::Reader;
use codes::lent::Tables;
use macroblock::addresses::past;
use macroblock::macroblock::macroblock;
use macroblock_head::heads::zeroed;
use picture_state::types::{Context, Progress, Slice, StopMark};

// RULES 7.5: while one bit read is 1, 8 bits are passed over.
fn skip_extra(s: &[u8], reader: Reader) -> Reader
    requires { ReaderInBounds s.now reader }
    ensures { RunsInBounds extra s.now reader tt result }
{
    let mut from = reader;
    loop {
        let b = from.read_bit(s);
        from = b.reader;
        if b.value == 0 {
            return from;
        }
        from = from.skip(s, 8);
    }
}

// RULES 7.5: the state at the beginning of slice n, with this scale.
fn slice_start(g: Context, number: usize, scale: u32, state: Slice) -> Slice
    requires le_number { (1 ≤ number) × (number ≤ 175) }
    requires mb_width_bound { g.sizes.mb_width ≤ 256 }
    ensures { result ≡ slice_start g number scale state }
{
    let address = ((number - 1) * g.sizes.mb_width) as i32 - 1;
    Slice {
        quantizer_scale: scale,
        macroblock_address: address,
        motion_forward: zeroed(state.motion_forward),
        motion_backward: zeroed(state.motion_backward),
        dc_predictor: [128; 3],
    }
}

// RULES 7.6: whether another macroblock follows. The slice ends at the last macroblock, or where the next 23 bits are all 0 or not there.
fn goes_on(s: &[u8], reader: Reader, g: Context, state: Slice, stop: Option<StopMark>) -> bool
    requires reader_in_bounds { ReaderInBounds s.now reader }
    requires mb_size_bound { g.sizes.mb_size ≤ 65536 }
    requires address_sum_bound { AddressSumBound state.macroblock_address 1 }
    ensures { RefinesAfterMacroblock g s.now reader state (stop_number stop) result }
{
    if stop.is_some() {
        return false;
    }
    if past(g, state.macroblock_address, 1) {
        return false;
    }
    let more = reader.peek_non_zero(s, 23);
    more.value
}

// RULES 7.6: the macroblocks of a slice.
fn read_macroblocks(
    s: &[u8],
    reader: Reader,
    store: &mut [u8],
    values: &mut [i32; 64],
    tables: &Tables,
    g: Context,
    before: Slice,
) -> Progress
    requires increment_invariant { IncrementInvariant g s.now reader true before values.old store.old }
    ensures { RefinesMacroblocks (λ w₀. macroblocks g (matrices_in tables.now) w₀ (slice_state before values.old store.old))
        g s.now reader result values.new store.new }
{
    let mut from = reader;
    let mut state = before;
    let mut first = true;
    loop {
        let m = macroblock(s, from, store, values, tables, g, first, state);
        if !goes_on(s, m.reader, g, m.state, m.stop) {
            return m;
        }
        from = m.reader;
        state = m.state;
        first = false;
    }
}

// RULES 7.5, 7.6: slice n, from behind its start code on.
pub fn read_slice(
    s: &[u8],
    reader: Reader,
    store: &mut [u8],
    values: &mut [i32; 64],
    tables: &Tables,
    g: Context,
    number: usize,
    state: Slice,
) -> Progress
    requires read_invariant { ReadInvariant s.now reader state values.old }
    requires store_fits { StoreFits g store.old }
    requires le_number { (1 ≤ number) × (number ≤ 175) }
    ensures { RefinesInSlice (slice g (matrices_in tables.now) number (slice_state state values.old store.old))
        g s.now reader result values.new store.new }
{
    let q = reader.read(s, 5);
    let from = skip_extra(s, q.reader);
    let start = slice_start(g, number, q.value, state);
    read_macroblocks(s, from, store, values, tables, g, start)
}
