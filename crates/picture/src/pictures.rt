// RULES 7.3, 7.4: the slices of a picture.
ghost use Rattle.std.specs.Prelude.{◌≡◌, not, ◌&&◌, ◌≤◌};
ghost use Rattle.picture.specs.Pictures.{is_slice, is_extra, slices};
ghost use Rattle.picture_state.specs.Promises.{matrices_in, ReadInvariant, StoreFits};
ghost use Rattle.picture.specs.Promises.{picture_state_of, RefinesSlicesStep, RefinesSlices};
ghost use Rattle.macroblock.specs.Promises.{AddressSumBound};
ghost use Rattle.picture.specs.CodeResults.{after_slice_of};

use bits::reader::Reader;
use codes::lent::Tables;
use macroblock::addresses::past;
use picture_state::types::{Context, Progress, Slice, SlicesProgress};
use slice::slices::read_slice;

// RULES 7.3: user data (B2) and extensions (B5).
fn is_extra(code: i32) -> bool
    ensures { result ≡ is_extra code }
{
    matches!(code, 0xb2 | 0xb5)
}

// RULES 7.3: 01 to AF.
fn is_slice(code: i32) -> bool
    ensures { result ≡ is_slice code }
{
    (1..=0xaf).contains(&code)
}

// RULES 7.3: user data and extensions are passed over before the first slice.
fn passes_over(code: i32, begun: bool) -> bool
    ensures { result ≡ (is_extra code && not begun) }
{
    !begun && is_extra(code)
}

// RULES 7.4: behind a slice with this start code. The picture ends where the address has reached the last macroblock.
fn after_slice(g: Context, code: i32, w: Progress) -> SlicesProgress
    requires mb_size_bound { g.sizes.mb_size ≤ 65536 }
    requires address_sum_bound { AddressSumBound w.state.macroblock_address 1 }
    ensures { result ≡ after_slice_of g code w }
{
    let continues = w.stop.is_none() && !past(g, w.state.macroblock_address, 1);
    SlicesProgress {
        reader: w.reader,
        code,
        state: w.state,
        begun: true,
        continues,
        stop: w.stop,
    }
}

// RULES 7.3: the next start code; what is neither passed over nor a slice ends the picture and is kept.
fn slices_step(
    s: &[u8],
    reader: Reader,
    store: &mut [u8],
    values: &mut [i32; 64],
    tables: &Tables,
    g: Context,
    begun: bool,
    state: Slice,
) -> SlicesProgress
    requires read_invariant { ReadInvariant s.now reader state values.old }
    requires store_fits { StoreFits g store.old }
    ensures { RefinesSlicesStep g (matrices_in tables.now) s.now reader begun state values.old store.old
        result values.new store.new }
{
    let found = reader.next_start_code(s);
    let code = found.value;
    if is_slice(code) {
        let w = read_slice(
            s,
            found.reader,
            store,
            values,
            tables,
            g,
            code as usize,
            state,
        );
        return after_slice(g, code, w);
    }
    SlicesProgress {
        reader: found.reader,
        code,
        state,
        begun: false,
        continues: passes_over(code, begun),
        stop: None,
    }
}

// RULES 7.3, 7.4: the slices, none of them read so far.
pub fn read_slices(
    s: &[u8],
    reader: Reader,
    store: &mut [u8],
    values: &mut [i32; 64],
    tables: &Tables,
    g: Context,
    before: i32,
    start: Slice,
) -> SlicesProgress
    requires read_invariant { ReadInvariant s.now reader start values.old }
    requires store_fits { StoreFits g store.old }
    ensures { RefinesSlices (slices g (matrices_in tables.now) (picture_state_of g before start values.old store.old))
        g s.now reader result values.new store.new }
{
    let mut from = reader;
    let mut state = start;
    let mut begun = false;
    loop {
        let t = slices_step(s, from, store, values, tables, g, begun, state);
        if !t.continues {
            return t;
        }
        from = t.reader;
        state = t.state;
        begun = t.begun;
    }
}
