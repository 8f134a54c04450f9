// RULES 7.13 to 7.16: a macroblock at its address.
ghost use Rattle.macroblock.specs.Macroblocks.{predict_unless_intra, body};
ghost use Rattle.picture_state.specs.Possible.{PossibleSlice};
ghost use Rattle.picture_state.specs.State.{slice_state};
ghost use Rattle.picture_state.specs.Promises.{matrices_in, StoreFits, AddressInPicture, MacroblockInvariant, RefinesAtMacroblock};
ghost use Rattle.macroblock_head.specs.Promises.{RefinesPrediction};

use bits::reader::Reader;
use blocks::blocks::{CodedBlocks, read_blocks};
use codes::lent::Tables;
use macroblock_head::heads::{read_head, read_macroblock_type, read_pattern};
use macroblock_head::predictions::predict;
use picture_state::flags::MacroblockType;
use picture_state::types::{Context, Progress, Slice, StopMark};
use prediction::position::HalfSampleOutside;

// RULES 7.14: prediction, unless intra.
fn predict_unless_intra(
    store: &mut [u8],
    g: Context,
    t: MacroblockType,
    state: Slice,
) -> Result<(), HalfSampleOutside>
    requires store_fits { StoreFits g store.old }
    requires address_in_picture { AddressInPicture g state.macroblock_address }
    requires possible_slice { PossibleSlice state }
    ensures { RefinesPrediction (predict_unless_intra g t.0 state store.old) result store.new }
{
    if t.is_intra() {
        return Ok(());
    }
    let address = state.macroblock_address as usize;
    predict(store, g, address, state)
}

// Type, head, prediction, pattern, blocks.
pub fn body(
    s: &[u8],
    reader: Reader,
    store: &mut [u8],
    values: &mut [i32; 64],
    tables: &Tables,
    g: Context,
    before: Slice,
) -> Progress
    requires macroblock_invariant { MacroblockInvariant g s.now reader before values.old store.old }
    ensures { RefinesAtMacroblock (body g (matrices_in tables.now) (slice_state before values.old store.old))
        g s.now reader result values.new store.new }
{
    let t = read_macroblock_type(s, reader, tables, g.picture_type);
    let flags = MacroblockType(t.value);
    let h = read_head(s, t.reader, tables, g.picture_type, flags, before);
    let from = h.reader;
    let state = h.value;
    let Ok(()) = predict_unless_intra(store, g, flags, state) else {
        return Progress {
            reader: from,
            state,
            stop: Some(StopMark::PredictionOutside),
        };
    };
    let p = read_pattern(s, from, tables, flags);
    let intra = flags.is_intra();
    let pattern = p.value;
    let coded = CodedBlocks {
        context: g,
        intra,
        pattern,
    };
    read_blocks(s, p.reader, store, values, tables, coded, state)
}
