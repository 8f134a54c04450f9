// RULES 7.16: the blocks of a macroblock.
ghost use Rattle.std.specs.Prelude.{◌≡◌, ◌-◌, ◌^◌, ◌<◌};
ghost use Rattle.picture_state.specs.State.{slice_state};
ghost use Rattle.blocks.specs.Blocks.{predictor_of, with_dc_predictor, quantiser_of, one_block, pattern_block, blocks};
ghost use Rattle.picture_state.specs.Promises.{matrices_in, MacroblockInvariant, RefinesAtMacroblock};

use crate::writes::write_block;
use bits::reader::Reader;
use codes::lent::Tables;
use coefficients::block::{BlockEnd, read_block};
use coefficients::quantiser::Quantiser;
use picture_state::flags::flag;
use picture_state::types::{Context, Progress, Slice, StopMark};

// What the blocks of a macroblock have in common: the picture's context, whether they are intra, and the pattern that names those there are.
#[derive(Clone, Copy)]
pub struct CodedBlocks {
    pub context: Context,
    pub intra: bool,
    pub pattern: u32,
}

// RULES 3.1: the place of a block's DC predictor: 0 for Y, 1 for Cb, 2 for Cr.
fn predictor_of(number: usize) -> usize
    ensures { result ≡ predictor_of number }
{
    if number < 4 {
        return 0;
    }
    number - 3
}

// The state with another predictor of the block's plane.
fn with_dc_predictor(mut state: Slice, number: usize, predictor: i32) -> Slice
    requires { number < 6 }
    ensures { result ≡ with_dc_predictor number predictor state }
{
    state.dc_predictor[predictor_of(number)] = predictor;
    state
}

// RULES 3.8: what makes coefficients of the levels of blocks that are intra or not.
fn quantiser_of(coded: CodedBlocks, state: Slice) -> Quantiser
    ensures { result ≡ quantiser_of coded.context coded.intra state }
{
    Quantiser {
        intra: coded.intra,
        scale: state.quantizer_scale,
    }
}

// The block with this number, read and written.
fn one_block(
    s: &[u8],
    reader: Reader,
    store: &mut [u8],
    values: &mut [i32; 64],
    tables: &Tables,
    coded: CodedBlocks,
    state: Slice,
    number: usize,
) -> Progress
    requires macroblock_invariant { MacroblockInvariant coded.context s.now reader state values.old store.old }
    requires number_bound { number < 6 }
    ensures { RefinesAtMacroblock
        (one_block coded.context (matrices_in tables.now) coded.intra number (slice_state state values.old store.old))
        coded.context s.now reader result values.new store.new }
{
    let q = quantiser_of(coded, state);
    let predictor = state.dc_predictor[predictor_of(number)];
    let r = read_block(s, reader, tables, values, q, number < 4, predictor);
    if let BlockEnd::DcOutOfRange = r.end {
        return Progress {
            reader: r.reader,
            state,
            stop: Some(StopMark::DcOutside),
        };
    }
    let g = coded.context;
    write_block(store, values, g, state.macroblock_address, number, q, r);
    Progress {
        reader: r.reader,
        state: with_dc_predictor(state, number, r.predictor),
        stop: None,
    }
}

// RULES 7.16: the weight of a block's bit in the pattern: 32 for block 0, 1 for block 5.
fn weight_of(number: usize) -> u32
    requires { number < 6 }
    ensures { result ≡ 2 ^ (5 - number) }
{
    let k = 5 - number;
    1 << k
}

// The block with this number, if the pattern has its bit.
fn block_of_pattern(
    s: &[u8],
    reader: Reader,
    store: &mut [u8],
    values: &mut [i32; 64],
    tables: &Tables,
    coded: CodedBlocks,
    state: Slice,
    number: usize,
) -> Progress
    requires macroblock_invariant { MacroblockInvariant coded.context s.now reader state values.old store.old }
    requires number_bound { number < 6 }
    ensures { RefinesAtMacroblock (pattern_block coded.context (matrices_in tables.now) coded.intra coded.pattern number
        (slice_state state values.old store.old))
        coded.context s.now reader result values.new store.new }
{
    if !flag(coded.pattern, weight_of(number)) {
        return Progress {
            reader,
            state,
            stop: None,
        };
    }
    one_block(s, reader, store, values, tables, coded, state, number)
}

// RULES 7.16: the blocks that the pattern names, 0 to 5 in this order.
pub fn read_blocks(
    s: &[u8],
    reader: Reader,
    store: &mut [u8],
    values: &mut [i32; 64],
    tables: &Tables,
    coded: CodedBlocks,
    before: Slice,
) -> Progress
    requires macroblock_invariant { MacroblockInvariant coded.context s.now reader before values.old store.old }
    ensures { RefinesAtMacroblock (blocks coded.context (matrices_in tables.now) coded.intra coded.pattern
        (slice_state before values.old store.old))
        coded.context s.now reader result values.new store.new }
{
    let mut from = reader;
    let mut state = before;
    for number in 0..6 {
        let b = block_of_pattern(s, from, store, values, tables, coded, state, number);
        if b.stop.is_some() {
            return b;
        }
        from = b.reader;
        state = b.state;
    }
    Progress {
        reader: from,
        state,
        stop: None,
    }
}
