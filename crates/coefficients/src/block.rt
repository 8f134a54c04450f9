// The coefficients of a block.
ghost use Rattle.std.specs.Prelude.{◌≡◌, true, ◌≤◌, ◌<◌, ◌*◌, pos, nat_abs, ◌*ℤ◌, get_or};
ghost use Rattle.bits.specs.Runs.{ReaderInBounds, RunsInBounds};
ghost use Rattle.codes.specs.DecodingTables.{matrix_of};
ghost use Rattle.codes.specs.Matrices.{premultiplier_matrix};
ghost use Rattle.coefficients.specs.Dcs.{dc_in_range};
ghost use Rattle.coefficients.specs.Dequantise.{dequantised};
ghost use Rattle.coefficients.specs.Blocks.{block_coefficients, block_coefficients_end, coefficients, block, block_read_of, block_data_after};

use crate::coefficient::{Coefficient, read_coefficient};
use crate::dc::{dc_in_range, read_dc_difference};
use crate::dequantise::dequantise;
use crate::quantiser::Quantiser;
use bits::reader::Reader;
use codes::lent::Tables;

// How a block ended: read to its end; dropped, its run having led past the last place; or its DC value outside -256..255 (number 8).
// An enum in the terms of the field, and no Result: a dropped block is no refusal.
#[derive(Clone, Copy, PartialEq, Eq, Debug)]
pub enum BlockEnd {
    Complete,
    Dropped,
    DcOutOfRange,
}

// n: the places used; predictor: that of the block's plane from now on.
#[derive(Clone, Copy)]
pub struct Block {
    pub reader: Reader,
    pub n: usize,
    pub predictor: i32,
    pub end: BlockEnd,
}

// Where the coefficients end, and how.
#[derive(Clone, Copy)]
struct CoefficientsEnd {
    pub reader: Reader,
    pub n: usize,
    pub end: BlockEnd,
}

// RULES 3.8 with its last step: the coefficient at a place.
fn premultiplied(tables: &Tables, q: Quantiser, level: i32, position: usize) -> i32
    requires level_bound { (nat_abs level ≤ 256) × (q.scale ≤ 31) × (position < 64) }
    ensures { result ≡ dequantised q level (get_or (matrix_of tables.now q.intra) position 0) *ℤ get_or premultiplier_matrix position (pos 0) }
{
    let weight = tables.entry(q.intra, position);
    let factor = tables.premultiplier(position);
    dequantise(q, level, weight) * factor
}

// The coefficients from the place `first` on, up to the end of the block.
fn read_coefficients(
    s: &[u8],
    reader: Reader,
    tables: &Tables,
    values: &mut [i32; 64],
    q: Quantiser,
    first: usize,
) -> CoefficientsEnd
    requires reader_in_bounds { ReaderInBounds s.now reader }
    requires first_bound { (first ≤ 64) × (q.scale ≤ 31) }
    ensures { RunsInBounds (coefficients q (matrix_of tables.now q.intra) (block_coefficients values.old first))
        s.now reader (block_coefficients_end (block_coefficients values.new result.n) result.end) result.reader }
{
    let mut from = reader;
    let mut n = first;
    loop {
        let read = read_coefficient(s, from, tables, n);
        from = read.reader;
        let Coefficient::RunLevel { run, level } = read.value else {
            return CoefficientsEnd {
                reader: from,
                n,
                end: BlockEnd::Complete,
            };
        };
        let at = n + run;
        if 64 <= at {
            return CoefficientsEnd {
                reader: from,
                n,
                end: BlockEnd::Dropped,
            };
        }
        let position = tables.zig_zag_position(at);
        values[position] = premultiplied(tables, q, level, position);
        n = at + 1;
    }
}

// An intra block: its DC value first.
fn read_intra_block(
    s: &[u8],
    reader: Reader,
    tables: &Tables,
    values: &mut [i32; 64],
    q: Quantiser,
    luminance: bool,
    predictor: i32,
) -> Block
    requires reader_in_bounds { ReaderInBounds s.now reader }
    requires intra_value { (q.intra ≡ true) × (q.scale ≤ 31) × (dc_in_range predictor ≡ true) }
    ensures { RunsInBounds (block q (matrix_of tables.now q.intra) luminance predictor values.old)
        s.now reader (block_read_of values.new result) result.reader }
{
    let difference = read_dc_difference(s, reader, tables, luminance);
    let after = difference.reader;
    let dc = predictor + difference.value;
    if !dc_in_range(dc) {
        return Block {
            reader: after,
            n: 0,
            predictor,
            end: BlockEnd::DcOutOfRange,
        };
    }
    values[0] = dc * 256;
    let last = read_coefficients(s, after, tables, values, q, 1);
    Block {
        reader: last.reader,
        n: last.n,
        predictor: dc,
        end: last.end,
    }
}

// A block, in place: `values` are the coefficients left over and become the block's.
pub fn read_block(
    s: &[u8],
    reader: Reader,
    tables: &Tables,
    values: &mut [i32; 64],
    q: Quantiser,
    luminance: bool,
    predictor: i32,
) -> Block
    requires reader_in_bounds { ReaderInBounds s.now reader }
    requires scale_bound { (q.scale ≤ 31) × (dc_in_range predictor ≡ true) }
    ensures { RunsInBounds (block q (matrix_of tables.now q.intra) luminance predictor values.old)
        s.now reader (block_read_of values.new result) result.reader }
{
    if q.intra {
        return read_intra_block(s, reader, tables, values, q, luminance, predictor);
    }
    let last = read_coefficients(s, reader, tables, values, q, 0);
    Block {
        reader: last.reader,
        n: last.n,
        predictor,
        end: last.end,
    }
}

// Makes of a block's coefficients what the next block begins with.
pub fn block_data_after(values: &mut [i32; 64], q: Quantiser, block: Block)
    ensures { values.new ≡ block_data_after q (block_read_of values.old block) }
{
    if let BlockEnd::Complete = block.end {
        *values = [0; 64];
    }
}
