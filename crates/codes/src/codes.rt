// A code of each table.
ghost use Rattle.std.specs.Prelude.{List, map, ◌≡◌, ℕ, ◌+◌, ◌-◌, ◌/◌, ◌%◌, ◌≤◌, ◌<◌, ℤ, pos, take, drop};
ghost use Rattle.bits.specs.Bounds.{last_position};
ghost use Rattle.bits.specs.Runs.{ReaderInBounds, RunsInBounds, position_of, advanced_by};
ghost use Rattle.codes.specs.DecodingTables.{IsMergedTable, ValidMergedTable, tables_length};
ghost use Rattle.codes.specs.Walk.{vlc_from, vlc};
ghost use Rattle.codes.specs.Codes.{macroblock_address_increment, macroblock_type_intra, macroblock_type_predictive, macroblock_type_b};
ghost use Rattle.codes.specs.Codes.{code_block_pattern, motion, dct_size_luminance, dct_size_chrominance, dct_coeff};

use crate::lent::{
    CHROMINANCE, COEFFICIENT, INCREMENT, LENGTH, LUMINANCE, PATTERN, SCAN, TYPE_B, TYPE_I, TYPE_P,
    Tables, VECTOR,
};
use crate::walk::{read_vlc, read_vlc_uint};
use bits::reader::{Read, Reader};
use code_lookup::{lookup_dct_coeff, lookup_macroblock_address_increment};

// A code of a table whose values are natural numbers, from a pair of entries on: the table begins at `at`, and `end` is behind it.
fn read_natural_from(
    s: &[u8],
    reader: Reader,
    entries: &[u16; LENGTH],
    at: usize,
    end: usize,
    pair: usize,
) -> Read<u32>
    requires reader_in_bounds { ReaderInBounds s.now reader }
    requires at_le_end { (at ≤ end) × (end ≤ tables_length) }
    requires valid_merged_table { ValidMergedTable (take (end - at) (drop at entries.now)) }
    requires pair_bound { pair + 1 < end - at }
    ensures { (ix : List ℤ) (vs : List ℕ) → IsMergedTable ix (map pos vs) (take (end - at) (drop at entries.now))
        → RunsInBounds (vlc_from ix vs 0 pair) s.now reader result.value result.reader }
{
    let t = &entries[..];
    read_vlc_uint(s, reader, &t[at..end], pair)
}

// The whole code.
fn read_natural(
    s: &[u8],
    reader: Reader,
    entries: &[u16; LENGTH],
    at: usize,
    end: usize,
) -> Read<u32>
    requires reader_in_bounds { ReaderInBounds s.now reader }
    requires at_le_end { (at ≤ end) × (end ≤ tables_length) }
    requires valid_merged_table { ValidMergedTable (take (end - at) (drop at entries.now)) }
    ensures { (ix : List ℤ) (vs : List ℕ) → IsMergedTable ix (map pos vs) (take (end - at) (drop at entries.now))
        → RunsInBounds (vlc ix vs 0) s.now reader result.value result.reader }
{
    read_natural_from(s, reader, entries, at, end, 0)
}

// A code as it was looked up: 16 × value + length.
fn found(reader: Reader, entry: u32) -> Read<u32>
    requires { position_of reader ≤ last_position }
    ensures { (result.value ≡ entry / 16) × (result.reader ≡ advanced_by (entry % 16) reader) }
{
    Read {
        reader: reader.advanced_by((entry % 16) as usize),
        value: entry / 16,
    }
}

// An increment of the macroblock address: 1 to 33, 34 for stuffing, 35 for the escape.
pub fn read_macroblock_address_increment(s: &[u8], reader: Reader, tables: &Tables) -> Read<u32>
    requires reader_in_bounds { ReaderInBounds s.now reader }
    ensures { RunsInBounds macroblock_address_increment s.now reader result.value result.reader }
{
    if reader.has_eight(s) {
        let x = reader.next_eight(s);
        if x < 6 {
            if x == 1 {
                return read_natural_from(
                    s,
                    reader.advanced_by(8),
                    tables.entries(),
                    INCREMENT,
                    TYPE_I,
                    40,
                );
            }
            if 2 < x {
                let pair = 36 + 2 * x as usize;
                return read_natural_from(
                    s,
                    reader.advanced_by(8),
                    tables.entries(),
                    INCREMENT,
                    TYPE_I,
                    pair,
                );
            }
        }
        return found(reader, lookup_macroblock_address_increment(x));
    }
    read_natural(s, reader, tables.entries(), INCREMENT, TYPE_I)
}

// The readers of the types, the pattern and the DC sizes differ in their table alone, and each is one call: a function for each, since its clause is its
// table's program.
// The type of a macroblock of an I picture, as flags.
pub fn read_macroblock_type_intra(s: &[u8], reader: Reader, tables: &Tables) -> Read<u32>
    requires reader_in_bounds { ReaderInBounds s.now reader }
    ensures { RunsInBounds macroblock_type_intra s.now reader result.value result.reader }
{
    read_natural(s, reader, tables.entries(), TYPE_I, TYPE_P)
}

// Of a P picture.
pub fn read_macroblock_type_predictive(s: &[u8], reader: Reader, tables: &Tables) -> Read<u32>
    requires reader_in_bounds { ReaderInBounds s.now reader }
    ensures { RunsInBounds macroblock_type_predictive s.now reader result.value result.reader }
{
    read_natural(s, reader, tables.entries(), TYPE_P, TYPE_B)
}

// Of a B picture.
pub fn read_macroblock_type_b(s: &[u8], reader: Reader, tables: &Tables) -> Read<u32>
    requires reader_in_bounds { ReaderInBounds s.now reader }
    ensures { RunsInBounds macroblock_type_b s.now reader result.value result.reader }
{
    read_natural(s, reader, tables.entries(), TYPE_B, PATTERN)
}

// The pattern of coded blocks.
pub fn read_code_block_pattern(s: &[u8], reader: Reader, tables: &Tables) -> Read<u32>
    requires reader_in_bounds { ReaderInBounds s.now reader }
    ensures { RunsInBounds code_block_pattern s.now reader result.value result.reader }
{
    read_natural(s, reader, tables.entries(), PATTERN, VECTOR)
}

// A code of a motion vector: -16 to 16.
pub fn read_motion(s: &[u8], reader: Reader, tables: &Tables) -> Read<i32>
    requires reader_in_bounds { ReaderInBounds s.now reader }
    ensures { RunsInBounds motion s.now reader result.value result.reader }
{
    let t = &tables.entries()[..];
    read_vlc(s, reader, &t[VECTOR..LUMINANCE])
}

// The size of a DC differential.
pub fn read_dct_size_luminance(s: &[u8], reader: Reader, tables: &Tables) -> Read<u32>
    requires reader_in_bounds { ReaderInBounds s.now reader }
    ensures { RunsInBounds dct_size_luminance s.now reader result.value result.reader }
{
    read_natural(s, reader, tables.entries(), LUMINANCE, CHROMINANCE)
}

// The same for Cb and Cr.
pub fn read_dct_size_chrominance(s: &[u8], reader: Reader, tables: &Tables) -> Read<u32>
    requires reader_in_bounds { ReaderInBounds s.now reader }
    ensures { RunsInBounds dct_size_chrominance s.now reader result.value result.reader }
{
    read_natural(s, reader, tables.entries(), CHROMINANCE, COEFFICIENT)
}

// A coefficient's code without its sign: 256 × run + level, or the escape.
pub fn read_dct_coeff(s: &[u8], reader: Reader, tables: &Tables) -> Read<u32>
    requires reader_in_bounds { ReaderInBounds s.now reader }
    ensures { RunsInBounds dct_coeff s.now reader result.value result.reader }
{
    if reader.has_eight(s) {
        let x = reader.next_eight(s);
        if x < 4 {
            let pair = 54 + 2 * x as usize;
            let rest = reader.advanced_by(8);
            return read_natural_from(s, rest, tables.entries(), COEFFICIENT, SCAN, pair);
        }
        return found(reader, lookup_dct_coeff(x));
    }
    read_natural(s, reader, tables.entries(), COEFFICIENT, SCAN)
}
