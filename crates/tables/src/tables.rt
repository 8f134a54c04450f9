// The array of tables, made of the constant arrays once a picture: a constant array is built anew at each use.
ghost use Rattle.std.specs.Prelude.{◌≡◌, ◌+◌, ◌-◌, ◌≤◌, T, length, drop};
ghost use Rattle.std.proofs.Math.Seq.{paste};
ghost use Rattle.codes.specs.DecodingTables.{merged_table, all, abs_below256, is_table_value, macroblock_codes, block_codes, tables_with};

use crate::code_tables::{
    CODE_BLOCK_PATTERN_INDEX, CODE_BLOCK_PATTERN_VALUE, DCT_COEFF_INDEX, DCT_COEFF_VALUE,
    DCT_SIZE_CHROMINANCE_INDEX, DCT_SIZE_CHROMINANCE_VALUE, DCT_SIZE_LUMINANCE_INDEX,
    DCT_SIZE_LUMINANCE_VALUE, MACROBLOCK_ADDRESS_INCREMENT_INDEX,
    MACROBLOCK_ADDRESS_INCREMENT_VALUE, MACROBLOCK_TYPE_B_INDEX, MACROBLOCK_TYPE_B_VALUE,
    MACROBLOCK_TYPE_INTRA_INDEX, MACROBLOCK_TYPE_INTRA_VALUE, MACROBLOCK_TYPE_PREDICTIVE_INDEX,
    MACROBLOCK_TYPE_PREDICTIVE_VALUE, MOTION_INDEX, MOTION_VALUE,
};
use codes::lent::{
    CHROMINANCE, COEFFICIENT, INCREMENT, INTRA_MATRIX, LENGTH, LUMINANCE, NON_INTRA_MATRIX,
    PATTERN, PREMULTIPLIERS, SCAN, TYPE_B, TYPE_I, TYPE_P, Tables, VECTOR,
};
use codes::matrices::{PREMULTIPLIER_MATRIX, ZIG_ZAG};

// A table of bytes, from `at` on.
fn put_bytes(tables: &mut [u16], at: usize, table: &[u8])
    requires { at + length table.now ≤ length tables.old }
    ensures { tables.new ≡ paste tables.old at table.now (length table.now) }
{
    for (k, entry) in table.iter().enumerate() {
        tables[at + k] = u16::from(*entry);
    }
}

// The entries from `first` up to `last` of a code table that stands at `at`: an index where the walk goes on, else 16 bits of a value, above the indices.
fn put_codes(tables: &mut [u16], at: usize, index: &[i32], value: &[i32], first: usize, last: usize)
    requires first_le_last { (first ≤ last) × (last ≤ length index.now) × (length value.now ≡ length index.now) }
    requires index_in_bounds { at + length index.now ≤ length tables.old }
    requires t { T (all abs_below256 index.now) × T (all is_table_value value.now) }
    ensures { tables.new
        ≡ paste tables.old (at + first) (drop first (merged_table index.now value.now)) (last - first) }
{
    for k in first..last {
        let next = index[k];
        let found = (value[k] + 1024) as u32 % 65536;
        let entry = if next <= 0 { found } else { next as u32 };
        tables[at + k] = entry as u16;
    }
}

// The code tables of increments, types and patterns. A long one is laid in parts: the compiler makes constants of a loop of up to some 25 turns.
// With all 224 coefficients in one part it copied the constant arrays at each call, and kept the loop.
fn put_macroblock_codes(t: &mut [u16; LENGTH])
    ensures { t.new ≡ paste t.old 0 macroblock_codes (length macroblock_codes) }
{
    let index = &MACROBLOCK_ADDRESS_INCREMENT_INDEX[..];
    let value = &MACROBLOCK_ADDRESS_INCREMENT_VALUE[..];
    put_codes(t, INCREMENT, index, value, 0, 24);
    put_codes(t, INCREMENT, index, value, 24, 48);
    put_codes(t, INCREMENT, index, value, 48, 72);
    put_codes(t, INCREMENT, index, value, 72, 80);
    let index = &MACROBLOCK_TYPE_INTRA_INDEX[..];
    let value = &MACROBLOCK_TYPE_INTRA_VALUE[..];
    put_codes(t, TYPE_I, index, value, 0, 4);
    let index = &MACROBLOCK_TYPE_PREDICTIVE_INDEX[..];
    let value = &MACROBLOCK_TYPE_PREDICTIVE_VALUE[..];
    put_codes(t, TYPE_P, index, value, 0, 14);
    let index = &MACROBLOCK_TYPE_B_INDEX[..];
    let value = &MACROBLOCK_TYPE_B_VALUE[..];
    put_codes(t, TYPE_B, index, value, 0, 22);
    let index = &CODE_BLOCK_PATTERN_INDEX[..];
    let value = &CODE_BLOCK_PATTERN_VALUE[..];
    put_codes(t, PATTERN, index, value, 0, 24);
    put_codes(t, PATTERN, index, value, 24, 48);
    put_codes(t, PATTERN, index, value, 48, 72);
    put_codes(t, PATTERN, index, value, 72, 96);
    put_codes(t, PATTERN, index, value, 96, 120);
    put_codes(t, PATTERN, index, value, 120, 126);
}

// The code tables of vectors, DC sizes and coefficients, the zig-zag order and the premultipliers.
fn put_block_codes(t: &mut [u16; LENGTH])
    ensures { t.new ≡ paste t.old (length macroblock_codes) block_codes (length block_codes) }
{
    let index = &MOTION_INDEX[..];
    let value = &MOTION_VALUE[..];
    put_codes(t, VECTOR, index, value, 0, 24);
    put_codes(t, VECTOR, index, value, 24, 48);
    put_codes(t, VECTOR, index, value, 48, 68);
    let index = &DCT_SIZE_LUMINANCE_INDEX[..];
    let value = &DCT_SIZE_LUMINANCE_VALUE[..];
    put_codes(t, LUMINANCE, index, value, 0, 18);
    let index = &DCT_SIZE_CHROMINANCE_INDEX[..];
    let value = &DCT_SIZE_CHROMINANCE_VALUE[..];
    put_codes(t, CHROMINANCE, index, value, 0, 18);
    let index = &DCT_COEFF_INDEX[..];
    let value = &DCT_COEFF_VALUE[..];
    put_codes(t, COEFFICIENT, index, value, 0, 24);
    put_codes(t, COEFFICIENT, index, value, 24, 48);
    put_codes(t, COEFFICIENT, index, value, 48, 72);
    put_codes(t, COEFFICIENT, index, value, 72, 96);
    put_codes(t, COEFFICIENT, index, value, 96, 120);
    put_codes(t, COEFFICIENT, index, value, 120, 144);
    put_codes(t, COEFFICIENT, index, value, 144, 168);
    put_codes(t, COEFFICIENT, index, value, 168, 192);
    put_codes(t, COEFFICIENT, index, value, 192, 216);
    put_codes(t, COEFFICIENT, index, value, 216, 224);
    put_bytes(t, SCAN, &ZIG_ZAG);
    put_bytes(t, PREMULTIPLIERS, &PREMULTIPLIER_MATRIX);
}

// The tables with these matrices.
pub fn tables_with(intra_matrix: &[u8; 64], other_matrix: &[u8; 64]) -> Tables
    ensures { result ≡ tables_with intra_matrix.now other_matrix.now }
{
    let mut tables = [0u16; LENGTH];
    put_macroblock_codes(&mut tables);
    put_block_codes(&mut tables);
    put_bytes(&mut tables, INTRA_MATRIX, intra_matrix);
    put_bytes(&mut tables, NON_INTRA_MATRIX, other_matrix);
    Tables::new(tables)
}
