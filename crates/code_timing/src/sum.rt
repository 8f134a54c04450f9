// The sum of the values of codes that are read one behind the other from the beginning of a stream on, modulo 2^32. The table is a parameter of the
// loop's type, so that the compiler makes a loop for each and joins its reader into it.
ghost use Rattle.std.specs.Prelude.{◌≡◌, ◌≤◌, length};
ghost use Rattle.bits.specs.Bounds.{longest_stream};
ghost use Rattle.bits.specs.Programs.{run};
ghost use Rattle.code_timing.specs.Sum.{summed, code_of, code_sum};

use bits::position::LONGEST_STREAM;
use bits::reader::Reader;
use codes::codes::{read_dct_coeff, read_macroblock_address_increment};
use codes::lent::Tables;
use codes::matrices::{INTRA_QUANT_MATRIX, NON_INTRA_QUANT_MATRIX};
use tables::tables::tables_with;

// The values of `count` codes of a table: of coefficients for 0, of increments for any other number.
fn table_sum<const TABLE: u32>(s: &[u8], tables: &Tables, count: usize) -> u64
    requires s_len_bound { length s.now ≤ longest_stream }
    ensures { result ≡ (run (summed (code_of TABLE) count 0) s.now 0).value }
{
    let mut reader = Reader::new();
    let mut sum: u64 = 0;
    for _ in 0..count {
        let code = if TABLE == 0 {
            read_dct_coeff(s, reader, tables)
        } else {
            read_macroblock_address_increment(s, reader, tables)
        };
        reader = code.reader;
        sum = (sum + u64::from(code.value)) % 4294967296;
    }
    sum
}

// `count` codes of coefficients, if `table` is 0, or else of increments; 0 for a stream that is too long (RULES Q1).
#[unsafe(no_mangle)]
#[tactic(auto, using(crate::proofs::Sums::long_sum, crate::proofs::Sums::coefficients_sum, crate::proofs::Sums::increments_sum))]
pub extern "C" fn mpeg1_code_sum(s: &[u8], table: u32, count: usize) -> u64
    ensures { result ≡ code_sum s.now table count }
{
    if LONGEST_STREAM < s.len() {
        return 0;
    }
    let tables = tables_with(&INTRA_QUANT_MATRIX, &NON_INTRA_QUANT_MATRIX);
    if table == 0 {
        return table_sum::<0>(s, &tables, count);
    }
    table_sum::<1>(s, &tables, count)
}
