// The sum for C.
ghost use Rattle.std.specs.Prelude.{◌≡◌};
ghost use Rattle.code_timing.specs.Sum.{code_sum};

use code_timing::sum;

// `count` codes of coefficients, if `table` is 0, or else of increments; 0 for a stream that is too long (RULES Q1).
#[unsafe(no_mangle)]
pub extern "C" fn mpeg1_code_sum(s: &[u8], table: u32, count: usize) -> u64
    ensures { result ≡ code_sum s.now table count }
{
    sum::mpeg1_code_sum(s, table, count)
}
