// Checksums.
#![tactic(auto, unfolding(crate::specs::Sums::mixed, crate::specs::Sums::summed))]

ghost use Rattle.std.specs.Prelude.{◌≡◌, ◌<◌, List, ℕ};
ghost use Rattle.conformance.specs.Sums.{mixed, summed, words, single, halves, signed_word, float_words, record_sum};

use crate::floats::bits;
use answer_lists::numbers::twos_complement;

pub fn mixed(sum: u64, n: u32) -> u64
    requires { sum < 4294967311 }
    ensures { (result ≡ mixed sum n) × (result < 4294967311) }
{
    (sum * 2654435761 + u64::from(n)) % 4294967311
}

// A number of 64 bits: its high half, then its low one.
fn sum_word(before: u64, n: u64) -> u64
    requires { before < 4294967311 }
    ensures { (result ≡ summed before (halves n)) × (result < 4294967311) }
{
    let high = mixed(before, (n / 4294967296) as u32);
    mixed(high, (n % 4294967296) as u32)
}

// An element of what is summed: numbers of 32 bits, one after the other.
pub trait Summed {
    ghost words_of: { Self → List ℕ };

    // They, after others whose checksum is `before`.
    fn summed(self, before: u64) -> u64
        requires { before < 4294967311 }
        ensures { (result ≡ summed before (words_of self)) × (result < 4294967311) };
}

impl Summed for u8 {
    ghost words_of = { single };

    fn summed(self, before: u64) -> u64 {
        mixed(before, u32::from(self))
    }
}

impl Summed for u32 {
    ghost words_of = { single };

    fn summed(self, before: u64) -> u64 {
        mixed(before, self)
    }
}

impl Summed for i32 {
    ghost words_of = { signed_word };

    fn summed(self, before: u64) -> u64 {
        mixed(before, twos_complement(self))
    }
}

impl Summed for usize {
    ghost words_of = { halves };

    fn summed(self, before: u64) -> u64 {
        sum_word(before, self as u64)
    }
}

impl Summed for f64 {
    ghost words_of = { float_words };

    fn summed(self, before: u64) -> u64 {
        sum_word(before, bits(self))
    }
}

// A part, after others whose checksum is `before`.
pub fn sum<T: Summed + Copy>(before: u64, part: &[T]) -> u64
    requires { before < 4294967311 }
    ensures { (result ≡ summed before (words T.words_of part.now)) × (result < 4294967311) }
{
    let mut sum = before;
    for element in part {
        sum = element.summed(sum);
    }
    sum
}

// A record, as it lies in memory; the four stay apart, since a `Memory` would ask for the right to write, which a checksum does not need.
pub fn sum_record(numbers: &[usize], integers: &[i32], matrices: &[u8], clock: &[f64]) -> u64
    ensures { result ≡ record_sum numbers.now integers.now matrices.now clock.now }
{
    let heads = sum(sum(1, numbers), integers);
    sum(sum(heads, matrices), clock)
}
