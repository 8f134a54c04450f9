// Numbers of a list. A number is 32 bits, highest byte first; one below 0 is held as 2^32 more.
ghost use Rattle.std.specs.Prelude.{◌≡◌};
ghost use Rattle.std.specs.Int.{w32};
ghost use Rattle.std.proofs.Common.{of_z, to_z};
ghost use Rattle.answer_lists.specs.Numbers.{number_at};

use crate::bytes::byte_at;

// The number at a byte of a list. A byte past its end counts as 0, so there may be no four bytes for `from_be_bytes` to take.
pub fn number_at(list: &[u8], at: usize) -> u32
    ensures { result ≡ number_at list.now at }
{
    if list.len() <= at {
        return 0;
    }
    byte_at(list, at) * 16777216
        + byte_at(list, at + 1) * 65536
        + byte_at(list, at + 2) * 256
        + byte_at(list, at + 3)
}

// The number, below 0 or not, that a list holds as n.
pub fn signed(n: u32) -> i32
    ensures { result ≡ to_z w32 n }
{
    n.cast_signed()
}

// What a list holds z as.
pub fn twos_complement(z: i32) -> u32
    ensures { result ≡ of_z w32 z }
{
    z.cast_unsigned()
}
