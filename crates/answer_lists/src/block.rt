// Blocks of 64 numbers, each below 0 or not, and of 64 bytes.
ghost use Rattle.std.specs.Prelude.{◌≡◌};
ghost use Rattle.answer_lists.specs.Blocks.{blank, block_of, matrix_of};

use crate::bytes::byte_at;
use crate::numbers::number_at;

#[tactic(auto, unfolding(crate::specs::Blocks::blank))]
pub fn blank() -> [i32; 64]
    ensures { result ≡ blank }
{
    [0; 64]
}

// The block that a list holds, from its first byte on.
pub fn block_of(list: &[u8]) -> [i32; 64]
    ensures { result ≡ block_of list.now }
{
    let mut block = blank();
    for i in 0..64 {
        block[i] = number_at(list, 4 * i).cast_signed();
    }
    block
}

// The 64 bytes that a list begins with; 0 past its end. What block_of shares with this is the loop alone: the elements are of another type, and read otherwise.
pub fn matrix_of(list: &[u8]) -> [u8; 64]
    ensures { result ≡ matrix_of list.now }
{
    let mut matrix = [0u8; 64];
    for i in 0..64 {
        matrix[i] = byte_at(list, i) as u8;
    }
    matrix
}
