// Counts of bits and counts of bytes: two types, so that the one is never added to the other.
ghost use Rattle.std.specs.Prelude.{◌≡◌, ◌*◌, ◌/◌, ◌≤◌};
ghost use Rattle.bits.specs.Bounds.{longest_stream};

// RULES Q1: the longest stream, in bytes.
pub const LONGEST_STREAM: usize = 16777216;

// RULES Q2: the last place, in bits: the end of the longest stream.
pub const LAST_POSITION: usize = 134217728;

#[derive(Clone, Copy, PartialEq, Eq, PartialOrd, Ord, Debug)]
pub struct BitPosition(pub usize);

#[derive(Clone, Copy, PartialEq, Eq, PartialOrd, Ord, Debug)]
pub struct BytePosition(pub usize);

// The byte in which a bit lies.
pub fn byte_of(at: BitPosition) -> BytePosition
    ensures { result.0 ≡ at.0 / 8 }
{
    BytePosition(at.0 / 8)
}

// The first bit of a byte.
pub fn bit_of(at: BytePosition) -> BitPosition
    requires { at.0 ≤ longest_stream }
    ensures { result.0 ≡ at.0 * 8 }
{
    BitPosition(at.0 * 8)
}
