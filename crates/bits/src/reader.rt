// Places in a stream, and reads of bits there.
ghost use Rattle.std.specs.Prelude.{◌≡◌, ◌+◌, ◌-◌, ◌*◌, ◌/◌, ◌≤◌, ◌<◌, length, get_or, leb};
ghost use Rattle.bits.specs.Bounds.{longest_stream, last_position};
ghost use Rattle.bits.specs.Bits.{bits_at, has, has_bytes, boundary};
ghost use Rattle.bits.specs.Programs.{bits, read_at_most32, skips, non_zero};
ghost use Rattle.bits.specs.Runs.{ReaderInBounds, RunsInBounds, position_of, reader_at, advanced_by};

use crate::position::{BitPosition, BytePosition, bit_of, byte_of};

// `at` is the Rust's `bit_index`. A reader goes in by value and comes back beside what is read (DECISIONS bits.3), so no method takes `&mut self`.
#[derive(Clone, Copy)]
pub struct Reader {
    pub at: BitPosition,
}

// What a read gives, and the reader behind it.
#[derive(Clone, Copy)]
pub struct Read<T> {
    pub reader: Reader,
    pub value: T,
}

impl<T> Read<T> {
    // What f makes of the value, beside the same reader.
    pub fn map<U, F: FnOnce(T) -> U>(self, f: F) -> Read<U>
        requires { F.pre f self.value }
        ensures { F.post f self.value result.value × (result.reader ≡ self.reader) }
    {
        Read {
            reader: self.reader,
            value: f(self.value),
        }
    }
}

// A byte of the stream.
fn byte(s: &[u8], i: usize) -> u64
    requires { i < length s.now }
    ensures { (result ≡ get_or s.now i 0) × (result < 256) }
{
    u64::from(s[i])
}

// A byte of the stream, and 0 past its end.
fn byte_or_0(s: &[u8], i: usize) -> u8
    ensures { result ≡ get_or s.now i 0 }
{
    s.get(i).copied().unwrap_or(0)
}

// The five bytes from b on as one number: 32 bits lie within them, wherever in the first byte they begin.
fn window(s: &[u8], b: usize) -> u64
    requires { b ≤ longest_stream }
    ensures { result ≡ bits_at s.now (b * 8) 40 }
{
    if b + 5 <= s.len() {
        return u64::from_be_bytes([0, 0, 0, s[b], s[b + 1], s[b + 2], s[b + 3], s[b + 4]]);
    }
    u64::from_be_bytes([
        0,
        0,
        0,
        byte_or_0(s, b),
        byte_or_0(s, b + 1),
        byte_or_0(s, b + 2),
        byte_or_0(s, b + 3),
        byte_or_0(s, b + 4),
    ])
}

impl Reader {
    pub fn new() -> Reader
        ensures { result ≡ reader_at 0 }
    {
        Reader { at: BitPosition(0) }
    }

    // The reader at a place. A record keeps the place, and a call makes its reader of it.
    pub fn from_position(at: BitPosition) -> Reader
        ensures { result ≡ reader_at at.0 }
    {
        Reader { at }
    }

    // The place of the reader.
    pub fn position(self) -> BitPosition
        ensures { result ≡ record { 0 = position_of self } }
    {
        self.at
    }

    // Whether count more bits are there.
    pub fn has(self, s: &[u8], count: usize) -> Read<bool>
        requires { length s.now ≤ longest_stream }
        ensures { (result.value ≡ has s.now (position_of self) count) × (result.reader ≡ self) }
    {
        let at = self.at.0;
        let end = bit_of(BytePosition(s.len())).0;
        let left = end.saturating_sub(at);
        Read {
            reader: self,
            value: count <= left,
        }
    }

    // Whether no bit is left.
    pub fn has_ended(self, s: &[u8]) -> Read<bool>
        requires { length s.now ≤ longest_stream }
        ensures { (result.value ≡ leb (length s.now * 8) (position_of self)) × (result.reader ≡ self) }
    {
        let at = self.at.0;
        let end = bit_of(BytePosition(s.len())).0;
        Read {
            reader: self,
            value: end <= at,
        }
    }

    // Up to 32 bits, the highest first; 0 and no advance where fewer are left.
    pub fn read(self, s: &[u8], count: usize) -> Read<u32>
        requires { ReaderInBounds s.now self }
        ensures { RunsInBounds (read_at_most32 count) s.now self result.value result.reader }
    {
        if 32 < count {
            return Read {
                reader: self,
                value: 0,
            };
        }
        let at = self.at.0;
        let to = at + count;
        if bit_of(BytePosition(s.len())).0 < to {
            return Read {
                reader: self,
                value: 0,
            };
        }
        let b = byte_of(self.at).0;
        let w = window(s, b) >> (40 - at % 8 - count);
        let value = w - ((w >> count) << count);
        Read {
            reader: Reader {
                at: BitPosition(to),
            },
            value: value as u32,
        }
    }

    // One bit, as `read` gives it for a count of 1.
    pub fn read_bit(self, s: &[u8]) -> Read<u32>
        requires { ReaderInBounds s.now self }
        ensures { RunsInBounds (bits 1) s.now self result.value result.reader }
    {
        let at = self.at.0;
        let b = byte_of(self.at).0;
        if b < s.len() {
            let bit = (s[b] >> (7 - at % 8)) % 2;
            return Read {
                reader: Reader {
                    at: BitPosition(at + 1),
                },
                value: u32::from(bit),
            };
        }
        Read {
            reader: self,
            value: 0,
        }
    }

    // Whether the byte of the place and the one behind it are there, so that eight bits are.
    pub fn has_eight(self, s: &[u8]) -> bool
        ensures { result ≡ has_bytes s.now (position_of self) 2 }
    {
        let b = byte_of(self.at).0;
        b + 2 <= s.len()
    }

    // The next eight bits, out of these two bytes, with no advance.
    pub fn next_eight(self, s: &[u8]) -> u32
        requires { position_of self / 8 + 2 ≤ length s.now }
        ensures { result ≡ bits_at s.now (position_of self) 8 }
    {
        let at = self.at.0;
        let b = byte_of(self.at).0;
        let two = byte(s, b) * 256 + byte(s, b + 1);
        ((two >> (8 - at % 8)) % 256) as u32
    }

    // count bits on, which are known to be there.
    pub fn advanced_by(self, count: usize) -> Reader
        requires { (position_of self ≤ last_position) × (count ≤ 32) }
        ensures { result ≡ advanced_by count self }
    {
        let at = self.at.0;
        Reader {
            at: BitPosition(at + count),
        }
    }

    // count bits on, or none where fewer are left.
    pub fn skip(self, s: &[u8], count: usize) -> Reader
        requires { ReaderInBounds s.now self }
        ensures { RunsInBounds (skips count) s.now self tt result }
    {
        if self.has(s, count).value {
            let at = self.at.0;
            return Reader {
                at: BitPosition(at + count),
            };
        }
        self
    }

    // Whether count bits are there and not all 0, with no advance.
    pub fn peek_non_zero(self, s: &[u8], count: usize) -> Read<bool>
        requires { ReaderInBounds s.now self }
        ensures runs_in_bounds { RunsInBounds (non_zero count) s.now self result.value result.reader }
        ensures reader_value { result.reader ≡ self }
    {
        let peeked = self.read(s, count);
        Read {
            reader: self,
            value: peeked.value != 0,
        }
    }

    // To the next byte boundary.
    pub fn align(self) -> Reader
        requires { position_of self ≤ last_position }
        ensures result_value { position_of result ≡ boundary (position_of self) * 8 }
        ensures result_bound { position_of result ≤ last_position }
    {
        Reader {
            at: bit_of(byte_of(BitPosition(self.at.0 + 7))),
        }
    }

    // The byte of the place.
    pub fn tell(self) -> Read<BytePosition>
        ensures { (result.value.0 ≡ position_of self / 8) × (result.reader ≡ self) }
    {
        Read {
            reader: self,
            value: byte_of(self.at),
        }
    }

    // To the beginning of a byte.
    pub fn seek(self, to: BytePosition) -> Reader
        requires { to.0 ≤ longest_stream }
        ensures result_value { position_of result ≡ to.0 * 8 }
        ensures result_bound { position_of result ≤ last_position }
    {
        Reader { at: bit_of(to) }
    }
}
