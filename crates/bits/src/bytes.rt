// Whole bytes at a place.
ghost use Rattle.std.specs.Prelude.{◌≡◌, ◌+◌, ◌-◌, ◌*◌, ◌/◌, length};
ghost use Rattle.std.specs.Option.{option_copied};
ghost use Rattle.bits.specs.Bits.{boundary, equal_bytes, part_at, Within};
ghost use Rattle.bits.specs.Runs.{ReaderInBounds, position_of};

use crate::position::{BytePosition, bit_of};
use crate::reader::{Read, Reader};

impl Reader {
    // To the next byte boundary, and on past the bytes that equal v; how many these are.
    pub fn skip_bytes(self, s: &[u8], v: u8) -> Read<usize>
        requires { ReaderInBounds s.now self }
        ensures count_value { result.value ≡ equal_bytes s.now v (boundary (position_of self)) (length s.now - boundary (position_of self)) }
        ensures reader_value { position_of result.reader ≡ (boundary (position_of self) + result.value) * 8 }
        ensures reader_in_bounds { ReaderInBounds s.now result.reader }
    {
        let from = self.align().tell().value.0;
        // not `skip`, which goes over the bytes before
        let rest = &s[from.min(s.len())..];
        let count = rest.iter().take_while(|b| **b == v).count();
        Read {
            reader: Reader {
                at: bit_of(BytePosition(from + count)),
            },
            value: count,
        }
    }

    // The count bytes from the byte of the place on, if they lie inside.
    pub fn peek_bytes<'s>(self, s: &'s [u8], count: usize) -> Read<Option<&'s [u8]>>
        ensures part_value { (option_copied result.value ≡ part_at s.now (position_of self) count) × (result.reader ≡ self) }
        ensures within { Within (option_copied result.value) (position_of self / 8) (length s.now) }
    {
        let from = self.tell().value.0;
        let value = match s.get(from..) {
            Some(rest) if count <= rest.len() => Some(&rest[..count]),
            _ => None,
        };
        Read {
            reader: self,
            value,
        }
    }
}
