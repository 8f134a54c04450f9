// Start codes: 00 00 01 and the code. What is found is the byte behind 00 00 01, or -1 and no Option: the record keeps it as -1..255 (RULES Q2),
// and what is found is stored there, or compared with what was sought, which may be any number.
ghost use Rattle.std.specs.Prelude.{◌≡◌, ◌+◌, ◌≤◌, length, nat_abs};
ghost use Rattle.bits.specs.Bits.{code_prefix};
ghost use Rattle.bits.specs.Programs.{next_start_code, find_start_code, run};
ghost use Rattle.bits.specs.Runs.{ReaderInBounds, RunsInBounds, position_of};

use crate::position::{BytePosition, bit_of};
use crate::reader::{Read, Reader};

// RULES 1.9: whether 00 00 01, with which a start code begins, stands at the byte b.
fn has_prefix(s: &[u8], b: usize) -> bool
    requires { b + 3 ≤ length s.now }
    ensures { result ≡ code_prefix s.now b }
{
    s[b] == 0 && s[b + 1] == 0 && s[b + 2] == 1
}

impl Reader {
    // To behind the next start code.
    pub fn next_start_code(self, s: &[u8]) -> Read<i32>
        requires { ReaderInBounds s.now self }
        ensures runs_in_bounds { RunsInBounds next_start_code s.now self result.value result.reader }
        ensures code_bound { nat_abs result.value ≤ 255 }
    {
        let from = self.align().tell().value.0;
        let end = s.len().saturating_sub(4);
        for b in from..end {
            if has_prefix(s, b) {
                return Read {
                    reader: Reader {
                        at: bit_of(BytePosition(b + 4)),
                    },
                    value: i32::from(s[b + 3]),
                };
            }
        }
        Read {
            reader: Reader {
                at: bit_of(BytePosition(from.max(end))),
            },
            value: -1,
        }
    }

    // To behind the next start code that is `code`; where there is none, to the end.
    pub fn find_start_code(self, s: &[u8], code: i32) -> Read<i32>
        requires { ReaderInBounds s.now self }
        ensures runs_in_bounds { RunsInBounds (find_start_code code) s.now self result.value result.reader }
        ensures code_bound { nat_abs result.value ≤ 255 }
    {
        let mut reader = self;
        loop {
            let found = reader.next_start_code(s);
            let current = found.value;
            if current == code {
                return found;
            }
            if current == -1 {
                return found;
            }
            reader = found.reader;
        }
    }

    // Whether the start code `code` lies ahead: the code, or -1, with no advance.
    pub fn has_start_code(self, s: &[u8], code: i32) -> Read<i32>
        requires { ReaderInBounds s.now self }
        ensures code_value { (result.value ≡ (run (find_start_code code) s.now (position_of self)).value) × (result.reader ≡ self) }
        ensures code_bound { nat_abs result.value ≤ 255 }
    {
        let found = self.find_start_code(s, code);
        Read {
            reader: self,
            value: found.value,
        }
    }
}
