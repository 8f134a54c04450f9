// The operations of the reader, as the list reader.bin names them, and ours for each.
ghost use Rattle.std.specs.Prelude.{◌≡◌, ◌≤◌, length, Some};
ghost use Rattle.std.specs.Option.{option_copied};
ghost use Rattle.std.specs.Int.{w32};
ghost use Rattle.std.proofs.Common.{of_z};
ghost use Rattle.bits.specs.Bounds.{longest_stream};
ghost use Rattle.bits.specs.Bits.{bytes_of};
ghost use Rattle.bits.specs.Runs.{ReaderInBounds, position_of};
ghost use Rattle.reader_conformance.specs.Operations.{operation_of, gives, flag, peek, outcome};

use bits::position::{BytePosition, LONGEST_STREAM};
use bits::reader::{Read, Reader};

#[derive(Clone, Copy, PartialEq, Eq, Debug)]
pub enum Operation {
    New,
    Read,
    ReadBit,
    Has,
    HasEnded,
    Skip,
    Align,
    Tell,
    Seek,
    SkipBytes,
    NextStartCode,
    FindStartCode,
    HasStartCode,
    PeekNonZero,
    PeekBytes,
    Unknown,
}

// The operations in the order of their numbers in the list.
const OPERATIONS: [Operation; 15] = [
    Operation::New,
    Operation::Read,
    Operation::ReadBit,
    Operation::Has,
    Operation::HasEnded,
    Operation::Skip,
    Operation::Align,
    Operation::Tell,
    Operation::Seek,
    Operation::SkipBytes,
    Operation::NextStartCode,
    Operation::FindStartCode,
    Operation::HasStartCode,
    Operation::PeekNonZero,
    Operation::PeekBytes,
];

// The operation that the list holds as a number.
#[tactic(auto, unfolding(crate::specs::Operations::operation_of))]
pub fn operation_of(number: u8) -> Operation
    ensures { result ≡ operation_of number }
{
    OPERATIONS
        .get(usize::from(number))
        .copied()
        .unwrap_or(Operation::Unknown)
}

// An answer, and the reader after it.
fn given(reader: Reader, answer: u32) -> Read<Option<u32>>
    ensures { result ≡ gives answer (position_of reader) }
{
    Read {
        reader,
        value: Some(answer),
    }
}

// A start code, or -1.
fn coded(code: i32) -> Option<u32>
    ensures { result ≡ Some (of_z w32 code) }
{
    Some(code.cast_unsigned())
}

// A yes or a no.
fn flagged(answer: bool) -> Option<u32>
    ensures { result ≡ Some (flag answer) }
{
    Some(u32::from(answer))
}

// One more than the bytes that a peek gives; 0 where they are absent.
fn peeked(bytes: Option<&[u8]>) -> Option<u32>
    requires { length (bytes_of (option_copied bytes)) ≤ longest_stream }
    ensures { result ≡ Some (peek (option_copied bytes.entry)) }
{
    match bytes {
        Some(bytes) => Some(bytes.len() as u32 + 1),
        None => Some(0),
    }
}

// Ours, on the stream s: its answer as the list holds it, and the reader after it. There is none where the list names no operation, or an argument that
// the operation does not take. A `match`, since each arm takes and gives something else.
#[tactic(auto, unfolding(crate::specs::Operations::outcome))]
pub fn operate(s: &[u8], reader: Reader, op: Operation, argument: u32) -> Read<Option<u32>>
    requires { ReaderInBounds s.now reader }
    ensures value { result ≡ outcome op argument s.now (position_of reader) }
    ensures reader_in_bounds { ReaderInBounds s.now result.reader }
{
    let count = argument as usize;
    match op {
        Operation::New => given(Reader::new(), 0),
        Operation::Read => reader.read(s, count).map(Some),
        Operation::ReadBit => reader.read_bit(s).map(Some),
        Operation::Has => reader.has(s, count).map(flagged),
        Operation::HasEnded => reader.has_ended(s).map(flagged),
        Operation::Skip => given(reader.skip(s, count), 0),
        Operation::Align => given(reader.align(), 0),
        Operation::Tell => reader.tell().map(|at| u32::try_from(at.0).ok()),
        Operation::Seek => {
            if LONGEST_STREAM < count {
                return Read {
                    reader,
                    value: None,
                };
            }
            given(reader.seek(BytePosition(count)), 0)
        }
        Operation::SkipBytes => match u8::try_from(argument) {
            Ok(value) => reader
                .skip_bytes(s, value)
                .map(|passed| u32::try_from(passed).ok()),
            Err(_) => Read {
                reader,
                value: None,
            },
        },
        Operation::NextStartCode => reader.next_start_code(s).map(coded),
        Operation::FindStartCode => reader.find_start_code(s, argument.cast_signed()).map(coded),
        Operation::HasStartCode => reader.has_start_code(s, argument.cast_signed()).map(coded),
        Operation::PeekNonZero => reader.peek_non_zero(s, count).map(flagged),
        Operation::PeekBytes => reader.peek_bytes(s, count).map(peeked),
        Operation::Unknown => Read {
            reader,
            value: None,
        },
    }
}
