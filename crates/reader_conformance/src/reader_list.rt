// The list reader.bin: operations of the bit reader, one after the other, on many streams.
//
// A case is the operation's number (a byte), its argument, the Rust's answer and the place after it in bits (three numbers). Behind a new stream
// stand its bytes, as many as the argument says; behind a peek the bytes that it gave, one less than the answer.
ghost use Rattle.std.specs.Prelude.{◌≡◌, ◌+◌, ◌≤◌, length, IfOk};
ghost use Rattle.reader_conformance.specs.ReaderList.{bytes_after, agree, bytes_agree, next_byte_agrees, next_case, cut_off, CursorInList, next_case_result};
ghost use Rattle.reader_conformance.specs.ReaderList.{scored};
ghost use Rattle.reader_conformance.specs.ScoreOfSomeList.{ScoreOfSomeList};
ghost use Rattle.bits.specs.Bounds.{longest_stream};
ghost use Rattle.bits.specs.Runs.{position_of};

use crate::reader_operations::{Operation, operate, operation_of};
use answer_lists::bytes::same;
use answer_lists::load::{load, space};
use answer_lists::numbers::number_at;
use answer_lists::tally::Tally;
use bits::position::LONGEST_STREAM;
use bits::reader::{Read, Reader};
use std::io::Result;
use std::rt::Files;

// How far a list is taken: the next case stands at `at`, the present stream from `from` up to `to`, and our reader is in it.
#[derive(Clone, Copy)]
pub struct CaseCursor {
    pub at: usize,
    pub from: usize,
    pub to: usize,
    pub reader: Reader,
}

#[derive(Clone, Copy)]
pub struct CaseResult {
    pub along: CaseCursor,
    pub agrees: bool,
}

// How many bytes stand behind a case: a new stream, or what a peek gave.
fn bytes_after(op: Operation, argument: u32, answer: u32) -> usize
    ensures { result ≡ bytes_after op argument answer }
{
    match op {
        Operation::New => argument as usize,
        Operation::PeekBytes => answer.saturating_sub(1) as usize,
        _ => 0,
    }
}

// Whether ours gave the Rust's answer, and ended at its place.
fn agrees(ours: Read<Option<u32>>, answer: u32, position: u32) -> bool
    ensures { result ≡ agree ours answer position }
{
    let at = ours.reader.position().0;
    (ours.value == Some(answer)) & (at == position as usize)
}

// Whether a peek gave the bytes that stand behind its case.
fn bytes_agree(op: Operation, bytes: &[u8], s: &[u8], reader: Reader, argument: u32) -> bool
    ensures { result ≡ bytes_agree op bytes.now s.now (position_of reader) argument }
{
    match op {
        Operation::PeekBytes => {
            let peeked = reader.peek_bytes(s, argument as usize).value;
            same(bytes, peeked.unwrap_or(&[]))
        }
        _ => true,
    }
}

// Whether has_eight and next_eight give what the Rust gave at the same place: that the two bytes are there beside its peek of 2, and the bits beside its
// read of 8.
fn eight_agrees(op: Operation, argument: u32, answer: u32, s: &[u8], reader: Reader) -> bool
    ensures { result ≡ next_byte_agrees op argument answer s.now (position_of reader) }
{
    let there = reader.has_eight(s);
    match op {
        Operation::PeekBytes if argument == 2 => answer == if there { 3 } else { 0 },
        Operation::Read if there && argument == 8 => reader.next_eight(s) == answer,
        _ => true,
    }
}

// On to the next case: a new stream stands from start up to end, behind its own.
fn next(along: CaseCursor, op: Operation, start: usize, end: usize, reader: Reader) -> CaseCursor
    ensures { result ≡ next_case along op start end reader }
{
    match op {
        Operation::New => CaseCursor {
            at: end,
            from: start,
            to: end,
            reader,
        },
        _ => CaseCursor {
            at: end,
            reader,
            ..along
        },
    }
}

// A case that is cut off does not agree, and neither does any behind it.
fn cut(list: &[u8], along: CaseCursor) -> CaseResult
    ensures { result ≡ cut_off list.now along }
{
    CaseResult {
        along: CaseCursor {
            at: list.len(),
            ..along
        },
        agrees: false,
    }
}

// The next case.
fn take_case(list: &[u8], along: CaseCursor) -> CaseResult
    requires { (length list.now ≤ longest_stream) × CursorInList list.now along }
    ensures value { result ≡ next_case_result list.now along }
    ensures cursor_in_list { CursorInList list.now result.along }
{
    let at = along.at;
    if list.len() - at < 13 {
        return cut(list, along);
    }
    let op = operation_of(list[at]);
    let argument = number_at(list, at + 1);
    let answer = number_at(list, at + 5);
    let position = number_at(list, at + 9);
    let start = at + 13;
    let more = bytes_after(op, argument, answer);
    if list.len() - start < more {
        return cut(list, along);
    }
    let end = start + more;
    let reader = along.reader;
    let stream = &list[along.from..along.to];
    let ours = operate(stream, reader, op, argument);
    let same = bytes_agree(op, &list[start..end], stream, reader, argument);
    let eight = eight_agrees(op, argument, answer, stream, reader);
    CaseResult {
        along: next(along, op, start, end, ours.reader),
        agrees: agrees(ours, answer, position) & same & eight,
    }
}

// The whole list. Bytes that are left over count as one case that does not agree, and so does a list that has no number of cases.
pub fn score(list: &[u8]) -> Tally
    ensures { result ≡ scored list.now }
{
    let none = Tally::new();
    if list.len() < 4 {
        return none.counted(false);
    }
    if LONGEST_STREAM < list.len() {
        return none.counted(false);
    }
    let cases = number_at(list, 0);
    if list.len() < cases as usize {
        return Tally {
            cases,
            agreed: 0,
            first: Some(1),
        };
    }
    let mut along = CaseCursor {
        at: 4,
        from: 4,
        to: 4,
        reader: Reader::new(),
    };
    let mut tally = none;
    for _ in 0..cases {
        let case = take_case(list, along);
        along = case.along;
        tally = tally.counted(case.agrees);
    }
    if along.at < list.len() {
        return tally.counted(false);
    }
    tally
}

// The list that reader.bin holds; an error of its read, or of the line on standard error that says where it is not there.
pub fn replay<R: Files + Eprint>(rt: &R) -> Result<Tally>
    ensures { IfOk result (λ tally. ScoreOfSomeList scored tally) }
{
    let mut room = space();
    let count = load(rt, b"reader.bin", &mut room)?;
    Ok(score(&room[..count]))
}
