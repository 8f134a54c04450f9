// RULES part 8, Q: the hand-out.
ghost use Rattle.std.specs.Prelude.{◌≡◌, false, List, ℕ, ◌≤◌, length};
ghost use Rattle.playback.specs.declared.outcome.Outcome.TheVariants as Outcomes;
ghost use Rattle.playback.specs.StepResults.{end_of};
ghost use Rattle.decoder.specs.Record as Record;
ghost use Rattle.decoder.specs.Fit.{Fit};
ghost use Rattle.decoder.specs.Decode as Out;
ghost use Rattle.decoder.specs.Calls.{Decodes};
ghost use Rattle.bits.specs.Bounds.{longest_stream};

use crate::answers::DecodeResult;
use crate::headers::{check_header, check_store};
use crate::possible::possible_with;
use crate::record::{Decoder, store_bytes};
use bits::position::LONGEST_STREAM;
use header::store::clear;
use playback::outcome::{Outcome, StepEnd, StepResult};
use playback::steps::pictures;

fn refused(decoder: Decoder, number: u32) -> DecodeResult
    ensures { (l : List ℕ) → Record.call_result result.outcome result.decoder l ≡ Record.call_result (Outcomes.Refused number) decoder l }
{
    DecodeResult {
        decoder,
        outcome: Outcome::Refused(number),
    }
}

// RULES 8.14: the record d behind the turns; 8 and 9 leave `before`, the one passed in, with the stop mark. A turn behind the two does not come up (8.7).
fn call_result_of(mut before: Decoder, d: Decoder, t: StepResult, left: [i32; 64]) -> DecodeResult
    ensures { (l : List ℕ) → Record.call_result result.outcome result.decoder l
        ≡ Out.call_result_of before d (end_of t.end t.state left l) }
{
    let outcome = match t.end {
        StepEnd::Continues => Outcome::Refused(7),
        StepEnd::Finished(outcome) => outcome,
        StepEnd::Aborted(mark) => {
            let stop = mark.number();
            before.stop = stop;
            return refused(before, stop);
        }
    };
    DecodeResult {
        decoder: Decoder {
            state: t.state,
            block_data: left,
            ..d
        },
        outcome,
    }
}

// RULES 8.1, O.4: the first hand-out of a record without a header. The questions 3 to 6, the store becomes 0, and the pictures.
fn with_header(s: &[u8], store: &mut [u8], before: Decoder) -> DecodeResult
    requires fit { Fit before }
    requires s_len_bound { length s.now ≤ longest_stream }
    requires has_sequence_header_value { before.sequence.has_sequence_header ≡ false }
    ensures { Record.call_result result.outcome result.decoder store.new
        ≡ Out.after_checks s.now before store.old (Out.check_header_and_store s.now before store.old) }
{
    let checked = check_store(before, store.len(), check_header(s, before));
    if let Some(refusal) = checked.refusal {
        return refused(checked.decoder, refusal.number());
    }
    // the pictures as in `decode`, and not by one function for both, which would be given copies of the record (DECISIONS decoder.6)
    let d = checked.decoder;
    clear(store, store_bytes(d));
    let mut values = d.block_data;
    let t = pictures(
        s,
        store,
        &mut values,
        d.sequence.sizes,
        &d.sequence.matrices,
        d.state,
    );
    call_result_of(before, d, t, values)
}

impl Decoder {
    // RULES Q, QA: the questions 1 and 2, the stop mark, the questions 3 to 6, and the pictures.
    pub fn decode(self, stream: &[u8], store: &mut [u8]) -> DecodeResult
        ensures { Decodes self stream.now store.old result store.new }
    {
        if LONGEST_STREAM < stream.len() {
            return refused(self, 1);
        }
        if !possible_with(stream, self) {
            return refused(self, 2);
        }
        let mark = self.stop;
        if mark != 0 {
            return refused(self, mark);
        }
        if !self.sequence.has_sequence_header {
            return with_header(stream, store, self);
        }
        if store.len() < store_bytes(self) {
            return refused(self, 6);
        }
        let mut values = self.block_data;
        let t = pictures(
            stream,
            store,
            &mut values,
            self.sequence.sizes,
            &self.sequence.matrices,
            self.state,
        );
        call_result_of(self, self, t, values)
    }
}
