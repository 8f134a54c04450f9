// RULES Q3 to Q6: the questions on the sequence header, and its acceptance.
ghost use Rattle.std.specs.Prelude.{◌≡◌, ◌≤◌, ◌<◌, length};
ghost use Rattle.decoder.specs.Headers as Headers;
ghost use Rattle.decoder.specs.Fit.{Fit};
ghost use Rattle.decoder.specs.Checking.{refusal_number, check_result, RefinesCheckStore};
ghost use Rattle.bits.specs.Bounds.{longest_stream};
ghost use Rattle.bits.specs.Runs.{position_of};

use crate::record::{Decoder, store_bytes};
use bits::reader::{Read, Reader};
use header::possible::sizes_of;
use header::sequences::{Rest, aspect_of, rate_of, read_rest, read_size};
use picture_state::types::Stores;
use playback::search::{has_code, next_code};

// RULES Q3 to Q6: the first "no".
#[derive(Clone, Copy, Debug, PartialEq, Eq)]
pub enum HeaderRefusal {
    NoSequence,
    CutHeader,
    EmptySize,
    SmallStore,
}

impl HeaderRefusal {
    pub fn number(self) -> u32
        ensures { result ≡ refusal_number self }
    {
        match self {
            HeaderRefusal::NoSequence => 3,
            HeaderRefusal::CutHeader => 4,
            HeaderRefusal::EmptySize => 5,
            HeaderRefusal::SmallStore => 6,
        }
    }
}

// With no refusal the call goes on.
#[derive(Clone, Copy)]
pub struct CheckResult {
    pub decoder: Decoder,
    pub refusal: Option<HeaderRefusal>,
}

// RULES Q3, Q4: the sequence start code is searched, unless the record has it already.
fn find_sequence(s: &[u8], mut d: Decoder) -> Decoder
    requires fit { Fit d }
    requires s_len_bound { length s.now ≤ longest_stream }
    ensures { result ≡ Headers.find_sequence s.now d }
{
    d.state = next_code(s, d.state, 0xb3);
    d
}

// RULES O.3, O.4: what accepting a header sets.
fn accepted(rest: Read<Rest>, mut d: Decoder) -> Decoder
    requires fit { Fit d }
    requires picture_rate_bound { rest.value.picture_rate < 16 }
    ensures { result ≡ Headers.accepted (record { value = rest.value; at = position_of rest.reader }) d }
{
    d.sequence.has_sequence_header = true;
    d.sequence.sizes = sizes_of(d.sequence.width, d.sequence.height);
    d.sequence.matrices = rest.value.matrices;
    d.state.display.clock.framerate = rate_of(rest.value.picture_rate);
    d.state.display.clock.pixel_aspect_ratio = aspect_of(rest.value.pel_aspect_ratio);
    d.state.picture.stores = Stores {
        cur: 0,
        fwd: 1,
        bwd: 2,
    };
    d.state.position = rest.reader.position();
    d
}

// RULES Q5: width and height, and with both above 0 the rest of the header.
fn check_size(s: &[u8], mut d: Decoder) -> CheckResult
    requires fit { Fit d }
    requires s_len_bound { length s.now ≤ longest_stream }
    ensures decoder_value { check_result result.refusal result.decoder ≡ Headers.check_size s.now d }
    ensures fit_2 { Fit result.decoder }
{
    let size = read_size(s, Reader::from_position(d.state.position));
    d.state.position = size.reader.position();
    d.sequence.width = size.value.width;
    d.sequence.height = size.value.height;
    if (size.value.width == 0) | (size.value.height == 0) {
        return CheckResult {
            decoder: d,
            refusal: Some(HeaderRefusal::EmptySize),
        };
    }
    let rest = read_rest(s, size.reader);
    CheckResult {
        decoder: accepted(rest, d),
        refusal: None,
    }
}

// RULES Q3, Q4, Q5. 1,088 bits are the longest header, behind its start code.
pub fn check_header(s: &[u8], before: Decoder) -> CheckResult
    requires fit { Fit before }
    requires s_len_bound { length s.now ≤ longest_stream }
    ensures decoder_value { check_result result.refusal result.decoder ≡ Headers.check_header s.now before }
    ensures fit_2 { Fit result.decoder }
{
    let d = find_sequence(s, before);
    if has_code(d.state.picture, -1) {
        return CheckResult {
            decoder: d,
            refusal: Some(HeaderRefusal::NoSequence),
        };
    }
    if !Reader::from_position(d.state.position).has(s, 1088).value {
        return CheckResult {
            decoder: d,
            refusal: Some(HeaderRefusal::CutHeader),
        };
    }
    check_size(s, d)
}

// RULES Q6: is there room for the three stores? Where not, d, the record passed in, is left as it was.
pub fn check_store(d: Decoder, room: usize, before: CheckResult) -> CheckResult
    requires { Fit before.decoder }
    ensures { RefinesCheckStore d room before result }
{
    if before.refusal.is_some() {
        return before;
    }
    if store_bytes(before.decoder) <= room {
        return before;
    }
    CheckResult {
        decoder: d,
        refusal: Some(HeaderRefusal::SmallStore),
    }
}
