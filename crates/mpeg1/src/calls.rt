// The three calls. Stream, store and record lie in the host's memory. C passes each part of a record by itself, and takes a number for an answer.
ghost use Rattle.std.specs.Prelude.{◌≡◌, true};
ghost use Rattle.decoder.specs.Decode as Out;
ghost use Rattle.memory.specs.Memory.{memory, record_of, is_record};
ghost use Rattle.mpeg1.specs.Calls.{host_result, host_output, picture_numbers, RefinesDecode, without_clock, converts};
ghost use Rattle.mpeg1.specs.Calls.{HostOpens, HostDecodes, HostConverts};

use bits::position::LONGEST_STREAM;
use decoder::answers::{conversion_error_code, decode_error_code, opening_error_code};
use decoder::record::Decoder;
use memory::format::CLOCK;
use memory::reading::{has_room, is_record, record_of};
use memory::writing::save;
use playback::outcome::{Outcome, Shown};

// How many numbers are told of a picture.
pub const PICTURE_NUMBERS: usize = 1;

// They are its store.
fn picture_numbers(p: Shown) -> [usize; PICTURE_NUMBERS]
    ensures { result ≡ picture_numbers p }
{
    [p.store]
}

// RULES O: 0, or 1 to 6.
#[unsafe(no_mangle)]
pub extern "C" fn mpeg1_open(
    stream: &[u8],
    store: &mut [u8],
    numbers: &mut [usize],
    integers: &mut [i32],
    matrices: &mut [u8],
    clock: &mut [f64],
) -> u32
    ensures { HostOpens stream.now store.old
        (memory numbers.old integers.old matrices.old clock.old)
        (host_result result store.new (memory numbers.new integers.new matrices.new clock.new)) }
{
    if !has_room(numbers, integers, matrices, clock) {
        return 2;
    }
    let opened = Decoder::open(stream, store);
    save(opened.decoder, numbers, integers, matrices, clock);
    opening_error_code(opened.answer)
}

// RULES 8: the hand-out of the record that the memory holds. A record that stays as it is (RULES Q2, Q6, QA) is written back, which changes nothing
// (`written_back` of `memory`).
fn decode_record(
    stream: &[u8],
    store: &mut [u8],
    numbers: &mut [usize],
    integers: &mut [i32],
    matrices: &mut [u8],
    clock: &mut [f64],
) -> Outcome
    requires { is_record (memory numbers.old integers.old matrices.old clock.old) ≡ true }
    ensures { RefinesDecode result store.new (memory numbers.new integers.new matrices.new clock.new)
        (Out.decode (record_of (memory numbers.old integers.old matrices.old clock.old))
        stream.now store.old)
        (memory numbers.old integers.old matrices.old clock.old) }
{
    let decoded = record_of(numbers, integers, matrices, clock).decode(stream, store);
    save(decoded.decoder, numbers, integers, matrices, clock);
    decoded.outcome
}

// RULES 8: 0 with the picture's numbers and time, or 1 to 9.
#[unsafe(no_mangle)]
#[tactic(auto, using(crate::proofs::Answers::decodes_short))]
pub extern "C" fn mpeg1_decode(
    stream: &[u8],
    store: &mut [u8],
    numbers: &mut [usize],
    integers: &mut [i32],
    matrices: &mut [u8],
    clock: &mut [f64],
    picture: &mut [usize],
    time: &mut f64,
) -> u32
    ensures { HostDecodes stream.now store.old
        (memory numbers.old integers.old matrices.old clock.old) picture.old time.old
        (host_output (host_result result store.new (memory numbers.new integers.new matrices.new clock.new))
        picture.new time.new) }
{
    if LONGEST_STREAM < stream.len() {
        return 1;
    }
    if picture.len() < PICTURE_NUMBERS {
        return 2;
    }
    if !is_record(numbers, integers, matrices, clock) {
        return 2;
    }
    let outcome = decode_record(stream, store, numbers, integers, matrices, clock);
    let Outcome::Picture(p) = outcome else {
        return decode_error_code(outcome);
    };
    picture[..PICTURE_NUMBERS].copy_from_slice(&picture_numbers(p));
    *time = p.time;
    0
}

// RULES 9: 0, or 2, 6, 10, 11.
#[unsafe(no_mangle)]
pub extern "C" fn mpeg1_write_rgb_scaled(
    store: &[u8],
    numbers: &[usize],
    integers: &[i32],
    matrices: &[u8],
    index: usize,
    area: &mut [u32],
    width: usize,
    height: usize,
) -> u32
    ensures { HostConverts store.now (without_clock numbers.now integers.now matrices.now)
        index area.old width height (converts result area.new) }
{
    let still = [0.0f64; CLOCK];
    if !is_record(numbers, integers, matrices, &still) {
        return 2;
    }
    let d = record_of(numbers, integers, matrices, &still);
    conversion_error_code(d.write_rgb_scaled(store, index, area, width, height))
}
