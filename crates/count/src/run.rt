// How many pictures a stream hands out. The record is passed by value: it crosses no memory of the host.
ghost use Rattle.std.specs.Prelude.{◌≡◌};
ghost use Rattle.count.specs.Count.{counts, counts_in};

use decoder::answers::{Opening, decode_error_code, opening_error_code};
use decoder::record::Decoder;
use playback::outcome::Outcome;

// The number that C is given, and how many pictures were handed out before it.
#[derive(Clone, Copy)]
struct Count {
    answer: u32,
    pictures: usize,
}

// RULES R.1: a stream that is accepted has at most 4,628,198 pictures.
fn decode_all(stream: &[u8], store: &mut [u8]) -> Count
    ensures { counts result.answer result.pictures store.new ≡ counts_in stream.now store.old }
{
    let opened = Decoder::open(stream, store);
    let opening = opened.answer;
    let Opening::Ready = opening else {
        let answer = opening_error_code(opening);
        return Count {
            answer,
            pictures: 0,
        };
    };
    let mut decoder = opened.decoder;
    let mut pictures: usize = 0;
    loop {
        let call = decoder.decode(stream, store);
        decoder = call.decoder;
        let outcome = call.outcome;
        let Outcome::Picture(_) = outcome else {
            let answer = decode_error_code(outcome);
            return Count { answer, pictures };
        };
        pictures += 1;
    }
}

// RULES R: opening and the hand-outs up to the first number, which is the answer: 1 or 3 to 6 from opening, 7 where all pictures were handed out, or
// 8 or 9. `pictures`: how many were handed out.
#[unsafe(no_mangle)]
pub extern "C" fn mpeg1_count(stream: &[u8], store: &mut [u8], pictures: &mut usize) -> u32
    ensures { counts result pictures.new store.new ≡ counts_in stream.now store.old }
{
    let count = decode_all(stream, store);
    *pictures = count.pictures;
    count.answer
}
