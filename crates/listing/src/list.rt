// The text of the listing.
ghost use Rattle.std.specs.Prelude.{◌≤◌, length};
ghost use Rattle.io.specs.Counts.{IsPrefixLen};
ghost use Rattle.decoder.specs.Listing.{listing};
ghost use Rattle.listing.specs.Text.{Opens, lines_text, listing_text, Wrote};

use crate::text::{write_bytes, write_line};
use decoder::answers::{Opening, decode_error_code, opening_error_code};
use decoder::record::Decoder;
use playback::outcome::Outcome;

// RULES L.2, L.3: from a stream that was opened, a line for each picture, and one for the number that ends the calls. The place behind them. RULES R.1: a
// stream of 65,536 bytes has at most 18,079 pictures, and a line at most 84 bytes.
fn list_pictures(
    stream: &[u8],
    store: &mut [u8],
    opened: Decoder,
    page: &mut [u8],
    first: usize,
) -> usize
    requires stream_len_bound { (length stream.now ≤ 65536) × Opens stream.now opened store.old }
    requires first_bound { (first ≤ 25) × (1572864 ≤ length page.old) }
    ensures wrote { Wrote page.old first (lines_text (listing stream.now)) page.new result }
    ensures upper_bound { result ≤ 1572864 }
{
    let mut decoder = opened;
    let mut at = first;
    let mut handed: u64 = 0;
    loop {
        let call = decoder.decode(stream, store);
        decoder = call.decoder;
        let outcome = call.outcome;
        let Outcome::Picture(shown) = outcome else {
            let answer = u64::from(decode_error_code(outcome));
            return write_line(page, at, handed, 0, 0, answer);
        };
        handed += 1;
        let kind = u64::from(decoder.state.picture.picture_type);
        at = write_line(page, at, handed, shown.store as u64, kind, 0);
    }
}

// RULES L.1, L.3: the lines of a stream, over room for the three stores of 48 macroblocks; of one that is too long, or that opening refuses, a single one.
fn list_lines(stream: &[u8], page: &mut [u8], at: usize) -> usize
    requires { (at ≤ 25) × (1572864 ≤ length page.old) }
    ensures wrote { Wrote page.old at (lines_text (listing stream.now)) page.new result }
    ensures upper_bound { result ≤ 1572864 }
{
    if 65536 < stream.len() {
        return write_line(page, at, 0, 0, 0, 1);
    }
    // on the stack, as the program asks for no other memory
    let mut store = [0u8; 55296];
    let opened = Decoder::open(stream, &mut store);
    let opening = opened.answer;
    let Opening::Ready = opening else {
        let answer = u64::from(opening_error_code(opening));
        return write_line(page, at, 0, 0, 0, answer);
    };
    list_pictures(stream, &mut store, opened.decoder, page, at)
}

// Writes the listing of a stream to the beginning of a page, the rest of which stays, and answers how many bytes it has.
pub fn list(stream: &[u8], page: &mut [u8]) -> usize
    requires { 1572864 ≤ length page.old }
    ensures wrote { Wrote page.old 0 (listing_text stream.now) page.new result }
    ensures prefix_len { IsPrefixLen result page.new }
{
    let at = write_bytes(page, 0, b"handed store type answer\n");
    list_lines(stream, page, at)
}
