// Texts of a file: a number, and as many bytes behind it.
ghost use Rattle.std.specs.Prelude.{◌≡◌};
ghost use Rattle.conformance.specs.Cases.{text_at, after_text};

use answer_lists::bytes::part;
use answer_lists::numbers::number_at;

pub fn text_at(list: &[u8], at: usize) -> &[u8]
    ensures { result.now ≡ text_at list.now at }
{
    if list.len() <= at {
        return part(list, at, 0);
    }
    part(list, at + 4, number_at(list, at) as usize)
}

// The place behind a text.
pub fn after_text(list: &[u8], at: usize) -> usize
    ensures { result ≡ after_text list.now at }
{
    if at < list.len() {
        return at + 4 + number_at(list, at) as usize;
    }
    at
}
