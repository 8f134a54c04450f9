// RULES Q2: is a record possible? The tests of its parts are joined by `&` and `|`: none of them needs another to be asked first.
// A conversion and a hand-out ask it by a function each, with a body each: called from one place only, it is joined into its caller, which then
// copies no record for it. The coefficients are copied and the copy is lent: with `&d.block_data` more is copied, and a hand-out of a picture of
// 1 x 1 pixels takes 598 ns in place of 550.
ghost use Rattle.std.specs.Prelude.{◌≡◌, ◌&&◌, leb};
ghost use Rattle.decoder.specs.Possible.{possible_stop, possible, possible_with};
ghost use Rattle.bits.specs.Bounds.{last_position};

use crate::record::Decoder;
use bits::position::LAST_POSITION;
use codes::matrices::bounded;
use header::possible::possible_sequence;
use picture_state::limits::possible_picture;
use playback::state::possible_display;

// Position, stop mark.
fn possible_numbers(at: usize, stop: u32) -> bool
    ensures { result ≡ (leb at last_position && possible_stop stop) }
{
    (at <= LAST_POSITION) & matches!(stop, 0 | 8 | 9)
}

pub fn possible(d: Decoder) -> bool
    ensures { result ≡ possible d }
{
    let values = d.block_data;
    let left = bounded(&values);
    possible_numbers(d.state.position.0, d.stop)
        & possible_display(d.state.display)
        & possible_sequence(d.sequence)
        & possible_picture(d.state.picture)
        & left
}

// As a hand-out asks it, which has a stream.
pub fn possible_with(s: &[u8], d: Decoder) -> bool
    ensures { result ≡ possible_with s.now d }
{
    let values = d.block_data;
    let left = bounded(&values);
    possible_numbers(d.state.position.0, d.stop)
        & possible_display(d.state.display)
        & possible_sequence(d.sequence)
        & possible_picture(d.state.picture)
        & left
}
