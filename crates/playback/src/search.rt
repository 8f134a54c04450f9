// RULES Q3, 8.2, 8.3: the searches for a start code.
ghost use Rattle.std.specs.Prelude.{◌≡◌, ◌≤◌, length};
ghost use Rattle.bits.specs.Bounds.{longest_stream, last_position};
ghost use Rattle.bits.specs.Programs.{eq_z};
ghost use Rattle.bits.specs.Runs.{ReaderInBounds, position_of};
ghost use Rattle.playback.specs.State.{position, with_search_result};
ghost use Rattle.playback.specs.Search as Search;

use crate::state::State;
use bits::reader::Reader;
use picture_state::types::Picture;

// Whether the start code that was found last is this one.
pub fn has_code(p: Picture, code: i32) -> bool
    ensures { result ≡ eq_z p.start_code code }
{
    p.start_code == code
}

// A search that ended here with a start code.
fn searched(mut d: State, reader: Reader, code: i32) -> State
    ensures { result ≡ with_search_result code (position_of reader) d }
{
    d.picture.start_code = code;
    d.position = reader.position();
    d
}

// RULES Q3, 8.2: the search for a start code, unless the state has it already.
pub fn next_code(s: &[u8], d: State, code: i32) -> State
    requires d_bound { position d ≤ last_position }
    requires s_len_bound { length s.now ≤ longest_stream }
    ensures { result ≡ Search.ensure_start_code code s.now d }
{
    if has_code(d.picture, code) {
        return d;
    }
    let found = Reader::from_position(d.position).find_start_code(s, code);
    searched(d, found.reader, found.value)
}

// RULES 8.3: a second picture start code is found ahead, or the bits end here.
pub fn is_followed(s: &[u8], reader: Reader) -> bool
    requires { ReaderInBounds s.now reader }
    ensures { result ≡ Search.is_followed s.now (position_of reader) }
{
    reader.has_start_code(s, 0).value != -1 || reader.has_ended(s).value
}
