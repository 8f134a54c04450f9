// RULES 8.2 to 8.8: one turn of the loop in `decode`: the search, the picture, and what is handed out.
ghost use Rattle.std.specs.Prelude.{◌≡◌, ◌≤◌, length};
ghost use Rattle.bits.specs.Bounds.{longest_stream};
ghost use Rattle.prediction.specs.Planes.{stores_bytes};
ghost use Rattle.playback.specs.Fit.{FitState};
ghost use Rattle.playback.specs.Steps as Steps;
ghost use Rattle.playback.specs.StepResults.{end_of, step_of};

use crate::display::{finished, flushed, shown};
use crate::outcome::{Outcome, StepEnd, StepResult};
use crate::search::{has_code, is_followed, next_code};
use crate::state::State;
use bits::reader::Reader;
use picture::whole::read_picture;
use picture_state::types::{Matrices, Sizes};

// RULES Q8, Q9, 8.5: the picture at the state's place.
fn decoded(
    s: &[u8],
    store: &mut [u8],
    values: &mut [i32; 64],
    sizes: Sizes,
    matrices: &Matrices,
    mut d: State,
) -> StepResult
    requires fit_state { FitState sizes d values.old }
    requires s_len_bound { length s.now ≤ longest_stream }
    requires mb_size_in_bounds { stores_bytes sizes.mb_size ≤ length store.old }
    ensures { step_of result values.new store.new
        ≡ Steps.decoded s.now sizes matrices.now
        (Steps.decoding_state d values.old store.old) }
{
    let reader = Reader::from_position(d.position);
    let p = read_picture(s, reader, store, values, sizes, matrices, d.picture);
    d.picture = p.picture;
    d.position = p.reader.position();
    if let Some(mark) = p.stop {
        return StepResult {
            state: d,
            end: StepEnd::Aborted(mark),
        };
    }
    shown(d)
}

// RULES 8.2 to 8.8: a turn.
fn picture_step(
    s: &[u8],
    store: &mut [u8],
    values: &mut [i32; 64],
    sizes: Sizes,
    matrices: &Matrices,
    before: State,
) -> StepResult
    requires fit_state { FitState sizes before values.old }
    requires s_len_bound { length s.now ≤ longest_stream }
    requires mb_size_in_bounds { stores_bytes sizes.mb_size ≤ length store.old }
    ensures { step_of result values.new store.new
        ≡ Steps.picture_step s.now sizes matrices.now
        (Steps.decoding_state before values.old store.old) }
{
    let d = next_code(s, before, 0);
    if has_code(d.picture, -1) {
        return flushed(s, d);
    }
    if !is_followed(s, Reader::from_position(d.position)) {
        return finished(d, Outcome::Refused(7));
    }
    decoded(s, store, values, sizes, matrices, d)
}

// RULES 8.7: at most two turns.
pub fn pictures(
    s: &[u8],
    store: &mut [u8],
    values: &mut [i32; 64],
    sizes: Sizes,
    matrices: &Matrices,
    d: State,
) -> StepResult
    requires fit_state { FitState sizes d values.old }
    requires s_len_bound { length s.now ≤ longest_stream }
    requires mb_size_in_bounds { stores_bytes sizes.mb_size ≤ length store.old }
    ensures { end_of result.end result.state values.new store.new
        ≡ Steps.pictures s.now sizes matrices.now
        (Steps.decoding_state d values.old store.old) }
{
    let t = picture_step(s, store, values, sizes, matrices, d);
    if let StepEnd::Continues = t.end {
        return picture_step(s, store, values, sizes, matrices, t.state);
    }
    t
}
