// RULES 8.5, 8.8 to 8.11: what is handed out, and its time.
ghost use Rattle.std.specs.Prelude.{◌≡◌, true, ◌≤◌, length};
ghost use Rattle.laws.specs.Loops.{finish};
ghost use Rattle.bits.specs.Bounds.{longest_stream};
ghost use Rattle.playback.specs.State.{possible_display, has_reference_frame_as};
ghost use Rattle.playback.specs.Display as Rules;
ghost use Rattle.playback.specs.StepResults.{RefinesStep};

use crate::outcome::{Outcome, StepEnd, StepResult, shown_picture};
use crate::state::{Clock, State};
use bits::reader::Reader;

// RULES 8.9: the time of n pictures at a rate, rounded once.
#[tactic(auto, unfolding(crate::specs::Display::time_of))]
fn time_of(n: u32, rate: f64) -> f64
    ensures { result ≡ Rules.time_of n rate }
{
    n as f64 / rate
}

// RULES 8.10.
fn counted(mut d: State) -> State
    requires { possible_display d.display ≡ true }
    ensures { result ≡ Rules.counted d }
{
    let n = d.display.frames_decoded + 1;
    let clock = d.display.clock;
    let rate = clock.framerate;
    let time = time_of(n, rate);
    d.display.clock = Clock {
        time,
        last_frame_time: clock.time,
        ..clock
    };
    d.display.frames_decoded = n;
    d
}

// RULES 8.5, 8.8: a reference picture waits, or none does.
fn has_reference_frame_as(mut d: State, has_reference_frame: bool) -> State
    ensures { result ≡ has_reference_frame_as has_reference_frame d }
{
    d.display.has_reference_frame = has_reference_frame;
    d
}

pub fn finished(state: State, outcome: Outcome) -> StepResult
    ensures { RefinesStep result (finish (Rules.outcome_state outcome state)) }
{
    StepResult {
        state,
        end: StepEnd::Finished(outcome),
    }
}

// The store number k is handed out with the time that is then shown.
fn output_picture(d: State, k: usize) -> StepResult
    requires { possible_display d.display ≡ true }
    ensures { RefinesStep result (finish (Rules.output_picture k d)) }
{
    let x = counted(d);
    finished(x, Outcome::Picture(shown_picture(x, k)))
}

// RULES 8.5: after a picture, decoded or not.
pub fn shown(d: State) -> StepResult
    requires { possible_display d.display ≡ true }
    ensures { RefinesStep result (Rules.shown d) }
{
    let held = d.display.has_reference_frame;
    if d.picture.picture_type == 3 {
        return output_picture(d, d.picture.stores.cur);
    }
    if held {
        return output_picture(d, d.picture.stores.fwd);
    }
    StepResult {
        state: has_reference_frame_as(d, true),
        end: StepEnd::Continues,
    }
}

// RULES 8.8, 8.11: no picture is found: the held one is flushed, with the time shown before, or the answer is 7.
pub fn flushed(s: &[u8], d: State) -> StepResult
    requires { length s.now ≤ longest_stream }
    ensures { RefinesStep result (finish (Rules.flushed s.now d)) }
{
    let held = d.display.has_reference_frame;
    let picture_type = d.picture.picture_type;
    let ended = Reader::from_position(d.position).has_ended(s).value;
    // not `&&` and `matches!`: no plainer, and each of the two ways out is then reached by several branches
    if held & ended & ((picture_type == 1) | (picture_type == 2)) {
        let x = has_reference_frame_as(d, false);
        return finished(x, Outcome::Picture(shown_picture(x, x.picture.stores.bwd)));
    }
    finished(d, Outcome::Refused(7))
}
