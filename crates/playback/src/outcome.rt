// What a turn and a hand-out give: a picture, or a refusal with its number (RULES Q).
ghost use Rattle.std.specs.Prelude.{◌≡◌};
ghost use Rattle.playback.specs.State as Rules;

use crate::state::State;
use picture_state::types::StopMark;

// What is told of a picture that is handed out: the number of its store, and the time shown with it.
#[derive(Clone, Copy)]
pub struct Shown {
    pub store: usize,
    pub time: f64,
}

// Of the picture in the store number k, with the state as the call leaves it.
pub fn shown_picture(d: State, k: usize) -> Shown
    ensures { result ≡ Rules.shown_picture k d }
{
    let time = d.display.clock.last_frame_time;
    Shown { store: k, time }
}

// A picture with store and time, or a refusal with its number (RULES F.12), which callers and C are given as it is (C.3).
#[derive(Clone, Copy)]
pub enum Outcome {
    Picture(Shown),
    Refused(u32),
}

// How a turn ends: another follows, and nothing was handed out; or the call ends with an outcome, or early (RULES Q8, Q9).
#[derive(Clone, Copy)]
pub enum StepEnd {
    Continues,
    Finished(Outcome),
    Aborted(StopMark),
}

// Where a turn is aborted the state is of no use (RULES 8.14).
#[derive(Clone, Copy)]
pub struct StepResult {
    pub state: State,
    pub end: StepEnd,
}
