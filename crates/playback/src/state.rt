// What hand-outs change of the record, by value. The left-over coefficients and the store are lent beside it, so that no picture copies them.
ghost use Rattle.std.specs.Prelude.{◌≡◌};
ghost use Rattle.playback.specs.State.{fresh_state, possible_display};

use bits::position::BitPosition;
use picture_state::fresh::fresh_picture;
use picture_state::types::Picture;

// RULES Q2: the most pictures that a record can have handed out.
const MOST_PICTURES: u32 = 134217728;

// RULES 8.12: rate, aspect, the next time and the time shown.
#[derive(Clone, Copy)]
pub struct Clock {
    pub framerate: f64,
    pub pixel_aspect_ratio: f64,
    pub time: f64,
    pub last_frame_time: f64,
}

// What is shown: the clock, whether a reference picture waits, and how many pictures have been handed out.
#[derive(Clone, Copy)]
pub struct Display {
    pub clock: Clock,
    pub has_reference_frame: bool,
    pub frames_decoded: u32,
}

#[derive(Clone, Copy)]
pub struct State {
    pub position: BitPosition,
    pub picture: Picture,
    pub display: Display,
}

// RULES Q2: is what is shown possible? The count of pictures handed out.
#[tactic(auto, unfolding(crate::specs::State::possible_display))]
pub fn possible_display(display: Display) -> bool
    ensures { result ≡ possible_display display }
{
    display.frames_decoded <= MOST_PICTURES
}

// RULES O.1: the state of the fresh record.
pub fn fresh_state() -> State
    ensures { result ≡ fresh_state }
{
    let clock = Clock {
        framerate: 0.0,
        pixel_aspect_ratio: 0.0,
        time: 0.0,
        last_frame_time: 0.0,
    };
    let display = Display {
        clock,
        has_reference_frame: false,
        frames_decoded: 0,
    };
    State {
        position: BitPosition(0),
        picture: fresh_picture(),
        display,
    }
}
