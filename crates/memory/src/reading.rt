// The record read of memory.
ghost use Rattle.std.specs.Prelude.{◌≡◌, ◌+◌, ◌≤◌, length, true};
ghost use borrow.Rule.Slice.PartMut.{mid_of};
ghost use Rattle.memory.specs.Fields.{number, motion_in, sequence_in, picture_in, clock_in, number_count, integer_count, matrix_count, clock_count};
ghost use Rattle.memory.specs.Memory.{memory, record_of, in_range, has_room, is_record};

use crate::format::{BOUNDS, CLOCK, INTEGERS, MATRICES, NUMBERS};
use bits::position::BitPosition;
use decoder::record::Decoder;
use header::state::Sequence;
use picture_state::types::{Matrices, Motion, Picture, Sizes, Slice, Stores};
use playback::state::{Clock, Display, State};
use std::array;

// N elements of a part, from `at` on.
fn part_in<T: Copy, const N: usize>(part: &[T], at: usize) -> [T; N]
    requires { at + N ≤ length part.now }
    ensures { result ≡ mid_of at N part.now }
{
    array::from_fn(|k| part[at + k])
}

fn motion_in(numbers: &[usize], at: usize, integers: &[i32], from: usize) -> Motion
    requires { (at + 3 ≤ length numbers.now) × (number numbers.now (at + 2) ≤ 4294967295) × (from + 2 ≤ length integers.now) }
    ensures { result ≡ motion_in numbers.now at integers.now from }
{
    Motion {
        full_px: numbers[at] == 1,
        is_set: numbers[at + 1] == 1,
        r_size: numbers[at + 2] as u32,
        h: integers[from],
        v: integers[from + 1],
    }
}

pub fn sequence_in(numbers: &[usize], matrices: &[u8]) -> Sequence
    requires { (number_count ≤ length numbers.now) × (matrix_count ≤ length matrices.now) }
    ensures { result ≡ sequence_in numbers.now matrices.now }
{
    Sequence {
        has_sequence_header: numbers[1] == 1,
        width: numbers[2],
        height: numbers[3],
        sizes: Sizes {
            mb_width: numbers[4],
            mb_height: numbers[5],
            mb_size: numbers[6],
        },
        matrices: Matrices {
            intra_quant_matrix: part_in(matrices, 0),
            non_intra_quant_matrix: part_in(matrices, 64),
        },
    }
}

fn picture_in(numbers: &[usize], integers: &[i32]) -> Picture
    requires { (in_range numbers.now ≡ true) × (number_count ≤ length numbers.now) × (integer_count ≤ length integers.now) }
    ensures { result ≡ picture_in numbers.now integers.now }
{
    let stores = Stores {
        cur: numbers[8],
        fwd: numbers[9],
        bwd: numbers[10],
    };
    let slice = Slice {
        quantizer_scale: numbers[11] as u32,
        macroblock_address: integers[1],
        motion_forward: motion_in(numbers, 12, integers, 2),
        motion_backward: motion_in(numbers, 15, integers, 4),
        dc_predictor: part_in(integers, 6),
    };
    Picture {
        picture_type: numbers[7] as u32,
        start_code: integers[0],
        stores,
        slice,
    }
}

fn clock_in(clock: &[f64]) -> Clock
    requires { clock_count ≤ length clock.now }
    ensures { result ≡ clock_in clock.now }
{
    Clock {
        framerate: clock[0],
        pixel_aspect_ratio: clock[1],
        time: clock[2],
        last_frame_time: clock[3],
    }
}

pub fn record_of(numbers: &[usize], integers: &[i32], matrices: &[u8], clock: &[f64]) -> Decoder
    requires { is_record (memory numbers.now integers.now matrices.now clock.now) ≡ true }
    ensures { result ≡ record_of (memory numbers.now integers.now matrices.now clock.now) }
{
    let sequence = sequence_in(numbers, matrices);
    let picture = picture_in(numbers, integers);
    let block_data = part_in(integers, 9);
    let display = Display {
        clock: clock_in(clock),
        has_reference_frame: numbers[18] == 1,
        frames_decoded: numbers[19] as u32,
    };
    let state = State {
        position: BitPosition(numbers[0]),
        picture,
        display,
    };
    Decoder {
        sequence,
        state,
        block_data,
        stop: numbers[20] as u32,
    }
}

// Is there room for a record?
pub fn has_room(numbers: &[usize], integers: &[i32], matrices: &[u8], clock: &[f64]) -> bool
    ensures { result ≡ has_room (memory numbers.now integers.now matrices.now clock.now) }
{
    (NUMBERS <= numbers.len())
        & (INTEGERS <= integers.len())
        & (MATRICES <= matrices.len())
        & (CLOCK <= clock.len())
}

// Is each number a value of its field's type? They are as many as the compiler knows, so that it writes the tests out one by one.
fn in_range(numbers: &[usize]) -> bool
    requires { number_count ≤ length numbers.now }
    ensures { result ≡ in_range numbers.now }
{
    numbers[..NUMBERS]
        .iter()
        .zip(&BOUNDS)
        .all(|(number, most)| number <= most)
}

pub fn is_record(numbers: &[usize], integers: &[i32], matrices: &[u8], clock: &[f64]) -> bool
    ensures { result ≡ is_record (memory numbers.now integers.now matrices.now clock.now) }
{
    has_room(numbers, integers, matrices, clock) && in_range(numbers)
}
