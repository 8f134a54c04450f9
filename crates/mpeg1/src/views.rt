// What a host reads of a record, and the sizes that it needs, so that none counts fields or repeats the layout of a store.
ghost use Rattle.std.specs.Prelude.{◌≡◌, ◌<◌, ◌≤◌};
ghost use Rattle.memory.specs.Fields.{number_count, integer_count, matrix_count, clock_count};
ghost use Rattle.mpeg1.specs.Calls.{picture_count};
ghost use Rattle.mpeg1.specs.Views as View;

use crate::calls::PICTURE_NUMBERS;
use bits::position::{BitPosition, LAST_POSITION, byte_of};
use header::possible::{possible_sequence, sizes_of};
use header::state::{Sequence, fresh_sequence};
use memory::format::{CLOCK, INTEGERS, MATRICES, NUMBERS};
use memory::reading::sequence_in;
use prediction::planes::{MACROBLOCK_STORES, Plane, block_size, plane_length, plane_start};

fn seen(numbers: &[usize]) -> Sequence
    ensures { (result ≡ View.seen numbers.now) × View.MacroblockBounds result }
{
    if numbers.len() < NUMBERS || 1 < numbers[1] {
        return fresh_sequence();
    }
    let q = sequence_in(numbers, &[0u8; MATRICES]);
    if !possible_sequence(q) {
        return fresh_sequence();
    }
    q
}

// Number k, if it is at most m.
fn number_seen(numbers: &[usize], k: usize, m: usize) -> usize
    requires { k < number_count }
    ensures value { result ≡ View.number_view numbers.now k m }
    ensures upper_bound { result ≤ m }
{
    match numbers.first_chunk::<NUMBERS>() {
        Some(seen) if seen[k] <= m => seen[k],
        _ => 0,
    }
}

fn clock_number(clock: &[f64], k: usize) -> f64
    requires { k < clock_count }
    ensures { result ≡ View.clock_number clock.now k }
{
    match clock.first_chunk::<CLOCK>() {
        Some(seen) => seen[k],
        None => 0.0,
    }
}

// C names a plane by a number.
fn plane_number(plane: usize) -> Plane
    ensures { result ≡ View.plane_number plane }
{
    match plane {
        0 => Plane::Y,
        1 => Plane::Cr,
        _ => Plane::Cb,
    }
}

#[unsafe(no_mangle)]
pub extern "C" fn mpeg1_version() -> u32
    ensures { result ≡ View.version }
{
    1
}

#[unsafe(no_mangle)]
pub extern "C" fn mpeg1_record_numbers() -> usize
    ensures { result ≡ number_count }
{
    NUMBERS
}

#[unsafe(no_mangle)]
pub extern "C" fn mpeg1_record_integers() -> usize
    ensures { result ≡ integer_count }
{
    INTEGERS
}

#[unsafe(no_mangle)]
pub extern "C" fn mpeg1_record_matrices() -> usize
    ensures { result ≡ matrix_count }
{
    MATRICES
}

#[unsafe(no_mangle)]
pub extern "C" fn mpeg1_record_floats() -> usize
    ensures { result ≡ clock_count }
{
    CLOCK
}

// How many numbers a hand-out tells of a picture.
#[unsafe(no_mangle)]
pub extern "C" fn mpeg1_picture_numbers() -> usize
    ensures { result ≡ picture_count }
{
    PICTURE_NUMBERS
}

#[unsafe(no_mangle)]
pub extern "C" fn mpeg1_store_bytes(width: usize, height: usize) -> usize
    ensures { result ≡ View.store_bytes_of width height }
{
    if !((1..=4095).contains(&width) & (1..=4095).contains(&height)) {
        return 0;
    }
    MACROBLOCK_STORES * sizes_of(width, height).mb_size
}

#[unsafe(no_mangle)]
pub extern "C" fn mpeg1_width(numbers: &[usize]) -> usize
    ensures { result ≡ (View.seen numbers.now).width }
{
    seen(numbers).width
}

#[unsafe(no_mangle)]
pub extern "C" fn mpeg1_height(numbers: &[usize]) -> usize
    ensures { result ≡ (View.seen numbers.now).height }
{
    seen(numbers).height
}

// The type read last: 1 I, 2 P, 3 B.
#[unsafe(no_mangle)]
pub extern "C" fn mpeg1_picture_type(numbers: &[usize]) -> u32
    ensures { result ≡ View.type_seen numbers.now }
{
    number_seen(numbers, 7, 7) as u32
}

// The place in the stream, in whole bytes.
#[unsafe(no_mangle)]
pub extern "C" fn mpeg1_position(numbers: &[usize]) -> usize
    ensures { result ≡ View.bytes_read numbers.now }
{
    byte_of(BitPosition(number_seen(numbers, 0, LAST_POSITION))).0
}

#[unsafe(no_mangle)]
pub extern "C" fn mpeg1_frame_rate(clock: &[f64]) -> f64
    ensures { result ≡ View.clock_number clock.now 0 }
{
    clock_number(clock, 0)
}

#[unsafe(no_mangle)]
pub extern "C" fn mpeg1_pixel_aspect_ratio(clock: &[f64]) -> f64
    ensures { result ≡ View.clock_number clock.now 1 }
{
    clock_number(clock, 1)
}

// Planes: 0 Y, 1 Cr, 2 Cb.
#[unsafe(no_mangle)]
pub extern "C" fn mpeg1_row_bytes(numbers: &[usize], plane: usize) -> usize
    ensures { result ≡ View.row_bytes numbers.now plane }
{
    if 2 < plane {
        return 0;
    }
    seen(numbers).sizes.mb_width * block_size(plane_number(plane))
}

#[unsafe(no_mangle)]
pub extern "C" fn mpeg1_plane_bytes(numbers: &[usize], plane: usize) -> usize
    ensures { result ≡ View.plane_bytes numbers.now plane }
{
    if 2 < plane {
        return 0;
    }
    plane_length(plane_number(plane), seen(numbers).sizes.mb_size)
}

#[unsafe(no_mangle)]
pub extern "C" fn mpeg1_plane_start(numbers: &[usize], index: usize, plane: usize) -> usize
    ensures { result ≡ View.plane_begin numbers.now index plane }
{
    if !((index <= 2) & (plane <= 2)) {
        return 0;
    }
    plane_start(index, plane_number(plane), seen(numbers).sizes.mb_size)
}
