// What a host reads of a record, and the sizes that it needs, for C.
ghost use Rattle.std.specs.Prelude.{◌≡◌};
ghost use Rattle.memory.specs.Fields.{number_count, integer_count, matrix_count, clock_count};
ghost use Rattle.mpeg1.specs.Calls.{picture_count};
ghost use Rattle.mpeg1.specs.Views as View;

use mpeg1::views;

#[unsafe(no_mangle)]
pub extern "C" fn mpeg1_version() -> u32
    ensures { result ≡ View.version }
{
    views::mpeg1_version()
}

#[unsafe(no_mangle)]
pub extern "C" fn mpeg1_record_numbers() -> usize
    ensures { result ≡ number_count }
{
    views::mpeg1_record_numbers()
}

#[unsafe(no_mangle)]
pub extern "C" fn mpeg1_record_integers() -> usize
    ensures { result ≡ integer_count }
{
    views::mpeg1_record_integers()
}

#[unsafe(no_mangle)]
pub extern "C" fn mpeg1_record_matrices() -> usize
    ensures { result ≡ matrix_count }
{
    views::mpeg1_record_matrices()
}

#[unsafe(no_mangle)]
pub extern "C" fn mpeg1_record_floats() -> usize
    ensures { result ≡ clock_count }
{
    views::mpeg1_record_floats()
}

// How many numbers a hand-out tells of a picture.
#[unsafe(no_mangle)]
pub extern "C" fn mpeg1_picture_numbers() -> usize
    ensures { result ≡ picture_count }
{
    views::mpeg1_picture_numbers()
}

#[unsafe(no_mangle)]
pub extern "C" fn mpeg1_store_bytes(width: usize, height: usize) -> usize
    ensures { result ≡ View.store_bytes_of width height }
{
    views::mpeg1_store_bytes(width, height)
}

#[unsafe(no_mangle)]
pub extern "C" fn mpeg1_width(numbers: &[usize]) -> usize
    ensures { result ≡ (View.seen numbers.now).width }
{
    views::mpeg1_width(numbers)
}

#[unsafe(no_mangle)]
pub extern "C" fn mpeg1_height(numbers: &[usize]) -> usize
    ensures { result ≡ (View.seen numbers.now).height }
{
    views::mpeg1_height(numbers)
}

// The type read last: 1 I, 2 P, 3 B.
#[unsafe(no_mangle)]
pub extern "C" fn mpeg1_picture_type(numbers: &[usize]) -> u32
    ensures { result ≡ View.type_seen numbers.now }
{
    views::mpeg1_picture_type(numbers)
}

// The place in the stream, in whole bytes.
#[unsafe(no_mangle)]
pub extern "C" fn mpeg1_position(numbers: &[usize]) -> usize
    ensures { result ≡ View.bytes_read numbers.now }
{
    views::mpeg1_position(numbers)
}

#[unsafe(no_mangle)]
pub extern "C" fn mpeg1_frame_rate(clock: &[f64]) -> f64
    ensures { result ≡ View.clock_number clock.now 0 }
{
    views::mpeg1_frame_rate(clock)
}

#[unsafe(no_mangle)]
pub extern "C" fn mpeg1_pixel_aspect_ratio(clock: &[f64]) -> f64
    ensures { result ≡ View.clock_number clock.now 1 }
{
    views::mpeg1_pixel_aspect_ratio(clock)
}

// Planes: 0 Y, 1 Cr, 2 Cb.
#[unsafe(no_mangle)]
pub extern "C" fn mpeg1_row_bytes(numbers: &[usize], plane: usize) -> usize
    ensures { result ≡ View.row_bytes numbers.now plane }
{
    views::mpeg1_row_bytes(numbers, plane)
}

#[unsafe(no_mangle)]
pub extern "C" fn mpeg1_plane_bytes(numbers: &[usize], plane: usize) -> usize
    ensures { result ≡ View.plane_bytes numbers.now plane }
{
    views::mpeg1_plane_bytes(numbers, plane)
}

#[unsafe(no_mangle)]
pub extern "C" fn mpeg1_plane_start(numbers: &[usize], index: usize, plane: usize) -> usize
    ensures { result ≡ View.plane_begin numbers.now index plane }
{
    views::mpeg1_plane_start(numbers, index, plane)
}
