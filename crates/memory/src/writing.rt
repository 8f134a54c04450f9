// The record written into memory.
ghost use Rattle.std.specs.Prelude.{◌≡◌, true, ◌≤◌, length};
ghost use Rattle.memory.specs.Fields.{numbers_of, integers_of, matrices_of, clock_of, number_count, integer_count, matrix_count, clock_count};
ghost use Rattle.memory.specs.Fields.{fields, TypedNumbers, TypedEntries};
ghost use Rattle.memory.specs.Memory.{memory, over, written, has_room, HoldsRecord};

use crate::format::{CLOCK, INTEGERS, MATRICES, NUMBERS, clock_of, numbers_of, single_integers};
use decoder::record::Decoder;

fn put_numbers(numbers: &mut [usize], d: &Decoder)
    requires { number_count ≤ length numbers.old }
    ensures { (numbers.new ≡ over (numbers_of d.now) numbers.old) × TypedNumbers fields.numbers d.now }
{
    numbers[..NUMBERS].copy_from_slice(&numbers_of(*d));
}

fn put_integers(integers: &mut [i32], d: &Decoder)
    requires { integer_count ≤ length integers.old }
    ensures { (integers.new ≡ over (integers_of d.now) integers.old) × TypedEntries fields.integers d.now }
{
    integers[..6].copy_from_slice(&single_integers(*d));
    integers[6..9].copy_from_slice(&d.state.picture.slice.dc_predictor);
    integers[9..INTEGERS].copy_from_slice(&d.block_data);
}

fn put_matrices(matrices: &mut [u8], d: &Decoder)
    requires { matrix_count ≤ length matrices.old }
    ensures { (matrices.new ≡ over (matrices_of d.now) matrices.old) × TypedEntries fields.matrices d.now }
{
    matrices[..64].copy_from_slice(&d.sequence.matrices.intra_quant_matrix);
    matrices[64..MATRICES].copy_from_slice(&d.sequence.matrices.non_intra_quant_matrix);
}

fn put_clock(clock: &mut [f64], d: &Decoder)
    requires { clock_count ≤ length clock.old }
    ensures { clock.new ≡ over (clock_of d.now) clock.old }
{
    clock[..CLOCK].copy_from_slice(&clock_of(*d));
}

// The record, over the beginning of a memory.
pub fn save(
    d: Decoder,
    numbers: &mut [usize],
    integers: &mut [i32],
    matrices: &mut [u8],
    clock: &mut [f64],
)
    requires { has_room (memory numbers.old integers.old matrices.old clock.old) ≡ true }
    ensures clock_after { memory numbers.new integers.new matrices.new clock.new
        ≡ written d (memory numbers.old integers.old matrices.old clock.old) }
    ensures holds_record { HoldsRecord (memory numbers.new integers.new matrices.new clock.new) d }
{
    put_numbers(numbers, &d);
    put_integers(integers, &d);
    put_matrices(matrices, &d);
    put_clock(clock, &d);
}
