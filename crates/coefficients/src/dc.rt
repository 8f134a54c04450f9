// The DC value of an intra block.
ghost use Rattle.std.specs.Prelude.{◌≡◌, ◌≤◌, ◌<◌, ◌^◌, nat_abs};
ghost use Rattle.bits.specs.Runs.{ReaderInBounds, RunsInBounds};
ghost use Rattle.coefficients.specs.Dcs.{added, dc_difference, dc_in_range, dc_size};

use bits::reader::{Read, Reader};
use codes::codes::{read_dct_size_chrominance, read_dct_size_luminance};
use codes::lent::Tables;

// How many bits the differential has.
fn read_dc_size(s: &[u8], reader: Reader, tables: &Tables, luminance: bool) -> Read<u32>
    requires reader_in_bounds { ReaderInBounds s.now reader }
    ensures { RunsInBounds (dc_size luminance) s.now reader result.value result.reader }
{
    if luminance {
        return read_dct_size_luminance(s, reader, tables);
    }
    read_dct_size_chrominance(s, reader, tables)
}

// What a differential adds to the predictor. The Rust's -(1 << size) | (differential + 1) is a sum: proofs/Standard.antt.
fn added(size: usize, differential: u32) -> i32
    requires { (0 < size) × (size ≤ 8) × (differential < 2 ^ size) }
    ensures { (result ≡ added size differential) × (nat_abs result ≤ 255) }
{
    if differential & (1 << (size - 1)) != 0 {
        return differential as i32;
    }
    differential as i32 + 1 - (1 << size)
}

// What the DC value adds to the predictor.
pub fn read_dc_difference(s: &[u8], reader: Reader, tables: &Tables, luminance: bool) -> Read<i32>
    requires reader_in_bounds { ReaderInBounds s.now reader }
    ensures { RunsInBounds (dc_difference luminance) s.now reader result.value result.reader }
{
    let code = read_dc_size(s, reader, tables, luminance);
    let size = code.value as usize;
    if size == 0 {
        return Read {
            reader: code.reader,
            value: 0,
        };
    }
    let differential = code.reader.read(s, size);
    Read {
        reader: differential.reader,
        value: added(size, differential.value),
    }
}

// Question 8.
pub fn dc_in_range(value: i32) -> bool
    ensures { result ≡ dc_in_range value }
{
    (-256..=255).contains(&value)
}
