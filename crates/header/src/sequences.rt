// RULES O.3 (11172-2, 2.4.2.3): the sequence header, from behind its start code on.
ghost use Rattle.std.specs.Prelude.{◌≡◌, ◌≤◌, ◌<◌};
ghost use Rattle.bits.specs.Runs.{ReaderInBounds, RunsInBounds};
ghost use Rattle.header.specs.Sequences as Header;

use bits::reader::{Read, Reader};
use codes::matrices::{intra_quant_matrix, non_intra_quant_matrix, zig_zag};
use codes::rates::{picture_rate, pixel_aspect_ratio};
use picture_state::types::Matrices;

#[derive(Clone, Copy)]
pub struct Size {
    pub width: usize,
    pub height: usize,
}

// The fields behind the size; the decoder uses the two codes of aspect and rate, and the matrices.
#[derive(Clone, Copy)]
pub struct Rest {
    pub pel_aspect_ratio: usize,
    pub picture_rate: usize,
    pub bit_rate: u32,
    pub marker_bit: u32,
    pub vbv_buffer_size: u32,
    pub constrained_parameters_flag: u32,
    pub matrices: Matrices,
}

// 64 bytes in zig-zag order.
fn read_entries(s: &[u8], reader: Reader) -> Read<[u8; 64]>
    requires { ReaderInBounds s.now reader }
    ensures { RunsInBounds Header.entries s.now reader result.value result.reader }
{
    let mut read = Read {
        reader,
        value: [0u8; 64],
    };
    for position in zig_zag() {
        let entry = read.reader.read(s, 8);
        read.reader = entry.reader;
        read.value[usize::from(position)] = entry.value as u8;
    }
    read
}

// One bit: if 1, a matrix of 64 bytes, else the default one.
fn read_matrix(s: &[u8], reader: Reader, default: [u8; 64]) -> Read<[u8; 64]>
    requires { ReaderInBounds s.now reader }
    ensures { RunsInBounds (Header.matrix default) s.now reader result.value result.reader }
{
    let loaded = reader.read_bit(s);
    if loaded.value == 0 {
        return Read {
            reader: loaded.reader,
            value: default,
        };
    }
    read_entries(s, loaded.reader)
}

pub fn read_size(s: &[u8], reader: Reader) -> Read<Size>
    requires { ReaderInBounds s.now reader }
    ensures runs_in_bounds { RunsInBounds Header.size s.now reader result.value result.reader }
    ensures width_bound { (result.value.width ≤ 4095) × (result.value.height ≤ 4095) }
{
    let width = reader.read(s, 12);
    let height = width.reader.read(s, 12);
    Read {
        reader: height.reader,
        value: Size {
            width: width.value as usize,
            height: height.value as usize,
        },
    }
}

pub fn read_rest(s: &[u8], reader: Reader) -> Read<Rest>
    requires { ReaderInBounds s.now reader }
    ensures runs_in_bounds { RunsInBounds Header.rest s.now reader result.value result.reader }
    ensures picture_rate_bound { result.value.picture_rate < 16 }
{
    let aspect = reader.read(s, 4);
    let rate = aspect.reader.read(s, 4);
    let bit_rate = rate.reader.read(s, 18);
    let marker = bit_rate.reader.read_bit(s);
    let buffer = marker.reader.read(s, 10);
    let constrained = buffer.reader.read_bit(s);
    let intra = read_matrix(s, constrained.reader, intra_quant_matrix());
    let other = read_matrix(s, intra.reader, non_intra_quant_matrix());
    // The borrow checker takes an array into a literal from a local only.
    let intra_quant_matrix = intra.value;
    let non_intra_quant_matrix = other.value;
    Read {
        reader: other.reader,
        value: Rest {
            pel_aspect_ratio: aspect.value as usize,
            picture_rate: rate.value as usize,
            bit_rate: bit_rate.value,
            marker_bit: marker.value,
            vbv_buffer_size: buffer.value,
            constrained_parameters_flag: constrained.value,
            matrices: Matrices {
                intra_quant_matrix,
                non_intra_quant_matrix,
            },
        },
    }
}

// RULES 2.8: code 0 gives what 1 gives, and 15 what 14 gives.
pub fn aspect_of(code: usize) -> f64
    ensures { result ≡ Header.aspect_of code }
{
    pixel_aspect_ratio()[code.saturating_sub(1).min(13)]
}

// RULES 2.9.
pub fn rate_of(code: usize) -> f64
    requires { code < 16 }
    ensures { result ≡ Header.rate_of code }
{
    picture_rate()[code]
}
