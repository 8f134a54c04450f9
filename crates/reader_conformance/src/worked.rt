// Cases worked by hand (RULES W).
ghost use Rattle.std.specs.Prelude.{◌≡◌, true, ◌≤◌, pos, neg_ℤ, nat_abs, ◌+ℤ◌, length};
ghost use Rattle.bits.specs.Bounds.{longest_stream};
ghost use Rattle.bits.specs.Programs.{run};
ghost use Rattle.motion.specs.Displacement.{InRange};
ghost use Rattle.motion.specs.Vector.{motion_vector};
ghost use Rattle.coefficients.specs.Dcs.{dc_difference};
ghost use Rattle.coefficients.specs.Dequantise.{quantiser, dequantised};

use crate::lent::default_tables;
use argb::pixel::pixel;
use bits::reader::Reader;
use coefficients::dc::read_dc_difference;
use coefficients::dequantise::dequantise;
use coefficients::quantiser::Quantiser;
use laws::half;
use motion::vector::decode_motion_vector;
use prediction::samples::average4;

#[derive(Clone, Copy)]
pub struct Values {
    pub first: u32,
    pub second: u32,
    pub third: u32,
}

// RULES 1.2: of the byte A5, reads of 3, 6 and 5 bits give 5, 0 and 5.
pub fn reader() -> Values
    ensures { (result.first ≡ 5) × (result.second ≡ 0) × (result.third ≡ 5) }
{
    let stream = [0xA5u8];
    let first = Reader::new().read(&stream, 3);
    let second = first.reader.read(&stream, 6);
    let third = second.reader.read(&stream, 5);
    let a = first.value;
    let b = second.value;
    let c = third.value;
    Values {
        first: a,
        second: b,
        third: c,
    }
}

#[derive(Clone, Copy)]
pub struct Pixels {
    pub near_white: u32,
    pub white: u32,
}

// RULES W.13, W.14: Y 235 and 236 without colour give FFFEFEFE and FFFFFFFF.
pub fn whites() -> Pixels
    ensures { (result.near_white ≡ 4294901502) × (result.white ≡ 4294967295) }
{
    let near_white = pixel(235, 128, 128);
    let white = pixel(236, 128, 128);
    Pixels { near_white, white }
}

#[derive(Clone, Copy)]
pub struct Vectors {
    pub w1: i32,
    pub w2: i32,
    pub w3: i32,
    pub w4: i32,
}

// The component after the vector step at the beginning of a stream.
fn vector_case(s: &[u8], r: u32, motion: i32) -> i32
    requires s_len_bound { length s.now ≤ longest_stream }
    requires r_bound { (r ≤ 6) × InRange 64 motion }
    ensures { result ≡ (run (motion_vector r motion) s.now 0).value }
{
    let tables = default_tables();
    decode_motion_vector(s, Reader::new(), &tables, r, motion).value
}

// RULES W.1 to W.4, each read from a stream.
pub fn vector_cases() -> Vectors
    ensures { (result.w1 ≡ neg_ℤ (pos 16)) × (result.w2 ≡ pos 15) × (result.w3 ≡ neg_ℤ (pos 60)) × (result.w4 ≡ pos 0) }
{
    let s1 = [0b0100_0000u8];
    let s2 = [0b0110_0000u8];
    let s3 = [0b0010_1100u8];
    let s4 = [0b0000_0011u8, 0b0011_1111u8, 0b1000_0000u8];
    let w1 = vector_case(&s1, 0, 15);
    let w2 = vector_case(&s2, 0, -16);
    let w3 = vector_case(&s3, 2, 60);
    let w4 = vector_case(&s4, 6, -1024);
    Vectors { w1, w2, w3, w4 }
}

#[derive(Clone, Copy)]
pub struct Averages {
    pub w5: u8,
    pub w6: u8,
}

// RULES W.5, W.6.
pub fn average_cases() -> Averages
    ensures { (result.w5 ≡ 0) × (result.w6 ≡ 1) }
{
    let w5 = average4(0, 0, 0, 1);
    let w6 = average4(0, 0, 1, 1);
    Averages { w5, w6 }
}

// RULES W.7.
#[tactic(auto, unfolding(laws::specs::Signed::half_toward_zero))]
pub fn chroma_case() -> i32
    ensures { result ≡ neg_ℤ (pos 1) }
{
    half(-3)
}

#[derive(Clone, Copy)]
pub struct Dcs {
    pub w8: i32,
    pub w9: i32,
}

// The DC value at the beginning of a stream, where the predictor is 128.
fn dc_case(s: &[u8]) -> i32
    requires { length s.now ≤ longest_stream }
    ensures { result ≡ pos 128 +ℤ (run (dc_difference true) s.now 0).value }
{
    let tables = default_tables();
    128 + read_dc_difference(s, Reader::new(), &tables, true).value
}

// RULES W.8, W.9, each read from a stream.
pub fn dc_cases() -> Dcs
    ensures { (result.w8 ≡ pos 133) × (result.w9 ≡ pos 123) }
{
    let s8 = [0b1011_0100u8];
    let s9 = [0b1010_1000u8];
    let w8 = dc_case(&s8);
    let w9 = dc_case(&s9);
    Dcs { w8, w9 }
}

#[derive(Clone, Copy)]
pub struct Levels {
    pub w10: i32,
    pub w11: i32,
    pub w12: i32,
}

// A level of an intra block.
fn level_case(scale: u32, level: i32, entry: u8) -> i32
    requires { (nat_abs level ≤ 256) × (scale ≤ 31) }
    ensures { result ≡ dequantised (quantiser true scale) level entry }
{
    let q = Quantiser { intra: true, scale };
    dequantise(q, level, entry)
}

// RULES W.10 to W.12.
pub fn level_cases() -> Levels
    ensures { (result.w10 ≡ pos 1) × (result.w11 ≡ pos 2047) × (result.w12 ≡ pos 1) }
{
    let w10 = level_case(1, 1, 19);
    let w11 = level_case(31, 255, 83);
    let w12 = level_case(1, 0, 19);
    Levels { w10, w11, w12 }
}
