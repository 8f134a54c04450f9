// The memory that the calls are lent: records made by hand, in its order.
ghost use Rattle.std.specs.Prelude.{◌≡◌, ◌+◌, ◌<◌};
ghost use Rattle.conformance.specs.Records.{numbers_in, integers_in, matrices_in, clock_in};
ghost use Rattle.answer_lists.specs.Numbers.{number_at};
ghost use Rattle.conformance.specs.Floats.{fraction};

use crate::floats::fraction;
use answer_lists::bytes::byte_at;
use answer_lists::numbers::{number_at, signed};
use memory::format::{CLOCK, INTEGERS, MATRICES, NUMBERS};
use std::array;

// Behind the numbers and the integers.
const MATRICES_AT: usize = 4 * (NUMBERS + INTEGERS);

// Behind the matrices.
const CLOCK_AT: usize = MATRICES_AT + MATRICES;

// What a call is lent, at any length, as the calls take it.
#[derive(Drop)]
pub struct Memory<'a> {
    pub numbers: &'a mut [usize],
    pub integers: &'a mut [i32],
    pub matrices: &'a mut [u8],
    pub clock: &'a mut [f64],
}

pub fn numbers_in(list: &[u8]) -> [usize; NUMBERS]
    ensures { result ≡ numbers_in list.now }
{
    array::from_fn(|k| number_at(list, 4 * k) as usize)
}

pub fn integers_in(list: &[u8]) -> [i32; INTEGERS]
    ensures { result ≡ integers_in list.now }
{
    array::from_fn(|k| signed(number_at(list, 4 * (NUMBERS + k))))
}

pub fn matrices_in(list: &[u8]) -> [u8; MATRICES]
    ensures { result ≡ matrices_in list.now }
{
    array::from_fn(|k| byte_at(list, MATRICES_AT + k) as u8)
}

fn float_at(list: &[u8], at: usize) -> f64
    requires { at < 4294967296 }
    ensures { result ≡ fraction (number_at list.now at) (number_at list.now (at + 4)) }
{
    fraction(number_at(list, at), number_at(list, at + 4))
}

pub fn clock_in(list: &[u8]) -> [f64; CLOCK]
    ensures { result ≡ clock_in list.now }
{
    array::from_fn(|k| float_at(list, CLOCK_AT + 8 * k))
}
