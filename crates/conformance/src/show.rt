// The lines: answer, checksums of record and store, and of a picture its store, time, planes and pixels.
ghost use Rattle.std.specs.Prelude.{◌≡◌, replicate, IfOk, OnErr};
ghost use Rattle.std.specs.Float.{binary64};
ghost use Rattle.std.specs.Float.Ieee.{of_bits};
ghost use Rattle.mpeg1.specs.Calls.{host_result, host_open, picture_count, host_decode};
ghost use Rattle.conformance.specs.Lent.{memory_of, same_references};

use crate::floats::bits;
use crate::records::Memory;
use crate::sums::{sum, sum_record};
use answer_lists::bytes::part;
use mpeg1::calls::{PICTURE_NUMBERS, mpeg1_decode, mpeg1_open, mpeg1_write_rgb_scaled};
use mpeg1::views::{mpeg1_plane_bytes, mpeg1_plane_start};
use std::io::Result;

fn show_sum<R: Print>(rt: &R, sum: u64) -> Result<()> {
    print!(rt; " {sum:08x}")
}

fn end_line<R: Print>(rt: &R) -> Result<()> {
    print!(rt; "\n")
}

pub fn show_name<R: Print>(rt: &R, name: &[u8]) -> Result<()> {
    print!(rt; "= ")?;
    rt.write_all(name)?;
    end_line(rt)
}

// The answer, 0 where it is no refusal, and what the call has left.
fn show_state<R: Print>(rt: &R, answer: u32, store: &[u8], lent: &Memory<'_>) -> Result<()> {
    print!(rt; "{answer}")?;
    show_sum(
        rt,
        sum_record(lent.numbers, lent.integers, lent.matrices, lent.clock),
    )?;
    show_sum(rt, sum(1, store))
}

// An opening, and its line. Where the line is not written, what the call has left stands all the same.
pub fn open<R: Print>(rt: &R, stream: &[u8], store: &mut [u8], lent: &mut Memory<'_>) -> Result<u32>
    ensures same { same_references lent.old lent.new }
    ensures ok { IfOk result
        (λ answer. host_result answer store.new (memory_of lent.new)
        ≡ host_open stream.now store.old
        (memory_of lent.old)) }
    ensures err { let opened = host_open stream.now store.old (memory_of lent.old) in
        OnErr result
        (host_result opened.answer store.new (memory_of lent.new)
        ≡ opened) }
{
    let answer = mpeg1_open(
        stream,
        store,
        lent.numbers,
        lent.integers,
        lent.matrices,
        lent.clock,
    );
    show_state(rt, answer, store, lent)?;
    end_line(rt)?;
    Ok(answer)
}

fn show_plane<R: Print>(
    rt: &R,
    store: &[u8],
    numbers: &[usize],
    k: usize,
    plane: usize,
) -> Result<()> {
    let start = mpeg1_plane_start(numbers, k, plane);
    let bytes = mpeg1_plane_bytes(numbers, plane);
    show_sum(rt, sum(1, part(store, start, bytes)))
}

// A conversion to an area, and its line; the parts stay apart, since a `Memory` would ask for a clock and the right to write, which a conversion
// does not need.
pub fn show_conversion<R: Print>(
    rt: &R,
    store: &[u8],
    numbers: &[usize],
    integers: &[i32],
    matrices: &[u8],
    k: usize,
    area: &mut [u32],
    w: usize,
    h: usize,
) -> Result<()> {
    let answer = mpeg1_write_rgb_scaled(store, numbers, integers, matrices, k, area, w, h);
    print!(rt; "{answer}")?;
    show_sum(rt, sum(1, area))?;
    end_line(rt)
}

fn show_picture<R: Print>(
    rt: &R,
    store: &[u8],
    lent: &Memory<'_>,
    k: usize,
    time: f64,
) -> Result<()> {
    let time_bits = bits(time);
    print!(rt; " {k} {time_bits:016x}")?;
    for plane in 0..3 {
        show_plane(rt, store, lent.numbers, k, plane)?;
    }
    print!(rt; " ")?;
    let mut area = [0u32; 1073];
    show_conversion(
        rt,
        store,
        lent.numbers,
        lent.integers,
        lent.matrices,
        k,
        &mut area,
        37,
        29,
    )
}

// A hand-out, and its line. Where the line is not written, what the call has left stands all the same.
pub fn decode<R: Print>(
    rt: &R,
    stream: &[u8],
    store: &mut [u8],
    lent: &mut Memory<'_>,
) -> Result<u32>
    ensures same { same_references lent.old lent.new }
    ensures ok { IfOk result
        (λ answer. host_result answer store.new (memory_of lent.new)
        ≡ (host_decode stream.now store.old
        (memory_of lent.old) (replicate picture_count 0) (of_bits binary64 0)
        ).kept) }
    ensures err { let handed = host_decode stream.now store.old
        (memory_of lent.old) (replicate picture_count 0) (of_bits binary64 0)
        in
        OnErr result
        (host_result handed.kept.answer store.new (memory_of lent.new)
        ≡ handed.kept) }
{
    let mut picture = [0usize; PICTURE_NUMBERS];
    let mut time: f64 = 0.0;
    let answer = mpeg1_decode(
        stream,
        store,
        lent.numbers,
        lent.integers,
        lent.matrices,
        lent.clock,
        &mut picture,
        &mut time,
    );
    show_state(rt, answer, store, lent)?;
    if answer != 0 {
        end_line(rt)?;
        return Ok(answer);
    }
    show_picture(rt, store, lent, picture[0], time)?;
    Ok(answer)
}
