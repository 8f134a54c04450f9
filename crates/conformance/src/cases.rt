// A case: six numbers (bytes of the store, store converted, width and height of the output, length of the area, hand-outs) and a record.
use crate::records::{Memory, clock_in, integers_in, matrices_in, numbers_in};
use crate::show::{decode, show_conversion};
use answer_lists::bytes::part;
use answer_lists::noise::fill;
use answer_lists::numbers::number_at;
use std::io::Result;

// A conversion to an area of so many numbers, which are no pixels before.
fn convert<R: Print>(
    rt: &R,
    case: &[u8],
    store: &[u8],
    lent: &Memory<'_>,
    length: usize,
) -> Result<()> {
    let mut area = [7u32; 16384];
    if length <= 16384 {
        let k = number_at(case, 4) as usize;
        let w = number_at(case, 8) as usize;
        let h = number_at(case, 12) as usize;
        let area = &mut area[..length];
        return show_conversion(
            rt,
            store,
            lent.numbers,
            lent.integers,
            lent.matrices,
            k,
            area,
            w,
            h,
        );
    }
    Ok(())
}

// A conversion, then hand-outs.
fn run<R: Print>(rt: &R, stream: &[u8], case: &[u8], store: &mut [u8]) -> Result<()> {
    let record = part(case, 24, case.len());
    let mut lent = Memory {
        numbers: &mut numbers_in(record),
        integers: &mut integers_in(record),
        matrices: &mut matrices_in(record),
        clock: &mut clock_in(record),
    };
    fill(store, 7);
    let length = number_at(case, 16) as usize;
    convert(rt, case, store, &lent, length)?;
    for _ in 0..number_at(case, 20) {
        decode(rt, stream, store, &mut lent)?;
    }
    Ok(())
}

// The store has room for the three of 48 macroblocks.
pub fn run_case<R: Print>(rt: &R, stream: &[u8], case: &[u8]) -> Result<()> {
    let mut store = [0u8; 55296];
    let bytes = number_at(case, 0) as usize;
    if bytes <= 55296 {
        return run(rt, stream, case, &mut store[..bytes]);
    }
    Ok(())
}
