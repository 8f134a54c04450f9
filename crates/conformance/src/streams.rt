// Opening of a stream, and hand-outs.
use crate::records::Memory;
use crate::show::{decode, open};
use answer_lists::noise::fill;
use memory::format::{CLOCK, INTEGERS, MATRICES, NUMBERS};
use std::io::Result;

// Hand-outs, until a number other than 5 comes twice.
fn run<R: Print>(rt: &R, stream: &[u8], store: &mut [u8], lent: &mut Memory<'_>) -> Result<()> {
    let mut last: u32 = 0;
    for _ in 0..64 {
        let number = decode(rt, stream, store, lent)?;
        if (number != 0) & (number != 5) & (number == last) {
            return Ok(());
        }
        last = number;
    }
    Ok(())
}

// The store has room for the three of 48 macroblocks.
pub fn run_stream<R: Print>(rt: &R, stream: &[u8]) -> Result<()> {
    let mut store = [0u8; 55296];
    fill(&mut store, 7);
    let mut lent = Memory {
        numbers: &mut [0; NUMBERS],
        integers: &mut [0; INTEGERS],
        matrices: &mut [0; MATRICES],
        clock: &mut [0.0; CLOCK],
    };
    open(rt, stream, &mut store, &mut lent)?;
    run(rt, stream, &mut store, &mut lent)
}
