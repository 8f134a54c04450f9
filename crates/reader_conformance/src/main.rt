// Runs the worked cases, and the reader on the list of the Rust's answers (tests/oracle writes it); says of the list how many cases agree.
#![tactic(auto)]

mod lent;
mod reader_list;
mod reader_operations;
mod worked;

use std::io::Result;
use worked::{Averages, Dcs, Levels, Pixels, Values, Vectors};

// The lines of the worked cases.
fn print_worked(rt: &impl Print) -> Result<()> {
    let Vectors { w1, w2, w3, w4 } = worked::vector_cases();
    println!(rt; "vector steps: {w1} {w2} {w3} {w4}")?;
    let Averages { w5, w6 } = worked::average_cases();
    println!(rt; "averages: {w5} {w6}")?;
    println!(rt; "chroma half: {}", worked::chroma_case())?;
    let Dcs { w8, w9 } = worked::dc_cases();
    println!(rt; "DC: {w8} {w9}")?;
    let Levels { w10, w11, w12 } = worked::level_cases();
    println!(rt; "intra AC: {w10} {w11} {w12}")?;
    let Pixels { near_white, white } = worked::whites();
    println!(rt; "ARGB 235 and 236: {near_white:08x} {white:08x}")?;
    let Values {
        first,
        second,
        third,
    } = worked::reader();
    println!(rt; "reader A5: {first} {second} {third}")
}

fn main(rt: HostRuntime) -> Result<()> {
    print_worked(&rt)?;
    println!(rt; "reader {}", reader_list::replay(&rt)?)
}
