// Runs whole calls on stored streams and on records made by hand, and prints a line for each. tests/gate makes the files, and its answers are the Rust's.
//
// A file is a text, the stream that its records are used on, the number of its cases, and for each two texts: its name, and a stream or a record.
#![tactic(auto)]

mod cases;
mod floats;
mod records;
mod show;
mod streams;
mod sums;
mod texts;

use answer_lists::bytes::part;
use answer_lists::load::{load, space};
use answer_lists::numbers::number_at;
use cases::run_case;
use show::show_name;
use std::io::Result;
use std::rt::Files;
use streams::run_stream;
use texts::{after_text, text_at};

fn run<R: Print>(rt: &R, stream: &[u8], text: &[u8], records: bool) -> Result<()> {
    if records {
        return run_case(rt, stream, text);
    }
    run_stream(rt, text)
}

fn run_list<R: Print>(rt: &R, stream: &[u8], list: &[u8], records: bool) -> Result<()> {
    let mut at: usize = 4;
    for _ in 0..number_at(list, 0) {
        show_name(rt, text_at(list, at))?;
        at = after_text(list, at);
        run(rt, stream, text_at(list, at), records)?;
        at = after_text(list, at);
    }
    Ok(())
}

fn run_file<R: Files + Print + Eprint>(rt: &R, path: &[u8], records: bool) -> Result<()> {
    let mut room = space();
    let count = load(rt, path, &mut room)?;
    let file = &room[..count];
    run_list(
        rt,
        text_at(file, 0),
        part(file, after_text(file, 0), 262144),
        records,
    )
}

fn main(rt: HostRuntime) -> Result<()> {
    run_file(&rt, b"streams.bin", false)?;
    run_file(&rt, b"records.bin", true)
}
