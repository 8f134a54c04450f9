// The files that hold lists.
ghost use Rattle.std.specs.Prelude.{◌≡◌, length, IfOk, OnErr};
ghost use Rattle.io.specs.Counts.{IsPrefixLen};

use std::io::{Read, Result};
use std::rt::Files;
use std::{fs, str};

// Room for a list: 256 KiB.
pub fn space() -> [u8; 262144]
    ensures { 262144 ≡ length result }
{
    [0; 262144]
}

// Reads until the space is full or nothing is left, and answers how many bytes it has: `read_exact` would refuse a list that is shorter. What an error of
// a read leaves in the space is not known.
fn read_full<R: Read>(reader: &mut R, space: &mut [u8]) -> Result<usize>
    ensures ok { IfOk result (λ count. IsPrefixLen count space.new) }
    ensures err { OnErr result (length space.new ≡ length space.old) }
{
    let mut done = 0;
    while done < space.len() {
        let count = reader.read(&mut space[done..])?;
        if count == 0 {
            break;
        }
        done += count;
    }
    Ok(done)
}

// A list by its name, as `load` reads it.
fn load_named<R: Files + Eprint>(rt: &R, name: &str, space: &mut [u8]) -> Result<usize>
    ensures ok { IfOk result (λ count. IsPrefixLen count space.new) }
    ensures err { OnErr result (length space.new ≡ length space.old) }
{
    match fs::open(rt, name) {
        Ok(mut file) => read_full(&mut file, space),
        Err(e) => {
            eprintln!(rt; "{name}: {e}")?;
            Ok(0)
        }
    }
}

// Reads a list, and answers how many bytes it has; none where it is not there, which a line on standard error says. What an error of a read, or of that line,
// leaves in the space is not known.
pub fn load<R: Files + Eprint>(rt: &R, path: &[u8], space: &mut [u8]) -> Result<usize>
    ensures ok { IfOk result (λ count. IsPrefixLen count space.new) }
    ensures err { OnErr result (length space.new ≡ length space.old) }
{
    match str::from_utf8(path) {
        Ok(name) => load_named(rt, name, space),
        Err(_) => {
            eprintln!(rt; "the name of a list is not UTF-8")?;
            Ok(0)
        }
    }
}
