// Lists the pictures of a stream on standard input (RULES L).
#![tactic(auto)]

mod list;
mod text;

ghost use Rattle.std.specs.Prelude.{◌≡◌, length, IfOk, OnErr};
ghost use Rattle.io.specs.Counts.{IsPrefixLen};

use std::io::{Read, Result};

// Room for a stream and one byte more, by which a longer one is known. It and the page are arrays: the program asks for no memory but its stack, so that
// nothing is refused to it on the way.
fn input() -> [u8; 65537]
    ensures { 65537 ≡ length result }
{
    [0; 65537]
}

// Room for the longest listing.
fn page() -> [u8; 1572864]
    ensures { 1572864 ≡ length result }
{
    [0; 1572864]
}

// Reads until the room is full or nothing is left, and answers how many bytes it has: `read_exact` would refuse a shorter stream. What an error of a read
// leaves in the room is not known.
fn read_full<R: Read>(reader: &mut R, room: &mut [u8]) -> Result<usize>
    ensures ok { IfOk result (λ count. IsPrefixLen count room.new) }
    ensures err { OnErr result (length room.new ≡ length room.old) }
{
    let mut done = 0;
    while done < room.len() {
        let count = reader.read(&mut room[done..])?;
        if count == 0 {
            break;
        }
        done += count;
    }
    Ok(done)
}

fn main(rt: HostRuntime) -> Result<()> {
    let mut stream = input();
    let mut page = page();
    let count = read_full(&mut rt.stdin(), &mut stream)?;
    let end = list::list(&stream[..count], &mut page);
    rt.write_all(&page[..end])
}
