// Writes numbers and lines of the listing to a page. It is lent with the place to write at, and is no `Vec`, so that no writing fails for want of memory.
ghost use Rattle.std.specs.Prelude.{◌+◌, ◌≤◌, length};
ghost use Rattle.decoder.specs.Listing.{line};
ghost use Rattle.listing.specs.Text.{Wrote, field, line_text};

// The bytes of a text, from the place `at` on. The place behind them.
pub fn write_bytes(page: &mut [u8], at: usize, text: &[u8]) -> usize
    requires { at + length text.now ≤ length page.old }
    ensures { Wrote page.old at text.now page.new result }
{
    let end = at + text.len();
    page[at..end].copy_from_slice(text);
    end
}

// A number, and the byte behind it.
fn write_field(page: &mut [u8], at: usize, n: u64, end: u8) -> usize
    requires { at + 21 ≤ length page.old }
    ensures wrote { Wrote page.old at (field n end) page.new result }
    ensures upper_bound { result ≤ at + 21 }
{
    let mut digits = [0u8; 20];
    let count = io::decimal(n, &mut digits);
    let next = write_bytes(page, at, &digits[..count]);
    page[next] = end;
    next + 1
}

// A line: pictures so far, store, type, answer.
pub fn write_line(
    page: &mut [u8],
    at: usize,
    handed: u64,
    store: u64,
    kind: u64,
    answer: u64,
) -> usize
    requires { at + 84 ≤ length page.old }
    ensures wrote { Wrote page.old at (line_text (line handed store kind answer)) page.new result }
    ensures upper_bound { result ≤ at + 84 }
{
    let first = write_field(page, at, handed, b' ');
    let second = write_field(page, first, store, b' ');
    let third = write_field(page, second, kind, b' ');
    write_field(page, third, answer, b'\n')
}
