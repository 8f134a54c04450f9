// A coefficient as it is coded.
ghost use Rattle.bits.specs.Runs.{ReaderInBounds, RunsInBounds};
ghost use Rattle.coefficients.specs.Coefficients.{escape_level, escape, run_level, coefficient};

use bits::reader::{Read, Reader};
use codes::codes::read_dct_coeff;
use codes::lent::Tables;

// RULES 3.5. An enum in the terms of the field, and no Option: the loop over a block takes run and level apart, or leaves with the end (RULES F.6).
#[derive(Clone, Copy, PartialEq, Eq, Debug)]
pub enum Coefficient {
    EndOfBlock,
    RunLevel { run: usize, level: i32 },
}

// The level behind an escape, in 8 bits or in 16.
fn read_escape_level(s: &[u8], reader: Reader) -> Read<i32>
    requires { ReaderInBounds s.now reader }
    ensures { RunsInBounds escape_level s.now reader result.value result.reader }
{
    let first = reader.read(s, 8);
    let after = first.reader;
    let field = first.value;
    if field == 0 {
        let more = after.read(s, 8);
        return Read {
            reader: more.reader,
            value: more.value as i32,
        };
    }
    if field < 128 {
        return Read {
            reader: after,
            value: field as i32,
        };
    }
    if 128 < field {
        return Read {
            reader: after,
            value: field as i32 - 256,
        };
    }
    let more = after.read(s, 8);
    Read {
        reader: more.reader,
        value: more.value as i32 - 256,
    }
}

fn read_escape(s: &[u8], reader: Reader) -> Read<Coefficient>
    requires { ReaderInBounds s.now reader }
    ensures { RunsInBounds escape s.now reader result.value result.reader }
{
    let run = reader.read(s, 6);
    let level = read_escape_level(s, run.reader);
    Read {
        reader: level.reader,
        value: Coefficient::RunLevel {
            run: run.value as usize,
            level: level.value,
        },
    }
}

// The pair of a code, 256 × run + level, and its sign bit; or of an escape.
fn read_run_level(s: &[u8], reader: Reader, code: u32) -> Read<Coefficient>
    requires { ReaderInBounds s.now reader }
    ensures { RunsInBounds (run_level code) s.now reader result.value result.reader }
{
    if code == 0xffff {
        return read_escape(s, reader);
    }
    let sign = reader.read_bit(s);
    let run = (code / 256) as usize;
    let size = (code % 256) as i32;
    let level = if sign.value == 0 { size } else { -size };
    Read {
        reader: sign.reader,
        value: Coefficient::RunLevel { run, level },
    }
}

// A coefficient, or the end of a block that has n places used.
pub fn read_coefficient(s: &[u8], reader: Reader, tables: &Tables, n: usize) -> Read<Coefficient>
    requires reader_in_bounds { ReaderInBounds s.now reader }
    ensures { RunsInBounds (coefficient n) s.now reader result.value result.reader }
{
    let code = read_dct_coeff(s, reader, tables);
    if code.value == 1 && 0 < n {
        let more = code.reader.read_bit(s);
        if more.value == 0 {
            return Read {
                reader: more.reader,
                value: Coefficient::EndOfBlock,
            };
        }
        return read_run_level(s, more.reader, code.value);
    }
    read_run_level(s, code.reader, code.value)
}
