// RULES 7.7: the address increment.
ghost use Rattle.bits.specs.Runs.{ReaderInBounds, RunsInBounds};
ghost use Rattle.macroblock_head.specs.Increments.{increment};

use bits::reader::{Read, Reader};
use codes::codes::read_macroblock_address_increment;
use codes::lent::Tables;

// The sum of the codes. A code of 34 (stuffing) is dropped where no 35 (escape) came before it; a 35 adds 33 and goes on; any other is added and is the last.
pub fn read_increment(s: &[u8], reader: Reader, tables: &Tables) -> Read<usize>
    requires reader_in_bounds { ReaderInBounds s.now reader }
    ensures { RunsInBounds increment s.now reader result.value result.reader }
{
    let mut from = reader;
    let mut sum: usize = 0;
    loop {
        let code = read_macroblock_address_increment(s, from, tables);
        from = code.reader;
        match code.value as usize {
            34 if sum == 0 => {}
            35 => sum += 33,
            last => {
                return Read {
                    reader: from,
                    value: sum + last,
                };
            }
        }
    }
}
