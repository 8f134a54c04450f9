// The walk through a code table.
ghost use Rattle.std.specs.Prelude.{List, map, ℕ, ◌+◌, ◌≤◌, ◌<◌, T, length, get_or, ℤ, pos};
ghost use Rattle.bits.specs.Runs.{ReaderInBounds, RunsInBounds};
ghost use Rattle.codes.specs.DecodingTables.{IsMergedTable, ValidMergedTable, all, abs_below256, indices};
ghost use Rattle.codes.specs.Walk.{walk_from, walk, vlc_from, vlc};

use bits::reader::{Read, Reader};

// The entry at which the walk from a pair of entries on ends. A bit chooses an entry of the pair. Below 256 it is the index of the next pair; values
// stand above the indices, and the walk ends at one.
pub fn walk_from(s: &[u8], reader: Reader, table: &[u16], pair: usize) -> Read<usize>
    requires reader_in_bounds { ReaderInBounds s.now reader }
    requires valid_merged_table { ValidMergedTable table.now }
    requires pair_in_bounds { pair + 1 < length table.now }
    ensures runs_in_bounds { RunsInBounds (walk_from (indices table.now) pair) s.now reader result.value result.reader }
    ensures position_in_bounds { result.value < length table.now }
    ensures bound { 256 ≤ get_or table.now result.value 0 }
{
    let mut from = reader;
    let mut at = pair;
    loop {
        let bit = from.read_bit(s);
        let position = at + bit.value as usize;
        let next = table[position];
        from = bit.reader;
        if 256 <= next {
            return Read {
                reader: from,
                value: position,
            };
        }
        at = usize::from(next);
    }
}

// The whole walk.
pub fn walk(s: &[u8], reader: Reader, table: &[u16]) -> Read<usize>
    requires reader_in_bounds { ReaderInBounds s.now reader }
    requires valid_merged_table { ValidMergedTable table.now }
    ensures runs_in_bounds { RunsInBounds (walk (indices table.now)) s.now reader result.value result.reader }
    ensures position_in_bounds { result.value < length table.now }
    ensures bound { 256 ≤ get_or table.now result.value 0 }
{
    walk_from(s, reader, table, 0)
}

// The value at the end of the walk through a code table as it is lent, with its sign: whatever indices ix and values vs it is made of.
pub fn read_vlc(s: &[u8], reader: Reader, table: &[u16]) -> Read<i32>
    requires reader_in_bounds { ReaderInBounds s.now reader }
    requires valid_merged_table { ValidMergedTable table.now }
    ensures { (ix vs : List ℤ) → IsMergedTable ix vs table.now → T (all abs_below256 vs)
        → RunsInBounds (vlc ix vs (pos 0)) s.now reader result.value result.reader }
{
    let leaf = walk(s, reader, table);
    let found = i32::from(table[leaf.value]) - 1024;
    Read {
        reader: leaf.reader,
        value: found,
    }
}

// The same for a table whose values are natural numbers, from a pair of entries on. Two functions, since a value with its sign and one without are
// made of an entry in two ways, by two laws (DECISIONS codes.2).
pub fn read_vlc_uint(s: &[u8], reader: Reader, table: &[u16], pair: usize) -> Read<u32>
    requires reader_in_bounds { ReaderInBounds s.now reader }
    requires valid_merged_table { ValidMergedTable table.now }
    requires pair_in_bounds { pair + 1 < length table.now }
    ensures { (ix : List ℤ) (vs : List ℕ) → IsMergedTable ix (map pos vs) table.now
        → RunsInBounds (vlc_from ix vs 0 pair) s.now reader result.value result.reader }
{
    let leaf = walk_from(s, reader, table, pair);
    let found = (u32::from(table[leaf.value]) + 64512) % 65536;
    Read {
        reader: leaf.reader,
        value: found,
    }
}
