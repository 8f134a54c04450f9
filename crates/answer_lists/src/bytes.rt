// Bytes of a list.
ghost use Rattle.std.specs.Prelude.{◌≡◌, ◌<◌, get_or};
ghost use Rattle.answer_lists.specs.Bytes.{part, same_bytes};

// The byte at a place; 0 past the end.
pub fn byte_at(list: &[u8], at: usize) -> u32
    ensures { (result ≡ get_or list.now at 0) × (result < 256) }
{
    list.get(at).map_or(0, |byte| u32::from(*byte))
}

// The bytes from a place on, so many of them or as many as there are.
pub fn part(list: &[u8], from: usize, count: usize) -> &[u8]
    ensures { result.now ≡ part list.now from count }
{
    let start = from.min(list.len());
    let end = start.saturating_add(count).min(list.len());
    &list[start..end]
}

// Whether two runs of bytes are the same.
pub fn same(a: &[u8], b: &[u8]) -> bool
    ensures { result ≡ same_bytes a.now b.now }
{
    a == b
}
