// A row of bytes. All of them are known before the first is written, so that the compiler can take them as one; they are lent, because it
// moves them one by one where they are passed by value.
ghost use Rattle.std.specs.Prelude.{◌≡◌, ◌+◌, ◌≤◌, length, get_or};
ghost use Rattle.laws.specs.Stores.{store_row};

// No `copy_from_slice`: it tests which end it has to begin at, for each row, and `block_set_const` then takes 4.9 ns in place of 2.6.
pub fn put_row<const N: usize>(d: &mut [u8], at: usize, row: &[u8; N])
    requires { at + N ≤ length d.old }
    ensures { d.new ≡ store_row d.old at (λ x. get_or row.now x 0) N }
{
    for x in 0..N {
        d[at + x] = row[x];
    }
}
