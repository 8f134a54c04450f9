// RULES 7.8 to 7.11: the address of a macroblock.
ghost use Rattle.std.specs.Prelude.{◌≡◌, ◌||◌, ◌≤◌, pos, ◌+ℤ◌};
ghost use Rattle.std.specs.Int.Signed.{lt_z, le_z};
ghost use Rattle.picture_state.specs.State.{with_address};
ghost use Rattle.macroblock.specs.Promises.{AddressAfterBound, AddressSumBound};

use picture_state::types::{Context, Slice};

// On by n.
pub fn address_plus(mut state: Slice, n: usize) -> Slice
    requires { AddressAfterBound state.macroblock_address n }
    ensures { result ≡ with_address (state.macroblock_address +ℤ pos n) state }
{
    state.macroblock_address += n as i32;
    state
}

// RULES 7.8: no macroblock has the address.
pub fn is_outside(g: Context, address: i32) -> bool
    requires { g.sizes.mb_size ≤ 65536 }
    ensures { result ≡ (lt_z address (pos 0) || le_z (pos g.sizes.mb_size) address) }
{
    address < 0 || g.sizes.mb_size as i32 <= address
}

// RULES 7.9, 7.6: n more leads past the last macroblock.
pub fn past(g: Context, address: i32, n: usize) -> bool
    requires mb_size_bound { g.sizes.mb_size ≤ 65536 }
    requires address_sum_bound { AddressSumBound address n }
    ensures { result ≡ le_z (pos g.sizes.mb_size) (address +ℤ pos n) }
{
    g.sizes.mb_size as i32 <= address + n as i32
}
