// RULES O.4: where a header is accepted, the store becomes 0.
ghost use Rattle.std.specs.Prelude.{◌≡◌, ◌≤◌, length};
ghost use Rattle.header.specs.Store.{cleared};

// The first n bytes become 0.
#[tactic(auto, unfolding(crate::specs::Store::cleared))]
pub fn clear(store: &mut [u8], n: usize)
    requires { n ≤ length store.old }
    ensures { store.new ≡ cleared n store.old }
{
    store[..n].fill(0);
}
