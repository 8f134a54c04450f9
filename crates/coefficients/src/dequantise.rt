// RULES 3.8, steps 1 to 6: a level becomes a coefficient.
ghost use Rattle.std.specs.Prelude.{◌≡◌, ◌≤◌, nat_abs};
ghost use Rattle.coefficients.specs.Dequantise.{doubled, made_odd, clipped, dequantised};

use crate::quantiser::Quantiser;

// Twice the level; non-intra, one further from zero. Both neighbours are made before the tests, here and below: a value is then chosen, and
// no branch depends on a sign.
fn doubled(intra: bool, level: i32) -> i32
    requires { nat_abs level ≤ 256 }
    ensures { (result ≡ doubled intra level) × (nat_abs result ≤ 513) }
{
    let twice = level * 2;
    let less = twice - 1;
    let more = twice + 1;
    if intra {
        return twice;
    }
    if twice < 0 {
        return less;
    }
    more
}

// An even number moves one toward zero, and 0 becomes 1.
fn made_odd(x: i32) -> i32
    requires { nat_abs x ≤ 300000 }
    ensures { result ≡ made_odd x }
{
    let less = x - 1;
    let more = x + 1;
    if (x & 1) != 0 {
        return x;
    }
    if x > 0 {
        return less;
    }
    more
}

fn clipped(x: i32) -> i32
    ensures { (result ≡ clipped x) × (nat_abs result ≤ 2048) }
{
    x.clamp(-2048, 2047)
}

// The coefficient before it is multiplied by the premultiplier.
pub fn dequantise(q: Quantiser, level: i32, entry: u8) -> i32
    requires { (nat_abs level ≤ 256) × (q.scale ≤ 31) }
    ensures { (result ≡ dequantised q level entry) × (nat_abs result ≤ 2048) }
{
    let product = doubled(q.intra, level) * q.scale as i32 * i32::from(entry);
    clipped(made_odd(product >> 4))
}
