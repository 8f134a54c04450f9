// Laws of numbers, lists, loops and tables stand in proofs/, the definitions that they speak of in specs/. The code is two rules on signed numbers.
#![tactic(auto)]

ghost use Rattle.std.specs.Prelude.{◌≡◌};
ghost use Rattle.laws.specs.Signed.{clamp255, half_toward_zero};

// Brings n into 0..=255.
pub fn clamp_u8(n: i32) -> u8
    ensures { result ≡ clamp255 n }
{
    n.clamp(0, 255) as u8
}

// Half of n, rounded toward zero.
pub fn half(n: i32) -> i32
    ensures { result ≡ half_toward_zero n }
{
    n / 2
}
