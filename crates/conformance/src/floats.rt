// Floats of a record: fractions in a file, bits in a line.

ghost use Rattle.std.specs.Prelude.{◌≡◌};
ghost use Rattle.conformance.specs.Floats as F;

// The bits of a float; there is one NaN.
pub fn bits(x: f64) -> u64
    ensures { result ≡ F.bits x }
{
    if x.is_nan() {
        9221120237041090560
    } else {
        x.to_bits()
    }
}

#[tactic(auto, unfolding(crate::specs::Floats::fraction))]
pub fn fraction(numerator: u32, denominator: u32) -> f64
    ensures { result ≡ F.fraction numerator denominator }
{
    f64::from(numerator) / f64::from(denominator)
}
