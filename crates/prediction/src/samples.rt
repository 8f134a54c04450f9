// Samples and their averages (RULES 6.7, 6.8).
ghost use Rattle.std.specs.Prelude.{◌≡◌};
ghost use Rattle.prediction.specs.Samples.{average2, average4, stored_sample};

pub fn average2(a: u8, b: u8) -> u8
    ensures { result ≡ average2 a b }
{
    ((u16::from(a) + u16::from(b) + 1) / 2) as u8
}

pub fn average4(a: u8, b: u8, c: u8, d: u8) -> u8
    ensures { result ≡ average4 a b c d }
{
    ((u16::from(a) + u16::from(b) + u16::from(c) + u16::from(d) + 2) / 4) as u8
}

// A predicted sample in place of an old one, or averaged with it.
pub fn stored_sample(interpolate: bool, old: u8, new: u8) -> u8
    ensures { result ≡ stored_sample interpolate old new }
{
    if interpolate {
        return average2(old, new);
    }
    new
}
