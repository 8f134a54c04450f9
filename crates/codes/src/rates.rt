// RULES 2.8, 2.9: aspect ratios and picture rates.
ghost use Rattle.std.specs.Prelude.{◌≡◌};
ghost use Rattle.codes.specs.Rates.{pixel_aspect_ratio, picture_rate};

pub const PIXEL_ASPECT_RATIO: [f64; 14] = [
    1.0000, 0.6735, 0.7031, 0.7615, 0.8055, 0.8437, 0.8935, 0.9157, 0.9815, 1.0255, 1.0695, 1.0950,
    1.1575, 1.2051,
];

pub const PICTURE_RATE: [f64; 16] = [
    0.000, 23.976, 24.000, 25.000, 29.970, 30.000, 50.000, 59.940, 60.000, 0.000, 0.000, 0.000,
    0.000, 0.000, 0.000, 0.000,
];

// A constant has no clauses: docs/CLAIMS.md names those of the functions (RULES 2.8, 2.9).
pub fn pixel_aspect_ratio() -> [f64; 14]
    ensures { result ≡ pixel_aspect_ratio }
{
    PIXEL_ASPECT_RATIO
}

pub fn picture_rate() -> [f64; 16]
    ensures { result ≡ picture_rate }
{
    PICTURE_RATE
}
