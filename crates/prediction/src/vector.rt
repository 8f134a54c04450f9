// A vector of a prediction in half samples (RULES 6.2), no component of which goes further than a vector of the bit stream can.
ghost use Rattle.std.specs.Prelude.{◌≤◌, nat_abs};

#[derive(Clone, Copy)]
pub struct Vector {
    pub h: i32,
    pub v: i32,
    pub ghost in_reach: { (nat_abs h ≤ 2048) × (nat_abs v ≤ 2048) },
}
