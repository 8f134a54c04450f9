// The eight-point step, which the Rust's idct has in line, once for columns and once for rows.
ghost use Rattle.std.specs.Prelude.{◌≡◌};
ghost use Rattle.transform.specs.Butterfly.{nth, eight, butterfly};
ghost use Rattle.transform.specs.Steps.{over256};
ghost use Rattle.laws.specs.Sizes.{AtMost};
ghost use Rattle.transform.specs.Bounds.{input_size, output_size};

// A column or a row. Fields and no array: the step names each of the eight, and none is indexed.
#[derive(Clone, Copy)]
pub struct Eight {
    pub v0: i32,
    pub v1: i32,
    pub v2: i32,
    pub v3: i32,
    pub v4: i32,
    pub v5: i32,
    pub v6: i32,
    pub v7: i32,
}

// RULES 4.1: the step on the eight numbers a.v0 .. a.v7, with the Rust's names.
pub fn butterfly(a: Eight) -> Eight
    requires { AtMost 8 input_size (nth a) }
    ensures { result ≡ butterfly a }
{
    let Eight {
        v0: m0,
        v1: a1,
        v2: a2,
        v3: a3,
        v4: b1,
        v5: a5,
        v6: a6,
        v7: a7,
    } = a;
    let b3 = a2 + a6;
    let b4 = a5 - a3;
    let tmp1 = a1 + a7;
    let tmp2 = a3 + a5;
    let b6 = a1 - a7;
    let b7 = tmp1 + tmp2;
    let x4 = ((b6 * 473 - b4 * 196 + 128) >> 8) - b7;
    let x0 = x4 - (((tmp1 - tmp2) * 362 + 128) >> 8);
    let x1 = m0 - b1;
    let x2 = (((a2 - a6) * 362 + 128) >> 8) - b3;
    let x3 = m0 + b1;
    let y3 = x1 + x2;
    let y4 = x3 + b3;
    let y5 = x1 - x2;
    let y6 = x3 - b3;
    let y7 = -x0 - ((b4 * 473 + b6 * 196 + 128) >> 8);
    Eight {
        v0: b7 + y4,
        v1: x4 + y3,
        v2: y5 - x0,
        v3: y6 - y7,
        v4: y6 + y7,
        v5: x0 + y5,
        v6: y3 - x4,
        v7: y4 - b7,
    }
}

// RULES 4.2: each of the eight over 256, to the nearest.
pub fn rounded(o: Eight) -> Eight
    requires { AtMost 8 output_size (nth o) }
    ensures { result ≡ eight (λ k. over256 (nth o k)) }
{
    Eight {
        v0: (o.v0 + 128) >> 8,
        v1: (o.v1 + 128) >> 8,
        v2: (o.v2 + 128) >> 8,
        v3: (o.v3 + 128) >> 8,
        v4: (o.v4 + 128) >> 8,
        v5: (o.v5 + 128) >> 8,
        v6: (o.v6 + 128) >> 8,
        v7: (o.v7 + 128) >> 8,
    }
}
