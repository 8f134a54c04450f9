// A picture as pixels of any size up to 4096 each way.
ghost use Rattle.std.specs.Prelude.{◌≡◌, ◌+◌, ◌*◌, ◌-◌, ◌/◌, ◌≤◌, ◌<◌, length, get_or};
ghost use Rattle.laws.specs.Stores.{store_row};
ghost use Rattle.argb.specs.Planes.{picture_of};
ghost use Rattle.argb.specs.Scaled.{sample_pixel, scaled};

use crate::pixel::pixel;
use crate::planes::Planes;

// The column of the samples that a column of the output shows, and what is left of the division that gives it.
#[derive(Clone, Copy)]
struct Column {
    sx: usize,
    rest: usize,
}

// One column further, without a division: step and part are quotient and remainder of the widths.
fn further(c: Column, dst_w: usize, step: usize, part: usize) -> Column
    requires rest_lt_dst_w { (c.rest < dst_w) × (part < dst_w) × (dst_w ≤ 4096) }
    requires sx_bound { (c.sx ≤ 4096) × (step ≤ 4096) }
    ensures { (result.sx * dst_w + result.rest ≡ c.sx * dst_w + c.rest + (step * dst_w + part)) × (result.rest < dst_w) }
{
    let sx = c.sx + step;
    let rest = c.rest + part;
    if rest < dst_w {
        return Column { sx, rest };
    }
    Column {
        sx: sx + 1,
        rest: rest - dst_w,
    }
}

// The row sy of the samples, scaled to dst_w pixels from `to` on.
fn write_row(planes: &Planes, sy: usize, dst: &mut [u32], dst_w: usize, to: usize)
    requires sy_lt_height { (sy < planes.now.height) × (1 ≤ dst_w) × (dst_w ≤ 4096) }
    requires dst_w_in_bounds { to + dst_w ≤ length dst.old }
    ensures { dst.new ≡ store_row dst.old to (λ x. sample_pixel (picture_of planes.now) (x * planes.now.width / dst_w) sy) dst_w }
{
    let y = planes.y;
    let cr = planes.cr;
    let cb = planes.cb;
    let width = planes.width;
    let luma_width = planes.luma_width;
    let y_row = sy * luma_width;
    let c_row = sy / 2 * (luma_width / 2);
    let step = width / dst_w;
    let part = width % dst_w;
    let mut c = Column { sx: 0, rest: 0 };
    for tx in 0..dst_w {
        let sx = c.sx;
        let ci = c_row + sx / 2;
        dst[to + tx] = pixel(y[y_row + sx], cr[ci], cb[ci]);
        c = further(c, dst_w, step, part);
    }
}

// The colours of the row sy of the samples, two for each place of Cr and Cb: vectors, since nothing is scaled yet.
fn colour_row(planes: &Planes, sy: usize, row: &mut [u32; 4096])
    requires sy_lt_height { sy < planes.now.height }
    ensures { row.new ≡ store_row row.old 0 (λ x. sample_pixel (picture_of planes.now) x sy) planes.now.luma_width }
{
    let y = planes.y;
    let cr = planes.cr;
    let cb = planes.cb;
    let luma_width = planes.luma_width;
    let pairs = luma_width / 2;
    let y_row = sy * luma_width;
    let c_row = sy / 2 * pairs;
    for k in 0..pairs {
        let r = cr[c_row + k];
        let b = cb[c_row + k];
        row[2 * k] = pixel(y[y_row + 2 * k], r, b);
        row[2 * k + 1] = pixel(y[y_row + (2 * k + 1)], r, b);
    }
}

// A row of colours of which `width` are shown, spread over dst_w pixels.
// `further` is what this loop and that of write_row share: over a closure for the colour, the clause would speak of its calls, and no longer of a value.
fn spread_row(row: &[u32; 4096], width: usize, dst: &mut [u32], dst_w: usize, to: usize)
    requires le_width { (1 ≤ width) × (width ≤ 4096) × (1 ≤ dst_w) × (dst_w ≤ 4096) }
    requires dst_w_in_bounds { to + dst_w ≤ length dst.old }
    ensures { dst.new ≡ store_row dst.old to (λ x. get_or row.now (x * width / dst_w) 0) dst_w }
{
    let step = width / dst_w;
    let part = width % dst_w;
    let mut c = Column { sx: 0, rest: 0 };
    for tx in 0..dst_w {
        let sx = c.sx;
        dst[to + tx] = row[sx];
        c = further(c, dst_w, step, part);
    }
}

// The row of dst_w pixels that ends at `to`, once more from `to` on. By a loop, which becomes vectors: `copy_within` takes up to half as long again on
// rows of a few pixels.
fn copy_row(dst: &mut [u32], dst_w: usize, to: usize)
    requires { (dst_w ≤ to) × (to + dst_w ≤ length dst.old) }
    ensures { dst.new ≡ store_row dst.old to (λ x. get_or dst.old (to - dst_w + x) 0) dst_w }
{
    let from = to - dst_w;
    for tx in 0..dst_w {
        dst[to + tx] = dst[from + tx];
    }
}

// Writes the picture, scaled to dst_w times dst_h, to the beginning of dst. A row that shows the same row of samples as the one before it is copied; where
// the output is not narrower than the picture, each colour is made once and then spread. `shown` is what the row before shows: at first what none shows.
pub fn write_rgb_scaled(planes: &Planes, dst: &mut [u32], dst_w: usize, dst_h: usize)
    requires dst_w_bound { (dst_w ≤ 4096) × (dst_h ≤ 4096) }
    requires dst_h_in_bounds { dst_w * dst_h ≤ length dst.old }
    ensures { dst.new ≡ scaled (picture_of planes.now) dst_w dst_h dst.old }
{
    if dst_w == 0 {
        return;
    }
    let width = planes.width;
    let height = planes.height;
    let mut row = [0u32; 4096];
    let mut shown = height;
    for ty in 0..dst_h {
        let sy = ty * height / dst_h;
        let to = ty * dst_w;
        if sy == shown {
            copy_row(dst, dst_w, to);
        } else if width <= dst_w {
            colour_row(planes, sy, &mut row);
            spread_row(&row, width, dst, dst_w, to);
        } else {
            write_row(planes, sy, dst, dst_w, to);
        }
        shown = sy;
    }
}
