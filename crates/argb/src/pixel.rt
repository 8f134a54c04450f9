// One sample as a pixel.
ghost use Rattle.std.specs.Prelude.{◌≡◌};
ghost use Rattle.argb.specs.Pixel.{argb};

use laws::clamp_u8;

pub fn pixel(y: u8, cr: u8, cb: u8) -> u32
    ensures { result ≡ argb y cr cb }
{
    let cr = i32::from(cr) - 128;
    let cb = i32::from(cb) - 128;
    let yy = ((i32::from(y) - 16) * 76309) >> 16;
    let r = yy + ((cr * 104597) >> 16);
    let g = yy - ((cb * 25674 + cr * 53278) >> 16);
    let b = yy + ((cb * 132201) >> 16);
    let rr = u32::from(clamp_u8(r));
    let gg = u32::from(clamp_u8(g));
    let bb = u32::from(clamp_u8(b));
    0xFF00_0000 + rr * 65536 + gg * 256 + bb
}
