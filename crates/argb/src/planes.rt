// The picture that is converted.
ghost use Rattle.argb.specs.Scaled.{picture, PlanesFit};

// The display size, the width of plane Y, and the planes, which hold samples for all of that size.
#[derive(Clone, Copy)]
pub struct Planes<'a> {
    pub width: usize,
    pub height: usize,
    pub luma_width: usize,
    pub y: &'a [u8],
    pub cr: &'a [u8],
    pub cb: &'a [u8],
    pub ghost fit: { PlanesFit (picture width height luma_width y.now cr.now cb.now) },
}
