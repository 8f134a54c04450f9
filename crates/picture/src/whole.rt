// RULES 7.1 to 7.4, 8.4: a whole picture, from behind its start code on.
ghost use Rattle.std.specs.Prelude.{◌≡◌};
ghost use Rattle.bits.specs.Runs.{ReaderInBounds};
ghost use Rattle.codes.specs.Matrices.{Bounded};
ghost use Rattle.picture_state.specs.Possible.{PossiblePicture};
ghost use Rattle.picture.specs.Pictures.{picture_state, context_of, is_decoded, motion_by, with_picture_header, picture};
ghost use Rattle.picture_state.specs.Promises.{StoreFits};
ghost use Rattle.picture.specs.Promises.{RefinesPicture};
ghost use Rattle.picture.specs.CodeResults.{direction_of, header_of};

use crate::headers::{Direction, HeaderRead, is_zero, read_picture_header};
use crate::roles::read_slices_in_roles;
use bits::reader::Reader;
use picture_state::types::{Matrices, Motion, Picture, PictureProgress, Sizes};

// Flag and r of a motion, from its direction in the header; an f code of 0 leaves r as it was.
fn with_direction(mut m: Motion, d: Option<Direction>) -> Motion
    ensures { result ≡ motion_by (direction_of d) m }
{
    let Some(d) = d else {
        return m;
    };
    m.full_px = d.full_pel_vector;
    if d.f_code != 0 {
        m.r_size = d.f_code - 1;
    }
    m
}

// The picture p with what its header sets.
fn with_header(mut p: Picture, h: HeaderRead) -> Picture
    ensures { result ≡ with_picture_header (header_of h) p }
{
    p.picture_type = h.picture_coding_type;
    p.slice.motion_forward = with_direction(p.slice.motion_forward, h.forward);
    p.slice.motion_backward = with_direction(p.slice.motion_backward, h.backward);
    p
}

// Whether a picture with this header is decoded.
fn is_decoded(h: HeaderRead) -> bool
    ensures { result ≡ is_decoded (header_of h) }
{
    (1..=3).contains(&h.picture_coding_type) && !is_zero(h.forward) && !is_zero(h.backward)
}

// One that is not decoded ends behind its header.
pub fn read_picture(
    s: &[u8],
    reader: Reader,
    store: &mut [u8],
    values: &mut [i32; 64],
    sizes: Sizes,
    matrices: &Matrices,
    p: Picture,
) -> PictureProgress
    requires reader_in_bounds { ReaderInBounds s.now reader }
    requires possible_picture { PossiblePicture p }
    requires bounded { Bounded values.old }
    requires store_fits { StoreFits (context_of sizes p) store.old }
    ensures { RefinesPicture (picture sizes matrices.now (picture_state p values.old store.old))
        s.now reader result values.new store.new }
{
    let h = read_picture_header(s, reader);
    let headed = with_header(p, h);
    if is_decoded(h) {
        return read_slices_in_roles(s, h.reader, store, values, sizes, matrices, headed);
    }
    PictureProgress {
        reader: h.reader,
        picture: headed,
        stop: None,
    }
}
