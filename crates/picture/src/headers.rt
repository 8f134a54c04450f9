// RULES 7.1, 8.4 (11172-2, 2.4.2.5): the header of a picture, from behind its start code on.
ghost use Rattle.std.specs.Prelude.{◌≡◌};
ghost use Rattle.bits.specs.Runs.{ReaderInBounds, RunsInBounds};
ghost use Rattle.picture.specs.Pictures.{direction, has_zero_fcode, picture_header};
ghost use Rattle.picture.specs.CodeResults.{direction_of, header_of};

use bits::reader::{Read, Reader};

// Full-pel flag and f code of one direction.
#[derive(Clone, Copy)]
pub struct Direction {
    pub full_pel_vector: bool,
    pub f_code: u32,
}

#[derive(Clone, Copy)]
pub struct HeaderRead {
    pub reader: Reader,
    pub temporal_reference: u32,
    pub picture_coding_type: u32,
    pub vbv_delay: u32,
    pub forward: Option<Direction>,
    pub backward: Option<Direction>,
}

// Does the header have an f code of 0 for this direction?
pub fn is_zero(d: Option<Direction>) -> bool
    ensures { result ≡ has_zero_fcode (direction_of d) }
{
    matches!(d, Some(Direction { f_code: 0, .. }))
}

// One bit and three, if the header has them.
fn read_direction(s: &[u8], reader: Reader, present: bool) -> Read<Option<Direction>>
    requires { ReaderInBounds s.now reader }
    ensures { RunsInBounds (direction present) s.now reader (direction_of result.value) result.reader }
{
    if !present {
        return Read {
            reader,
            value: None,
        };
    }
    let full = reader.read_bit(s);
    let f = full.reader.read(s, 3);
    Read {
        reader: f.reader,
        value: Some(Direction {
            full_pel_vector: full.value != 0,
            f_code: f.value,
        }),
    }
}

// A P or B header has the forward direction, and a B header then the backward one, unless the forward f code is 0.
pub fn read_picture_header(s: &[u8], reader: Reader) -> HeaderRead
    requires { ReaderInBounds s.now reader }
    ensures { RunsInBounds picture_header s.now reader (header_of result) result.reader }
{
    let temporal = reader.read(s, 10);
    let t = temporal.reader.read(s, 3);
    let delay = t.reader.read(s, 16);
    let picture_coding_type = t.value;
    let is_b = picture_coding_type == 3;
    let f = read_direction(s, delay.reader, (picture_coding_type == 2) | is_b);
    let forward = f.value;
    let b = read_direction(s, f.reader, is_b & !is_zero(forward));
    let backward = b.value;
    HeaderRead {
        reader: b.reader,
        temporal_reference: temporal.value,
        picture_coding_type,
        vbv_delay: delay.value,
        forward,
        backward,
    }
}
