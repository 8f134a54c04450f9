// The format of a record: how long its parts are, the most that each number may be, and the values of its fields, as `fields` has them.
ghost use Rattle.std.specs.Prelude.{◌≡◌, take};
ghost use Rattle.memory.specs.Fields.{fields, numbers_of, integers_of, clock_of, TypedNumbers};

use decoder::record::Decoder;

pub const NUMBERS: usize = 21;

pub const INTEGERS: usize = 73;

pub const MATRICES: usize = 128;

pub const CLOCK: usize = 4;

const FLAG: usize = 1;

const WORD32: usize = u32::MAX as usize;

const SIZE: usize = usize::MAX;

pub const BOUNDS: [usize; NUMBERS] = [
    SIZE, FLAG, SIZE, SIZE, SIZE, SIZE, SIZE, WORD32, SIZE, SIZE, SIZE, WORD32, FLAG, FLAG, WORD32,
    FLAG, FLAG, WORD32, FLAG, WORD32, WORD32,
];

// The numbers, in the order of `fields`.
pub fn numbers_of(d: Decoder) -> [usize; NUMBERS]
    ensures { (result ≡ numbers_of d) × TypedNumbers fields.numbers d }
{
    let q = d.sequence;
    let p = d.state.picture;
    let s = p.slice;
    let f = s.motion_forward;
    let b = s.motion_backward;
    [
        d.state.position.0,
        usize::from(q.has_sequence_header),
        q.width,
        q.height,
        q.sizes.mb_width,
        q.sizes.mb_height,
        q.sizes.mb_size,
        p.picture_type as usize,
        p.stores.cur,
        p.stores.fwd,
        p.stores.bwd,
        s.quantizer_scale as usize,
        usize::from(f.full_px),
        usize::from(f.is_set),
        f.r_size as usize,
        usize::from(b.full_px),
        usize::from(b.is_set),
        b.r_size as usize,
        usize::from(d.state.display.has_reference_frame),
        d.state.display.frames_decoded as usize,
        d.stop as usize,
    ]
}

// The integers that stand alone.
pub fn single_integers(d: Decoder) -> [i32; 6]
    ensures { result ≡ take 6 (integers_of d) }
{
    let p = d.state.picture;
    let s = p.slice;
    let f = s.motion_forward;
    let b = s.motion_backward;
    [p.start_code, s.macroblock_address, f.h, f.v, b.h, b.v]
}

pub fn clock_of(d: Decoder) -> [f64; 4]
    ensures { result ≡ clock_of d }
{
    let c = d.state.display.clock;
    [c.framerate, c.pixel_aspect_ratio, c.time, c.last_frame_time]
}
