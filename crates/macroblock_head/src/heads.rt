// RULES 7.13 to 7.16: what a macroblock has before its blocks.
ghost use Rattle.std.specs.Prelude.{◌≡◌};
ghost use Rattle.bits.specs.Programs.{done, when◌then◌else◌};
ghost use Rattle.bits.specs.Runs.{ReaderInBounds, RunsInBounds};
ghost use Rattle.picture_state.specs.Possible.{PossibleMotion, PossibleSlice};
ghost use Rattle.picture_state.specs.State.{zeroed, with_is_set, dc_reset};
ghost use Rattle.macroblock_head.specs.Heads.{macroblock_type, scale, vector, vectors, flagged, vectors_reset, head, pattern};
ghost use Rattle.macroblock_head.specs.Promises.{PossibleMotions};

use bits::reader::{Read, Reader};
use codes::codes::{
    read_code_block_pattern, read_macroblock_type_b, read_macroblock_type_intra,
    read_macroblock_type_predictive,
};
use codes::lent::Tables;
use motion::vector::decode_motion_vector;
use picture_state::flags::MacroblockType;
use picture_state::types::{Motion, Slice};

// RULES 7.13: the macroblock type, by the table of the picture's type.
pub fn read_macroblock_type(
    s: &[u8],
    reader: Reader,
    tables: &Tables,
    picture_type: u32,
) -> Read<u32>
    requires reader_in_bounds { ReaderInBounds s.now reader }
    ensures { RunsInBounds (macroblock_type picture_type) s.now reader result.value result.reader }
{
    match picture_type {
        1 => read_macroblock_type_intra(s, reader, tables),
        2 => read_macroblock_type_predictive(s, reader, tables),
        _ => read_macroblock_type_b(s, reader, tables),
    }
}

// The vector 0 (RULES 7.19).
pub fn zeroed(m: Motion) -> Motion
    ensures { result ≡ zeroed m }
{
    Motion { h: 0, v: 0, ..m }
}

pub fn is_set_as(m: Motion, is: bool) -> Motion
    ensures { result ≡ with_is_set is m }
{
    Motion { is_set: is, ..m }
}

// RULES 5.7: a vector, the horizontal component first.
fn read_vector(s: &[u8], reader: Reader, tables: &Tables, m: Motion) -> Read<Motion>
    requires reader_in_bounds { ReaderInBounds s.now reader }
    requires possible_motion { PossibleMotion m }
    ensures { RunsInBounds (vector m) s.now reader result.value result.reader }
{
    let h = decode_motion_vector(s, reader, tables, m.r_size, m.h);
    let v = decode_motion_vector(s, h.reader, tables, m.r_size, m.v);
    Read {
        reader: v.reader,
        value: Motion {
            h: h.value,
            v: v.value,
            ..m
        },
    }
}

// RULES 7.15: a direction's vector, read with its flag set; without it, it goes back to 0 where `resets` says so.
fn read_motion(s: &[u8], reader: Reader, tables: &Tables, resets: bool, m: Motion) -> Read<Motion>
    requires reader_in_bounds { ReaderInBounds s.now reader }
    requires possible_motion { PossibleMotion m }
    ensures { RunsInBounds (when m.is_set then vector m else when resets then done (zeroed m) else done m)
        s.now reader result.value result.reader }
{
    if m.is_set {
        return read_vector(s, reader, tables, m);
    }
    if resets {
        return Read {
            reader,
            value: zeroed(m),
        };
    }
    Read { reader, value: m }
}

// The forward vector first: in a P picture it goes back to 0 without its flag. Here and in `read_scale` `..before` gets no proof, as it does in
// `flagged`, whose clause is on a value: the state of a run is read back, and of the address, a cast of itself, no clause says that it fits.
fn read_vectors(
    s: &[u8],
    reader: Reader,
    tables: &Tables,
    picture_type: u32,
    mut before: Slice,
) -> Read<Slice>
    requires reader_in_bounds { ReaderInBounds s.now reader }
    requires possible_motions { PossibleMotions before }
    ensures { RunsInBounds (vectors picture_type before) s.now reader result.value result.reader }
{
    let f = read_motion(s, reader, tables, picture_type == 2, before.motion_forward);
    let b = read_motion(s, f.reader, tables, false, before.motion_backward);
    before.motion_forward = f.value;
    before.motion_backward = b.value;
    Read {
        reader: b.reader,
        value: before,
    }
}

// RULES 7.13: 5 bits of scale with flag 16.
fn read_scale(s: &[u8], reader: Reader, t: MacroblockType, mut before: Slice) -> Read<Slice>
    requires { ReaderInBounds s.now reader }
    ensures { RunsInBounds (scale t.0 before) s.now reader result.value result.reader }
{
    if t.has_scale() {
        let q = reader.read(s, 5);
        before.quantizer_scale = q.value;
        return Read {
            reader: q.reader,
            value: before,
        };
    }
    Read {
        reader,
        value: before,
    }
}

// RULES 7.13: the flags "forward vector" and "backward vector".
fn flagged(t: MacroblockType, before: Slice) -> Slice
    ensures { result ≡ flagged t.0 before }
{
    Slice {
        motion_forward: is_set_as(before.motion_forward, t.has_forward()),
        motion_backward: is_set_as(before.motion_backward, t.has_backward()),
        ..before
    }
}

// RULES 7.14: an intra macroblock sets both vectors to 0.
fn vectors_reset(before: Slice) -> Slice
    ensures { result ≡ vectors_reset before }
{
    Slice {
        motion_forward: zeroed(before.motion_forward),
        motion_backward: zeroed(before.motion_backward),
        ..before
    }
}

// RULES 7.20: the DC predictors go back to 128.
pub fn reset(before: Slice) -> Slice
    ensures { result ≡ dc_reset before }
{
    Slice {
        dc_predictor: [128; 3],
        ..before
    }
}

// RULES 7.13, 7.14: behind the macroblock type t: scale, resets, vectors.
pub fn read_head(
    s: &[u8],
    reader: Reader,
    tables: &Tables,
    picture_type: u32,
    t: MacroblockType,
    before: Slice,
) -> Read<Slice>
    requires reader_in_bounds { ReaderInBounds s.now reader }
    requires possible_slice { PossibleSlice before }
    ensures { RunsInBounds (head picture_type t.0 before) s.now reader result.value result.reader }
{
    let q = read_scale(s, reader, t, flagged(t, before));
    if t.is_intra() {
        return Read {
            reader: q.reader,
            value: vectors_reset(q.value),
        };
    }
    read_vectors(s, q.reader, tables, picture_type, reset(q.value))
}

// RULES 7.16: read with flag 2; else 63 for an intra macroblock, and 0 for any other.
pub fn read_pattern(s: &[u8], reader: Reader, tables: &Tables, t: MacroblockType) -> Read<u32>
    requires reader_in_bounds { ReaderInBounds s.now reader }
    ensures { RunsInBounds (pattern t.0) s.now reader result.value result.reader }
{
    if t.has_pattern() {
        return read_code_block_pattern(s, reader, tables);
    }
    if t.is_intra() {
        return Read { reader, value: 63 };
    }
    Read { reader, value: 0 }
}
