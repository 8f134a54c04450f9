// Blocks of one plane predicted from another, and a macroblock's three planes from another store.
ghost use Rattle.std.specs.Prelude.{◌≡◌, ◌⊎◌, ◌+◌, ◌*◌, ◌≤◌, ◌<◌, length};
ghost use borrow.Rule.Slice.PartMut.{mid_of, put_mid};
ghost use Rattle.prediction.specs.Planes.{macroblocks, predict_plane, predict_plane_from_store, predicted_planes, stores_bytes};
ghost use Rattle.prediction.specs.Predict.{BlockInPlane, bytes, max_address, reach, predicted};

use crate::apart::predict_disjoint;
use crate::planes::{Plane, block_size, plane_start};
use crate::position::{BlockPosition, HalfSampleOutside, Macroblock, half_sample};
use crate::vector::Vector;
use laws::half;

// The block that begins at `at` in its plane, row by row. The planes begin at `from` and `to`, and are apart.
fn copy_block(
    store: &mut [u8],
    from: usize,
    to: usize,
    p: BlockPosition,
    h: i32,
    v: i32,
    interpolate: bool,
    at: usize,
)
    requires block_in_plane { BlockInPlane p }
    requires p_in_bounds { (from + bytes p ≤ length store.old) × (to + bytes p ≤ length store.old) }
    requires fact { (from + bytes p ≤ to) ⊎ (to + bytes p ≤ from) }
    requires v_bound { at + reach p h v ≤ max_address p }
    ensures { store.new ≡ put_mid to (bytes p) store.old
        (predicted p (mid_of from (bytes p) store.old) (mid_of to (bytes p) store.old) h v interpolate at) }
{
    let size = p.size;
    let dw = p.width();
    let di = p.address();
    let right = half_sample(h);
    let below = half_sample(v);
    predict_disjoint(
        store,
        from + at,
        to + di,
        dw,
        size,
        right,
        below,
        interpolate,
    );
}

// One block of the plane that begins at `to`, from the plane that begins at `from` (the Rust's process_macroblock).
#[tactic(auto, using(crate::proofs::Macroblocks::vectors, crate::proofs::Fetches::copied_in), unfolding(crate::specs::Planes::predict_from_source))]
pub fn predict_plane(
    store: &mut [u8],
    from: usize,
    to: usize,
    p: BlockPosition,
    vector: Vector,
    interpolate: bool,
) -> Result<(), HalfSampleOutside>
    requires block_in_plane { BlockInPlane p }
    requires p_in_bounds { (from + bytes p ≤ length store.old) × (to + bytes p ≤ length store.old) × ((from + bytes p ≤ to) ⊎ (to + bytes p ≤ from)) }
    ensures answer { result ≡ (predict_plane p from to vector.h vector.v interpolate store.old).answer }
    ensures store { store.new ≡ (predict_plane p from to vector.h vector.v interpolate store.old).store }
{
    if let Some(at) = p.prediction_source(vector)? {
        copy_block(store, from, to, p, vector.h, vector.v, interpolate, at);
    }
    Ok(())
}

// One plane of the store number `to` from that of the store number `from`.
#[tactic(auto, using(crate::proofs::Macroblocks::vectors, crate::proofs::Macroblocks::stores))]
fn predict_one_plane(
    store: &mut [u8],
    m: Macroblock,
    from: usize,
    to: usize,
    q: Plane,
    vector: Vector,
    interpolate: bool,
) -> Result<(), HalfSampleOutside>
    requires from_bound { (from < 3) × (to < 3) × (to ≡ from → ⊥) }
    requires m_in_bounds { stores_bytes (macroblocks m) ≤ length store.old }
    ensures answer { result ≡ (predict_plane_from_store m from to interpolate q vector.h vector.v store.old).answer }
    ensures store { store.new ≡ (predict_plane_from_store m from to interpolate q vector.h vector.v store.old).store }
{
    let n = m.place.across * m.place.down;
    let source = plane_start(from, q, n);
    let target = plane_start(to, q, n);
    let p = m.place.block(block_size(q));
    predict_plane(store, source, target, p, vector, interpolate)
}

// The Rust's copy_or_interpolate_macroblock. The vector is in half samples. The planes go Y, Cr, Cb; a refusal ends it, with that
// plane not begun.
#[tactic(auto, using(crate::proofs::Macroblocks::vectors), unfolding(crate::specs::Planes::predicted_planes, crate::specs::Planes::and_then_plane))]
pub fn predict_macroblock_planes(
    store: &mut [u8],
    m: Macroblock,
    from: usize,
    to: usize,
    vector: Vector,
    interpolate: bool,
) -> Result<(), HalfSampleOutside>
    requires from_bound { (from < 3) × (to < 3) × (to ≡ from → ⊥) }
    requires m_in_bounds { stores_bytes (macroblocks m) ≤ length store.old }
    ensures answer { result ≡ (predicted_planes m from to vector.h vector.v interpolate store.old).answer }
    ensures store { store.new ≡ (predicted_planes m from to vector.h vector.v interpolate store.old).store }
{
    predict_one_plane(store, m, from, to, Plane::Y, vector, interpolate)?;
    let halved = Vector {
        h: half(vector.h),
        v: half(vector.v),
    };
    predict_one_plane(store, m, from, to, Plane::Cr, halved, interpolate)?;
    predict_one_plane(store, m, from, to, Plane::Cb, halved, interpolate)
}
