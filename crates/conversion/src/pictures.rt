// RULES part 9: the picture in a store, and the area that it is converted into.
ghost use Rattle.std.specs.Prelude.{◌≡◌, ◌&&◌, ◌*◌, ◌≤◌, leb, length};
ghost use borrow.Rule.Slice.PartMut.{mid_of};
ghost use Rattle.prediction.specs.Planes.{plane_start, plane_length, stores_bytes};
ghost use Rattle.argb.specs.Scaled.{scaled};
ghost use Rattle.conversion.specs.Pictures.{picture_in};
ghost use Rattle.conversion.specs.HasHeader.{HasHeader};

use argb::planes::Planes;
use argb::scaled::write_rgb_scaled;
use header::state::Sequence;
use prediction::planes::{Plane, plane_length, plane_start};

// RULES Q11, QE: the area has `room` numbers.
pub fn fits(w: usize, h: usize, room: usize) -> bool
    ensures { result ≡ (leb w 4096 && leb h 4096 && leb (w * h) room) }
{
    w <= 4096 && h <= 4096 && w * h <= room
}

// RULES 6.11: a plane of the store number k, for n macroblocks.
fn plane(store: &[u8], k: usize, q: Plane, n: usize) -> &[u8]
    requires k_bound { (k ≤ 2) × (n ≤ 65536) }
    requires n_in_bounds { stores_bytes n ≤ length store.now }
    ensures { result.now ≡ mid_of (plane_start k q n) (plane_length q n) store.now }
{
    let start = plane_start(k, q, n);
    &store[start..start + plane_length(q, n)]
}

// RULES 9.1, 9.2: the picture in the store number `index`.
pub fn write_picture(q: Sequence, store: &[u8], index: usize, area: &mut [u32], w: usize, h: usize)
    requires has_header { HasHeader q }
    requires mb_size_in_bounds { stores_bytes q.sizes.mb_size ≤ length store.now }
    requires index_bound { (index ≤ 2) × (w ≤ 4096) × (h ≤ 4096) × (w * h ≤ length area.old) }
    ensures { area.new ≡ scaled (picture_in q store.now index) w h area.old }
{
    let n = q.sizes.mb_size;
    let y = plane(store, index, Plane::Y, n);
    let cr = plane(store, index, Plane::Cr, n);
    let cb = plane(store, index, Plane::Cb, n);
    let planes = Planes {
        width: q.width,
        height: q.height,
        luma_width: q.sizes.mb_width * 16,
        y,
        cr,
        cb,
    };
    write_rgb_scaled(&planes, area, w, h);
}
