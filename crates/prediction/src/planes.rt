// The planes of a store: Y, Cr and Cb one after the other, by rows (RULES 6.11).
ghost use Rattle.std.specs.Prelude.{◌≡◌, ◌≤◌, ◌<◌};
ghost use Rattle.prediction.specs.Planes.{block_size, plane_of, plane_length, plane_start};

// Bytes of a macroblock in the three stores.
pub const MACROBLOCK_STORES: usize = 1152;

#[derive(Clone, Copy, Debug, PartialEq, Eq)]
pub enum Plane {
    Y,
    Cr,
    Cb,
}

// The size of a macroblock's block in the plane.
pub fn block_size(q: Plane) -> usize
    ensures { result ≡ block_size q }
{
    match q {
        Plane::Y => 16,
        Plane::Cr | Plane::Cb => 8,
    }
}

// The plane of block 0 to 5 of a macroblock.
pub fn plane_of(number: usize) -> Plane
    ensures { result ≡ plane_of number }
{
    match number {
        0..=3 => Plane::Y,
        4 => Plane::Cb,
        _ => Plane::Cr,
    }
}

// Bytes of the plane, for n macroblocks.
pub fn plane_length(q: Plane, n: usize) -> usize
    requires { n ≤ 65536 }
    ensures { result ≡ plane_length q n }
{
    match q {
        Plane::Y => 256 * n,
        Plane::Cr | Plane::Cb => 64 * n,
    }
}

// Where the plane of store k begins in the lent memory.
pub fn plane_start(k: usize, q: Plane, n: usize) -> usize
    requires k_bound { k < 3 }
    requires n_bound { n ≤ 65536 }
    ensures { result ≡ plane_start k q n }
{
    let start = k * (384 * n);
    match q {
        Plane::Y => start,
        Plane::Cr => start + 256 * n,
        Plane::Cb => start + 320 * n,
    }
}
