// RULES 2.7: the order of coefficients and the matrices.
ghost use Rattle.std.specs.Prelude.{◌≡◌};
ghost use Rattle.codes.specs.Matrices.{zig_zag, intra_quant_matrix, non_intra_quant_matrix, premultiplier_matrix, bounded};

pub const ZIG_ZAG: [u8; 64] = [
    0, 1, 8, 16, 9, 2, 3, 10, 17, 24, 32, 25, 18, 11, 4, 5, 12, 19, 26, 33, 40, 48, 41, 34, 27, 20,
    13, 6, 7, 14, 21, 28, 35, 42, 49, 56, 57, 50, 43, 36, 29, 22, 15, 23, 30, 37, 44, 51, 58, 59,
    52, 45, 38, 31, 39, 46, 53, 60, 61, 54, 47, 55, 62, 63,
];

pub const INTRA_QUANT_MATRIX: [u8; 64] = [
    8, 16, 19, 22, 26, 27, 29, 34, 16, 16, 22, 24, 27, 29, 34, 37, 19, 22, 26, 27, 29, 34, 34, 38,
    22, 22, 26, 27, 29, 34, 37, 40, 22, 26, 27, 29, 32, 35, 40, 48, 26, 27, 29, 32, 35, 40, 48, 58,
    26, 27, 29, 34, 38, 46, 56, 69, 27, 29, 35, 38, 46, 56, 69, 83,
];

pub const NON_INTRA_QUANT_MATRIX: [u8; 64] = [16; 64];

pub const PREMULTIPLIER_MATRIX: [u8; 64] = [
    32, 44, 42, 38, 32, 25, 17, 9, 44, 62, 58, 52, 44, 35, 24, 12, 42, 58, 55, 49, 42, 33, 23, 12,
    38, 52, 49, 44, 38, 30, 20, 10, 32, 44, 42, 38, 32, 25, 17, 9, 25, 35, 33, 30, 25, 20, 14, 7,
    17, 24, 23, 20, 17, 14, 9, 5, 9, 12, 12, 10, 9, 7, 5, 2,
];

// A constant has no clauses: docs/CLAIMS.md names those of the functions (RULES 2.7).
#[tactic(auto, unfolding(crate::specs::Matrices::zig_zag, crate::specs::Matrices::down_from, crate::specs::Matrices::diagonals))]
pub fn zig_zag() -> [u8; 64]
    ensures { result ≡ zig_zag }
{
    ZIG_ZAG
}

#[tactic(auto, unfolding(crate::specs::Matrices::intra_quant_matrix))]
pub fn intra_quant_matrix() -> [u8; 64]
    ensures { result ≡ intra_quant_matrix }
{
    INTRA_QUANT_MATRIX
}

#[tactic(auto, unfolding(crate::specs::Matrices::non_intra_quant_matrix))]
pub fn non_intra_quant_matrix() -> [u8; 64]
    ensures { result ≡ non_intra_quant_matrix }
{
    NON_INTRA_QUANT_MATRIX
}

pub fn premultiplier_matrix() -> [i32; 64]
    ensures { result ≡ premultiplier_matrix }
{
    PREMULTIPLIER_MATRIX.map(|premultiplier| i32::from(premultiplier))
}

// Whether the transform can take the coefficients (RULES 4.4). No early end, so that several are tested at once.
pub fn bounded(block: &[i32; 64]) -> bool
    ensures { result ≡ bounded block.now }
{
    let premultipliers = PREMULTIPLIER_MATRIX;
    let mut all = true;
    for i in 0..64 {
        all &= block[i].unsigned_abs() <= 2048 * u32::from(premultipliers[i]);
    }
    all
}
