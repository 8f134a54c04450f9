// The tables that a case is lent.
ghost use Rattle.std.specs.Prelude.{◌≡◌};
ghost use Rattle.codes.specs.DecodingTables.{tables_with};
ghost use Rattle.codes.specs.Matrices.{intra_quant_matrix, non_intra_quant_matrix};

use codes::lent::Tables;
use codes::matrices::{INTRA_QUANT_MATRIX, NON_INTRA_QUANT_MATRIX};
use tables::tables::tables_with;

// Those with the default matrices.
#[tactic(auto, unfolding(codes::specs::Matrices::intra_quant_matrix, codes::specs::Matrices::non_intra_quant_matrix))]
pub fn default_tables() -> Tables
    ensures { result ≡ tables_with intra_quant_matrix non_intra_quant_matrix }
{
    tables_with(&INTRA_QUANT_MATRIX, &NON_INTRA_QUANT_MATRIX)
}
