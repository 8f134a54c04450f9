// RULES 7.2: the slices of a picture, with the turn of the stores.
ghost use Rattle.std.specs.Prelude.{◌≡◌, ℕ, ◌≤◌, ◌<◌, eqb, nat_abs, length, get_or};
ghost use Rattle.bits.specs.Programs.{when◌then◌else◌};
ghost use Rattle.bits.specs.Runs.{ReaderInBounds};
ghost use Rattle.codes.specs.Matrices.{Bounded};
ghost use Rattle.picture_state.specs.Possible.{PossiblePicture};
ghost use Rattle.picture.specs.Pictures.{picture_state, context_of, roles_while_reading, roles_after_reading, slices_in_roles};
ghost use Rattle.picture_state.specs.Promises.{StoreFits};
ghost use Rattle.picture.specs.Promises.{RefinesPicture};
ghost use Rattle.picture.specs.CodeResults.{progress_of};

use crate::pictures::read_slices;
use bits::reader::Reader;
use picture_state::types::{
    Context, Matrices, Picture, PictureProgress, Sizes, SlicesProgress, Stores,
};
use tables::tables::tables_with;

// The roles of the stores while the slices of a picture are read, and after them.
#[derive(Clone, Copy)]
struct Roles {
    pub during: Stores,
    pub afterwards: Stores,
}

// They turn unless it is a B picture.
fn roles_of(picture_type: u32, t: Stores) -> Roles
    ensures during_value { result.during ≡ (when eqb picture_type 3 then t else roles_while_reading t) }
    ensures afterwards_value { result.afterwards ≡ (when eqb picture_type 3 then t else roles_after_reading t) }
{
    if picture_type == 3 {
        return Roles {
            during: t,
            afterwards: t,
        };
    }
    let during = Stores { fwd: t.bwd, ..t };
    let afterwards = Stores {
        cur: t.fwd,
        fwd: t.bwd,
        bwd: t.cur,
    };
    Roles { during, afterwards }
}

// The picture whose slices were read, with these roles.
fn picture_of(g: Context, stores: Stores, t: SlicesProgress) -> PictureProgress
    requires { nat_abs t.code ≤ 255 }
    ensures { result ≡ progress_of g stores t }
{
    PictureProgress {
        reader: t.reader,
        picture: Picture {
            picture_type: g.picture_type,
            start_code: t.code,
            stores,
            slice: t.state,
        },
        stop: t.stop,
    }
}

// The slices, with the turn of the stores. The tables are made here, once a picture.
pub fn read_slices_in_roles(
    s: &[u8],
    reader: Reader,
    store: &mut [u8],
    values: &mut [i32; 64],
    sizes: Sizes,
    matrices: &Matrices,
    p: Picture,
) -> PictureProgress
    requires reader_in_bounds { ReaderInBounds s.now reader }
    requires possible_picture { PossiblePicture p }
    requires bounded { Bounded values.old }
    requires store_fits { StoreFits (context_of sizes p) store.old }
    ensures { RefinesPicture (slices_in_roles sizes matrices.now (picture_state p values.old store.old))
        s.now reader result values.new store.new }
{
    let tables = tables_with(
        &matrices.intra_quant_matrix,
        &matrices.non_intra_quant_matrix,
    );
    let roles = roles_of(p.picture_type, p.stores);
    let g = Context {
        picture_type: p.picture_type,
        sizes,
        stores: roles.during,
    };
    let t = read_slices(s, reader, store, values, &tables, g, p.start_code, p.slice);
    picture_of(g, roles.afterwards, t)
}
