// RULES 6.12, 6.13: a block that was read, in the store.
ghost use Rattle.std.specs.Prelude.{◌≡◌, ◌+◌, ◌*◌, ◌≤◌, nat_abs, length};
ghost use Rattle.codes.specs.Matrices.{Bounded};
ghost use Rattle.coefficients.specs.Blocks.{block_coefficients, block_read_of, block_data_after};
ghost use Rattle.blocks.specs.Blocks.{results, written};
ghost use Rattle.picture_state.specs.Promises.{StoreFits, AddressInPicture};
ghost use Rattle.blocks.specs.Promises.{store_after};

use coefficients::block::{Block, BlockEnd, block_data_after};
use coefficients::quantiser::Quantiser;
use laws::clamp_u8;
use picture_state::types::Context;
use prediction::planes::{plane_length, plane_of, plane_start};
use prediction::position::macroblock_at;
use prediction::writers::{
    block_address, block_set_add, block_set_add_const, block_set_const, block_set_overwrite,
    block_width,
};
use transform::idct::{dc_only, idct};

// RULES 4.3, 6.13: the results of coefficients, n places of which are used, in a plane. The coefficients are used up.
fn results(d: &mut [u8], di: usize, dw: usize, values: &mut [i32; 64], q: Quantiser, n: usize)
    requires le_dw { 8 ≤ dw }
    requires dw_in_bounds { di + 7 * dw + 8 ≤ length d.old }
    requires bounded { Bounded values.old }
    ensures { d.new ≡ results q (block_coefficients values.old n) di dw d.old }
{
    let intra = q.intra;
    if n == 1 {
        let first = dc_only(values[0]);
        if intra {
            block_set_const(d, di, dw, clamp_u8(first));
            return;
        }
        block_set_add_const(d, di, dw, first);
        return;
    }
    idct(values);
    if intra {
        block_set_overwrite(d, di, dw, values);
        return;
    }
    block_set_add(d, di, dw, values);
}

// The results of a block that was read whole, in the store.
fn write_results(
    store: &mut [u8],
    values: &mut [i32; 64],
    g: Context,
    address: i32,
    number: usize,
    q: Quantiser,
    n: usize,
)
    requires store_fits { StoreFits g store.old }
    requires address_in_picture { AddressInPicture g address }
    requires bounded { Bounded values.old }
    ensures { store.new ≡ written g q number (nat_abs address) (block_coefficients values.old n) store.old }
{
    let m = macroblock_at(g.sizes.mb_width, g.sizes.mb_height, address as usize);
    let plane = plane_of(number);
    let start = plane_start(g.stores.cur, plane, g.sizes.mb_size);
    let end = start + plane_length(plane, g.sizes.mb_size);
    let di = block_address(m, number);
    let dw = block_width(m, number);
    results(&mut store[start..end], di, dw, values, q, n);
}

// What a block that was read does: only a whole one is written. The coefficients become what is left over.
pub fn write_block(
    store: &mut [u8],
    values: &mut [i32; 64],
    g: Context,
    address: i32,
    number: usize,
    q: Quantiser,
    r: Block,
)
    requires store_fits { StoreFits g store.old }
    requires address_in_picture { AddressInPicture g address }
    requires bounded { Bounded values.old }
    ensures store_after { store.new ≡ store_after g q number (nat_abs address) (block_read_of values.old r) store.old }
    ensures values_after { values.new ≡ block_data_after q (block_read_of values.old r) }
{
    let end = r.end;
    if let BlockEnd::Complete = end {
        write_results(store, values, g, address, number, q, r.n);
        block_data_after(values, q, r);
    }
}
