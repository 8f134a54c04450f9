// The count for C.
ghost use Rattle.std.specs.Prelude.{◌≡◌};
ghost use Rattle.count.specs.Count.{counts, counts_in};

use count::run;

// RULES R: opening and the hand-outs up to the first number, which is the answer: 1 or 3 to 6 from opening, 7 where all pictures were handed out, or
// 8 or 9. `pictures`: how many were handed out.
#[unsafe(no_mangle)]
pub extern "C" fn mpeg1_count(stream: &[u8], store: &mut [u8], pictures: &mut usize) -> u32
    ensures { counts result pictures.new store.new ≡ counts_in stream.now store.old }
{
    run::mpeg1_count(stream, store, pictures)
}
