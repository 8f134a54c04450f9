// Bytes that memory has before a call: noise that the maker of the Rust's answers computes, too.
ghost use Rattle.std.specs.Prelude.{◌≡◌, length};
ghost use Rattle.laws.specs.Stores.{store_row};
ghost use Rattle.answer_lists.specs.Noise.{noise};

#[tactic(auto, unfolding(crate::specs::Noise::noise))]
fn noise(seed: u32, i: usize) -> u8
    ensures { result ≡ noise seed i }
{
    let x = i % 65536 + seed as usize % 65536;
    (x * x * 40503 / 4096 % 256) as u8
}

// As much of it as there is room for.
pub fn fill(d: &mut [u8], seed: u32)
    ensures { d.new ≡ store_row d.old 0 (noise seed) (length d.old) }
{
    for (i, byte) in d.iter_mut().enumerate() {
        *byte = noise(seed, i);
    }
}
