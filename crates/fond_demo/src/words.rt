//! The words that a seed gives.

ghost use Rattle.fond_demo.specs.Words.{drawn_words};
ghost use Rattle.std.specs.Prelude.{◌≡◌, IfOk};

use fond_text::fault::NoMemory;
use rand_core::SeedableRng;
use rand_core::utils::NextWord;
use rand_pcg::Lcg64Xsh32;
use std::alloc::Global;

/// The first words, this many, of the generator that this number seeds.
pub fn draw_words(alloc: Global, seed: u64, count: u32) -> Result<Vec<u32>, NoMemory>
    ensures { IfOk result (λ words. words.items ≡ drawn_words seed count) }
{
    let mut generator = Lcg64Xsh32::seed_from_u64(seed);
    let mut words = Vec::new(alloc);
    for _ in 0..count {
        words.push(generator.next_word())?;
    }
    Ok(words)
}
