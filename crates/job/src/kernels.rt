// The pairs of section 6: each kernel's first word and words.
ghost use Rattle.std.specs.Prelude.{◌≡◌};
ghost use Rattle.words.specs.Choice.{all_below};
ghost use Rattle.job.specs.Kernels.{has_word, lies_in_code};

use pack::kernels::{first_word, kernel_words};

// Kernel k of the pairs from `start` on has a word.
#[tactic(auto, unfolding(crate::specs::Kernels::has_word))]
pub fn has_word(input: &[u8], start: usize, k: u32) -> bool
    ensures { result ≡ has_word input.now start k }
{
    1 <= kernel_words(input, start, k)
}

// Kernel k of the pairs from `start` on lies in `code` words.
#[tactic(auto, unfolding(crate::specs::Kernels::lies_in_code))]
pub fn lies_in_code(input: &[u8], start: usize, code: u32, k: u32) -> bool
    ensures { result ≡ lies_in_code input.now start code k }
{
    let first = first_word(input, start, k) as usize;
    let words = kernel_words(input, start, k) as usize;
    first + words <= code as usize
}

// Each of the first n kernels has a word.
pub fn all_have_words(input: &[u8], start: usize, n: u32) -> bool
    ensures { result ≡ all_below (has_word input.now start) n }
{
    (0..n).all(|k| has_word(input, start, k))
}

// Each of the first n kernels lies in `code` words.
pub fn all_lie_in_code(input: &[u8], start: usize, code: u32, n: u32) -> bool
    ensures { result ≡ all_below (lies_in_code input.now start code) n }
{
    (0..n).all(|k| lies_in_code(input, start, code, k))
}
