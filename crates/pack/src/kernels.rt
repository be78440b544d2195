// The kernel pack: count K, K pairs (first word, words), count N, N code words, nothing after.
ghost use Rattle.std.specs.Prelude.{◌≡◌, ◌+◌};
ghost use Rattle.memory.specs.Place.{word_at};
ghost use Rattle.pack.specs.Kernels.{kernel_count, first_word, kernel_words, code_count, lies_in_code, all_lie, sound_pack, kernel_of, code_word};

use memory::peek::peek_word;

pub const MOST_KERNELS: u32 = 16;

pub const MOST_CODE: u32 = 16384;

// Where the pairs start in a pack.
const PAIRS_START: usize = 4;

// The bytes of the pack that are a kernel's code.
#[derive(Clone, Copy, Debug, PartialEq, Eq)]
pub struct Kernel {
    pub start: usize,
    pub length: usize,
}

#[tactic(auto, unfolding(crate::specs::Kernels::kernel_count))]
pub fn kernel_count(pack: &[u8]) -> u32
    ensures { result ≡ kernel_count pack.now }
{
    peek_word(pack, 0)
}

// The word at a place of the bytes from `start` on, which may lie past the end.
fn word_from(bytes: &[u8], start: usize, at: usize) -> u32
    ensures { result ≡ word_at bytes.now (start + at) }
{
    match bytes.get(start..) {
        Some(part) => peek_word(part, at),
        None => 0,
    }
}

// The first word of kernel k, by the pairs (first word, words) from `start` on.
#[tactic(auto, unfolding(crate::specs::Kernels::first_word))]
pub fn first_word(bytes: &[u8], start: usize, k: u32) -> u32
    ensures { result ≡ first_word bytes.now start k }
{
    word_from(bytes, start, 8 * k as usize)
}

// Its words.
#[tactic(auto, unfolding(crate::specs::Kernels::kernel_words))]
pub fn kernel_words(bytes: &[u8], start: usize, k: u32) -> u32
    ensures { result ≡ kernel_words bytes.now start k }
{
    word_from(bytes, start, 8 * k as usize + 4)
}

#[tactic(auto, unfolding(crate::specs::Kernels::code_count))]
fn code_count(pack: &[u8]) -> u32
    ensures { result ≡ code_count pack.now }
{
    let kernels = kernel_count(pack) as usize;
    peek_word(pack, PAIRS_START + 8 * kernels)
}

#[tactic(auto, unfolding(crate::specs::Kernels::lies_in_code))]
fn lies_in_code(pack: &[u8], k: u32) -> bool
    ensures { result ≡ lies_in_code pack.now k }
{
    let first = first_word(pack, PAIRS_START, k) as usize;
    let words = kernel_words(pack, PAIRS_START, k) as usize;
    let code = code_count(pack) as usize;
    (1 <= words) & (first + words <= code)
}

fn all_lie(pack: &[u8], n: u32) -> bool
    ensures { result ≡ all_lie pack.now n }
{
    (0..n).all(|k| lies_in_code(pack, k))
}

// Not faulty: within its limits, nothing after the code, each kernel in the code.
#[tactic(auto, unfolding(crate::specs::Kernels::sound_pack))]
pub fn is_sound(pack: &[u8]) -> bool
    ensures { result ≡ sound_pack pack.now }
{
    let kernels = kernel_count(pack);
    let code = code_count(pack);
    let size = 8 + 8 * kernels as usize + 4 * code as usize;
    let counts = (kernels <= MOST_KERNELS) & (code <= MOST_CODE);
    // A count that is too large is not looped over.
    counts & (pack.len() == size) && all_lie(pack, kernels)
}

#[tactic(auto, unfolding(crate::specs::Kernels::kernel_of))]
pub fn kernel_at(pack: &[u8], k: u32) -> Kernel
    ensures { result ≡ kernel_of pack.now k }
{
    let kernels = kernel_count(pack) as usize;
    let first = first_word(pack, PAIRS_START, k) as usize;
    let words = kernel_words(pack, PAIRS_START, k) as usize;
    Kernel {
        start: 8 + 8 * kernels + 4 * first,
        length: 4 * words,
    }
}

// The code word at a place of a kernel, in bytes from the kernel's start.
pub fn code_word(pack: &[u8], kernel: Kernel, place: u32) -> u32
    ensures { result ≡ code_word pack.now kernel place }
{
    word_from(pack, kernel.start, place as usize)
}
