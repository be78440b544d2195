// Words in lent bytes, by their number.
ghost use Rattle.std.specs.Prelude.{◌≡◌, ◌+◌, ◌*◌, ◌≤◌, length};
ghost use Rattle.std.proofs.lemmas.List.Edits.{sets};
ghost use Rattle.capi.specs.Image.{bytes_of, word_in, words_in, window_at};

use memory::place::{put_word, word_at};
use state::device::Window;
use std::array::from_fn;

pub fn word_in(bytes: &[u8], k: usize) -> u32
    requires { 4 * k + 4 ≤ length bytes.now }
    ensures { result ≡ word_in bytes.now k }
{
    word_at(bytes, 4 * k)
}

#[tactic(auto, unfolding(crate::specs::Image::window_at))]
pub fn window_at(bytes: &[u8], k: usize) -> Window
    requires { 4 * k + 8 ≤ length bytes.now }
    ensures { result ≡ window_at bytes.now k }
{
    Window {
        start: word_in(bytes, k),
        length: word_in(bytes, k + 1),
    }
}

// The words become those from word k on.
#[tactic(auto, unfolding(crate::specs::Image::bytes_of))]
pub fn put_words(bytes: &mut [u8], k: usize, words: &[u32])
    requires { 4 * k + 4 * length words.now ≤ length bytes.old }
    ensures { bytes.new ≡ sets bytes.old (4 * k) (bytes_of words.now) }
{
    for (i, word) in words.iter().enumerate() {
        put_word(bytes, 4 * k + 4 * i, *word);
    }
}

// The lent words become the bytes' words from word k on, as many as they are.
#[tactic(auto, unfolding(crate::specs::Image::words_in))]
pub fn take_words(words: &mut [u32], bytes: &[u8], k: usize)
    requires { 4 * k + 4 * length words.old ≤ length bytes.now }
    ensures { words.new ≡ words_in bytes.now k (length words.old) }
{
    for i in 0..words.len() {
        words[i] = word_in(bytes, k + i);
    }
}

// The N words from word k on.
pub fn words_in<const N: usize>(bytes: &[u8], k: usize) -> [u32; N]
    requires { 4 * k + 4 * N ≤ length bytes.now }
    ensures { result ≡ words_in bytes.now k N }
{
    from_fn(|i| word_in(bytes, k + i))
}
