// Reading lent bytes of any length: a byte past the end reads 0.
ghost use Rattle.std.specs.Prelude.{◌≡◌, get_or};
ghost use Rattle.memory.specs.Place.{word_at};

use words::bytes::word;

pub fn peek_byte(bytes: &[u8], at: usize) -> u8
    ensures { result ≡ get_or bytes.now at 0 }
{
    if at < bytes.len() { bytes[at] } else { 0 }
}

#[tactic(auto, unfolding(crate::specs::Place::word_at))]
pub fn peek_word(bytes: &[u8], at: usize) -> u32
    ensures { result ≡ word_at bytes.now at }
{
    // From the end on a word is 0; before it the sums below fit.
    if bytes.len() <= at {
        return 0;
    }
    word(
        bytes[at],
        peek_byte(bytes, at + 1),
        peek_byte(bytes, at + 2),
        peek_byte(bytes, at + 3),
    )
}
