// The pieces of a record's body. Each has an entry there: its length, how many of its bytes are stored, and these. Its
// other bytes are 0.
ghost use Rattle.std.specs.Prelude.{◌≡◌, ◌≤◌, length};
ghost use Rattle.recorded.specs.Piece.{entry_end, place_of, entry_of, length_of, word_of, number_of, piece_bytes, is_piece};

use job::parts::{Part, bytes_of};
use memory::peek::{peek_byte, peek_word};

// Where the entry at a place of the body ends. From the body's end on there is none.
#[tactic(auto, unfolding(crate::specs::Piece::entry_end))]
fn entry_end(body: &[u8], at: usize) -> usize
    ensures { result ≡ entry_end body.now at }
{
    if body.len() <= at {
        return at;
    }
    at + 8 + peek_word(body, at + 4) as usize
}

// Where the entry of piece `k` starts, or the last one ends if there are k pieces.
#[tactic(auto, unfolding(crate::specs::Piece::place_of))]
pub fn place_of(body: &[u8], k: usize) -> usize
    ensures { result ≡ place_of body.now k }
{
    (0..k).fold(4, |at, _| entry_end(body, at))
}

#[tactic(auto, unfolding(crate::specs::Piece::entry_of))]
fn entry_of(body: &[u8], k: usize) -> &[u8]
    ensures { result.now ≡ entry_of body.now k }
{
    let start = place_of(body, k);
    let end = entry_end(body, start);
    bytes_of(body, Part { start, end })
}

#[tactic(auto, unfolding(crate::specs::Piece::length_of))]
pub fn length_of(body: &[u8], k: usize) -> usize
    ensures { result ≡ length_of body.now k }
{
    peek_word(entry_of(body, k), 0) as usize
}

// The word that piece `k` is, of four bytes.
#[tactic(auto, unfolding(crate::specs::Piece::word_of))]
pub fn word_of(body: &[u8], k: usize) -> u32
    ensures { result ≡ word_of body.now k }
{
    peek_word(entry_of(body, k), 8)
}

// The number that piece `k` is, of at most eight bytes.
#[tactic(auto, unfolding(crate::specs::Piece::number_of, crate::specs::Piece::word_of))]
pub fn number_of(body: &[u8], k: usize) -> usize
    ensures { result ≡ number_of body.now k }
{
    let entry = entry_of(body, k);
    let high = peek_word(entry, 12) as usize;
    4294967296 * high + peek_word(entry, 8) as usize
}

// Piece `k` laid to the front of the target, which is handed back as long as the piece.
#[tactic(auto, unfolding(crate::specs::Piece::first_bytes))]
pub fn laid<'a>(target: &'a mut [u8], body: &[u8], k: usize) -> &'a mut [u8]
    requires { length_of body.now k ≤ length target.old }
    ensures { result.now ≡ piece_bytes body.now k }
{
    let entry = entry_of(body, k);
    let n = length_of(body, k);
    for i in 0..n {
        target[i] = peek_byte(entry, 8 + i);
    }
    &mut target[0..n]
}

// Whether the bytes are those of piece `k`, all of them and no more.
#[tactic(auto, unfolding(crate::specs::Piece::same_as))]
pub fn is_same(bytes: &[u8], body: &[u8], k: usize) -> bool
    ensures { result ≡ is_piece bytes.now body.now k }
{
    let entry = entry_of(body, k);
    (bytes.len() == length_of(body, k))
        & (0..bytes.len()).all(|i| peek_byte(bytes, i) == peek_byte(entry, 8 + i))
}
