// A recorded making of a fresh device.
ghost use Rattle.std.specs.Prelude.{◌≡◌};
ghost use Rattle.capi.specs.Calls.{Freshens};
ghost use Rattle.recorded.specs.Fresh.{pieces_of, are_words, are_whole, Laid, fresh_made, fresh_seen};

use crate::call::Seen;
use crate::piece::{is_same, laid, length_of, number_of, place_of, word_of};
use capi::calls::{WINDOWS_BYTES, fresh_call, fresh_with_call};
use capi::image::IMAGE_BYTES;
use state::edition::Start;

// What a making names beside the windows: nothing, a limit, or a limit and edition 2's starting number.
#[derive(Clone, Copy, Debug, PartialEq, Eq)]
pub enum Named {
    Nothing,
    Limit,
    LimitAndFirst,
}

// How many pieces a record has: what is named comes last.
fn pieces_of(named: Named) -> usize
    ensures { result ≡ pieces_of named }
{
    match named {
        Named::Nothing => 5,
        Named::Limit => 6,
        Named::LimitAndFirst => 7,
    }
}

// Whether what is named is of 4 bytes.
#[tactic(auto, unfolding(crate::specs::Fresh::are_words))]
fn are_words(body: &[u8], named: Named) -> bool
    ensures { result ≡ are_words body.now named }
{
    match named {
        Named::Nothing => true,
        Named::Limit => length_of(body, 5) == 4,
        Named::LimitAndFirst => (length_of(body, 5) == 4) & (length_of(body, 6) == 4),
    }
}

// Whether the pieces have the lengths of those of a call.
#[tactic(auto, unfolding(crate::specs::Fresh::are_whole))]
fn are_whole(body: &[u8], named: Named) -> bool
    ensures { result ≡ are_whole body.now named }
{
    let is_call = (length_of(body, 0) == WINDOWS_BYTES) & (length_of(body, 2) == IMAGE_BYTES);
    let has_numbers = (length_of(body, 1) == 8) & (length_of(body, 4) == 4);
    is_call & has_numbers & are_words(body, named)
}

// Makes the recorded call on these pieces.
#[tactic(auto, unfolding(crate::specs::Fresh::fresh_made))]
fn make_again(image: &mut [u8], windows: &[u8], body: &[u8], named: Named) -> u32
    requires { Laid body.now image.old windows.now }
    ensures { Freshens image.new result (fresh_made body.now named) }
{
    let memory = number_of(body, 1);
    match named {
        Named::Nothing => fresh_call(image, windows, memory),
        Named::Limit => fresh_with_call(image, windows, memory, word_of(body, 5), Start::Edition1),
        Named::LimitAndFirst => {
            let limit = word_of(body, 5);
            let start = Start::Edition2(word_of(body, 6));
            fresh_with_call(image, windows, memory, limit, start)
        }
    }
}

#[tactic(auto, using(crate::proofs::Makings::whole_windows, crate::proofs::Makings::whole_image), unfolding(crate::specs::Fresh::fresh_seen, crate::specs::Fresh::fresh_recorded))]
pub fn compare(body: &[u8], named: Named) -> Seen
    ensures { result ≡ fresh_seen body.now named }
{
    if !are_whole(body, named) {
        return Seen::Damaged;
    }
    let mut windows_room = [0u8; WINDOWS_BYTES];
    let mut image_room = [0u8; IMAGE_BYTES];
    let windows = laid(&mut windows_room, body, 0);
    let image = laid(&mut image_room, body, 2);
    let status = make_again(image, windows, body, named);
    let is_answer = status as usize == number_of(body, 4);
    let is_all = place_of(body, pieces_of(named)) == body.len();
    Seen::Fresh(is_same(image, body, 3) & (is_answer & is_all))
}
