// One recorded call, made again.
ghost use Rattle.std.specs.Prelude.{◌≡◌};
ghost use Rattle.recorded.specs.Call.{call_seen};

use crate::fresh::Named;
use crate::{fresh, turn};
use memory::peek::peek_word;

// What became of it, and whether all is as recorded. The status is that of a report: 0 served, 1 idle, else refused.
#[derive(Clone, Copy, Debug, PartialEq, Eq)]
pub enum Seen {
    Fresh(bool),
    Turn(u32, bool),
    Damaged,
}

#[tactic(auto, unfolding(crate::specs::Call::call_seen))]
pub fn compare(body: &[u8]) -> Seen
    ensures { result ≡ call_seen body.now }
{
    match peek_word(body, 0) {
        0 => fresh::compare(body, Named::Nothing),
        1 => turn::compare(body),
        2 => fresh::compare(body, Named::Limit),
        3 => fresh::compare(body, Named::LimitAndFirst),
        _ => Seen::Damaged,
    }
}
