// Copies of words within a window, in place. Words and rows go in rising order, or in falling order if the destination lies higher:
// so no source word is written over before it is read. Of a rectangle this is enough, since its rows lie apart: its words rise with
// their number.
ghost use Rattle.std.specs.Prelude.{◌≡◌, cond, ◌+◌, ◌-◌, ◌*◌, ◌≤◌, ◌<◌, ltb, length};
ghost use Rattle.memory.specs.Rectangle.{rectangle_end, RowsApart};
ghost use Rattle.memory.specs.Copy.{copied, blitted};

use crate::place::{put_word, word_at};
use crate::rectangle::Rectangle;

// Which of `count` words or rows comes at a turn.
fn at_turn(to: usize, from: usize, count: usize, turn: usize) -> usize
    requires { turn < count }
    ensures { (result ≡ cond (ltb from to) (count - 1 - turn) turn) × (result < count) }
{
    if from < to { count - 1 - turn } else { turn }
}

pub fn copy(window: &mut [u8], to: usize, from: usize, words: usize)
    requires { (to + 4 * words ≤ length window.old) × (from + 4 * words ≤ length window.old) }
    ensures { window.new ≡ copied to from words window.old }
{
    for i in 0..words {
        let at = 4 * at_turn(to, from, words, i);
        let word = word_at(window, from + at);
        put_word(window, to + at, word);
    }
}

#[tactic(auto, unfolding(crate::specs::Copy::blitted))]
pub fn blit(window: &mut [u8], to: usize, from: usize, rectangle: Rectangle)
    requires { (rectangle_end to rectangle.stride rectangle.width rectangle.height ≤ length window.old) × (rectangle_end from rectangle.stride rectangle.width rectangle.height ≤ length window.old) × RowsApart rectangle.stride rectangle.width rectangle.height }
    ensures { window.new ≡ blitted to from rectangle.stride rectangle.width rectangle.height window.old }
{
    if rectangle.width == 0 {
        return;
    }
    for i in 0..rectangle.height {
        let row = at_turn(to, from, rectangle.height, i) * rectangle.stride;
        copy(window, to + row, from + row, rectangle.width);
    }
}
