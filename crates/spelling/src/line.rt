// The lines that the replay job prints.
ghost use Rattle.std.specs.Prelude.{◌≡◌, ℕ, List, [], ◌∷◌, ◌++◌, ◌+◌, ◌≤◌, ◌<◌, length, take};
ghost use Rattle.spelling.specs.Put.{Spelled};
ghost use Rattle.spelling.specs.Decimal.{decimal};
ghost use Rattle.spelling.specs.Line.{turn_line, idle_line, refused_line};

use crate::decimal::put_field;
use std::marker::Model;

// No line is longer: five words of at most ten digits, each with the byte after it.
const ROOM: usize = 64;

// A line, which contracts see as its bytes.
#[derive(Drop)]
pub struct Line {
    bytes: [u8; ROOM],
    length: usize,
}

impl Model for Line {
    ghost Value = { List ℕ };

    ghost view = { λ line. take line.length line.bytes };

    ghost invariant = { λ line. line.length ≤ 64 };
}

impl Line {
    // The line of a served turn.
    #[tactic(auto, unfolding(crate::specs::Line::turn_line, crate::specs::Line::line_of))]
    pub fn of_turn(turn: u32, ring: u32, outcome: u32, fence: u32, words: u32) -> Line
        ensures { result ≡ turn_line turn ring outcome fence words }
    {
        let mut line = Line::empty();
        line.push_field(turn, b' ');
        line.push_field(ring, b' ');
        line.push_field(outcome, b' ');
        line.push_field(fence, b' ');
        line.push_field(words, b'\n');
        line
    }

    #[tactic(auto, unfolding(crate::specs::Line::idle_line, crate::specs::Line::line_of))]
    pub fn of_idle(turns: u32) -> Line
        ensures { result ≡ idle_line turns }
    {
        let mut line = Line::empty();
        line.push_all(b"idle ");
        line.push_field(turns, b'\n');
        line
    }

    #[tactic(auto, unfolding(crate::specs::Line::refused_line, crate::specs::Line::line_of))]
    pub fn of_refused(number: u32) -> Line
        ensures { result ≡ refused_line number }
    {
        let mut line = Line::empty();
        line.push_all(b"refused ");
        line.push_field(number, b'\n');
        line
    }

    pub fn as_bytes(&self) -> &[u8]
        ensures bytes { result.now ≡ self.now }
        ensures short { length result.now ≤ 64 }
    {
        &self.bytes[..self.length]
    }

    fn put(&self, out: &mut [u8; ROOM]) -> usize
        ensures { Spelled self.now out.old out.new result }
    {
        let bytes = self.as_bytes();
        out[..bytes.len()].copy_from_slice(bytes);
        bytes.len()
    }

    fn empty() -> Line
        ensures { result ≡ [] }
    {
        Line {
            bytes: [0; ROOM],
            length: 0,
        }
    }

    fn push(&mut self, byte: u8)
        requires { length self.old < 64 }
        ensures { self.new ≡ self.old ++ (byte ∷ []) }
    {
        self.bytes[self.length] = byte;
        self.length += 1;
    }

    fn push_all(&mut self, bytes: &[u8])
        requires { length self.old + length bytes.now ≤ 64 }
        ensures { self.new ≡ self.old ++ bytes.now }
    {
        for byte in bytes {
            self.push(*byte);
        }
    }

    // A number and the byte after it.
    fn push_field(&mut self, n: u32, last: u8)
        requires { length self.old + 11 ≤ 64 }
        ensures pushed { self.new ≡ self.old ++ (decimal n ++ (last ∷ [])) }
        ensures upper_bound { length self.new ≤ length self.old + 11 }
    {
        self.length = put_field(&mut self.bytes, self.length, n, last);
    }
}

// The same lines at the front of lent bytes; the answer of each of the three is the line's length.
pub fn spell_turn(
    out: &mut [u8; ROOM],
    turn: u32,
    ring: u32,
    outcome: u32,
    fence: u32,
    words: u32,
) -> usize
    ensures { Spelled (turn_line turn ring outcome fence words) out.old out.new result }
{
    Line::of_turn(turn, ring, outcome, fence, words).put(out)
}

pub fn spell_idle(out: &mut [u8; ROOM], turns: u32) -> usize
    ensures { Spelled (idle_line turns) out.old out.new result }
{
    Line::of_idle(turns).put(out)
}

pub fn spell_refused(out: &mut [u8; ROOM], number: u32) -> usize
    ensures { Spelled (refused_line number) out.old out.new result }
{
    Line::of_refused(number).put(out)
}
