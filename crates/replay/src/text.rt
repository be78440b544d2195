// The text that a job prints.
ghost use Rattle.std.specs.Prelude.{◌≡◌, ◌+◌, ◌≤◌, length, take};
ghost use Rattle.spelling.specs.Line.{idle_line, refused_line};
ghost use Rattle.replay.specs.Text.{Appended, empty_text};
ghost use Rattle.replay.specs.Transcript.{served_line};

use command::outcome::number;
use device::turn::Report;
use spelling::line::Line;

// Room for 4,096 lines. No job has more than 3,841: its rings have at most 61,440 bytes, and a command at least 16.
pub const TEXT_BYTES: usize = 262144;

// Puts the bytes after the first `n`, and answers how many are written then.
pub fn append(text: &mut [u8], n: usize, bytes: &[u8]) -> usize
    requires { n + length bytes.now ≤ length text.old }
    ensures { Appended bytes.now n text.old text.new result }
{
    let end = n + bytes.len();
    text[n..end].copy_from_slice(bytes);
    end
}

// The line of a served turn. No line has more than 64 bytes.
#[tactic(auto, unfolding(device::specs::Answer::values_of))]
pub fn append_turn(text: &mut [u8], n: usize, turn: u32, report: Report) -> usize
    requires { n + 64 ≤ length text.old }
    ensures appended { Appended (served_line turn report) n text.old text.new result }
    ensures upper_bound { result ≤ n + 64 }
{
    let line = Line::of_turn(
        turn,
        report.ring,
        number(report.outcome),
        report.fence.unwrap_or(0),
        report.words,
    );
    append(text, n, line.as_bytes())
}

pub fn append_idle(text: &mut [u8], n: usize, turns: u32) -> usize
    requires { n + 64 ≤ length text.old }
    ensures appended { Appended (idle_line turns) n text.old text.new result }
    ensures upper_bound { result ≤ n + 64 }
{
    append(text, n, Line::of_idle(turns).as_bytes())
}

pub fn append_refused(text: &mut [u8], n: usize, number: u32) -> usize
    requires { n + 64 ≤ length text.old }
    ensures appended { Appended (refused_line number) n text.old text.new result }
    ensures upper_bound { result ≤ n + 64 }
{
    append(text, n, Line::of_refused(number).as_bytes())
}

// Text that grows: the first `size` bytes are written.
#[derive(Drop)]
pub struct Text {
    bytes: [u8; TEXT_BYTES],
    size: usize,
    ghost room: { length bytes ≡ 262144 },
    ghost inside: { size ≤ 262144 },
}

impl Text {
    // Over any bytes; none of them is written yet.
    pub fn over(bytes: [u8; TEXT_BYTES]) -> Text
        ensures same_bytes { result.bytes ≡ bytes }
        ensures nothing_written { result.size ≡ 0 }
    {
        Text { bytes, size: 0 }
    }

    #[tactic(auto, unfolding(crate::specs::Text::empty_text))]
    pub fn empty() -> Text
        ensures zeros { result.bytes ≡ empty_text }
        ensures nothing_written { result.size ≡ 0 }
    {
        Text::over([0; TEXT_BYTES])
    }

    // What is written.
    pub fn as_bytes(&self) -> &[u8]
        ensures { result.now ≡ take self.now.size self.now.bytes }
    {
        &self.bytes[..self.size]
    }

    // Begins anew, over the same bytes.
    pub fn clear(&mut self)
        ensures same_bytes { self.new.bytes ≡ self.old.bytes }
        ensures nothing_written { self.new.size ≡ 0 }
    {
        self.size = 0;
    }

    pub fn append_turn(&mut self, turn: u32, report: Report)
        requires { self.old.size + 64 ≤ 262144 }
        ensures appended { Appended (served_line turn report) self.old.size self.old.bytes self.new.bytes self.new.size }
        ensures upper_bound { self.new.size ≤ self.old.size + 64 }
    {
        self.size = append_turn(&mut self.bytes, self.size, turn, report);
    }

    pub fn append_idle(&mut self, turns: u32)
        requires { self.old.size + 64 ≤ 262144 }
        ensures appended { Appended (idle_line turns) self.old.size self.old.bytes self.new.bytes self.new.size }
        ensures upper_bound { self.new.size ≤ self.old.size + 64 }
    {
        self.size = append_idle(&mut self.bytes, self.size, turns);
    }

    pub fn append_refused(&mut self, number: u32)
        requires { self.old.size + 64 ≤ 262144 }
        ensures appended { Appended (refused_line number) self.old.size self.old.bytes self.new.bytes self.new.size }
        ensures upper_bound { self.new.size ≤ self.old.size + 64 }
    {
        self.size = append_refused(&mut self.bytes, self.size, number);
    }
}
