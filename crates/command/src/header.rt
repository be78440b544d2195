// The command at a ring's cursor.
ghost use Rattle.std.specs.Prelude.{◌≡◌, ◌≤◌};
ghost use Rattle.command.specs.Frame.{held_by};
ghost use Rattle.command.specs.Header.{wait_size, payload_size, target_at, command_at, is_whole};

use crate::flags::Flags;
use crate::frame::Frame;
use crate::opcode::Opcode;
use memory::peek::{peek_byte, peek_word};

#[derive(Clone, Copy, Debug, PartialEq, Eq)]
pub struct Command {
    // The byte that names the opcode.
    pub byte: u8,
    // None if that byte is not in the table.
    pub opcode: Option<Opcode>,
    pub flags: Flags,
    pub rdst: u8,
    pub len: u8,
    pub arg0: u32,
    pub arg1: u32,
    pub arg2: u32,
    // The number waited for; 0 without a wait.
    pub target: u32,
    // The place in the ring where the payload starts.
    pub payload: usize,
    pub size: usize,
}

impl Command {
    // The frame that SET_FB asks for.
    #[tactic(auto, unfolding(crate::specs::Frame::held_by))]
    pub fn frame(self) -> Frame
        ensures { result ≡ held_by self }
    {
        Frame {
            base: self.arg0,
            stride: self.arg1,
            format: self.arg2,
        }
    }
}

#[tactic(auto, unfolding(crate::specs::Header::wait_size))]
fn wait_size(flags: Flags) -> usize
    ensures { result ≡ wait_size flags }
{
    if flags.wait() { 4 } else { 0 }
}

#[tactic(auto, unfolding(crate::specs::Header::payload_size))]
fn payload_size(flags: Flags, len: u8) -> usize
    ensures { result ≡ payload_size flags len }
{
    if flags.payload() { 4 * len as usize } else { 0 }
}

#[tactic(auto, unfolding(crate::specs::Header::target_at))]
fn target_at(ring: &[u8], cursor: usize, flags: Flags) -> u32
    requires { cursor ≤ 65536 }
    ensures { result ≡ target_at ring.now cursor flags }
{
    if flags.wait() {
        peek_word(ring, cursor + 16)
    } else {
        0
    }
}

// Any bytes are a command; a byte past the ring's end reads 0.
#[tactic(auto, using(crate::proofs::Sizes::wait_size_most, crate::proofs::Sizes::payload_size_most), unfolding(crate::specs::Header::command_at))]
pub fn command_at(ring: &[u8], cursor: usize) -> Command
    requires { cursor ≤ 65536 }
    ensures { result ≡ command_at ring.now cursor }
{
    let named = peek_byte(ring, cursor);
    let flags = Flags(peek_byte(ring, cursor + 1));
    let len = peek_byte(ring, cursor + 3);
    let head = 16 + wait_size(flags);
    Command {
        byte: named,
        opcode: Opcode::try_from(named).ok(),
        flags,
        rdst: peek_byte(ring, cursor + 2),
        len,
        arg0: peek_word(ring, cursor + 4),
        arg1: peek_word(ring, cursor + 8),
        arg2: peek_word(ring, cursor + 12),
        target: target_at(ring, cursor, flags),
        payload: cursor + head,
        size: head + payload_size(flags, len),
    }
}

// Whether all of the command at the cursor, which the caller has read, is there.
#[tactic(auto, using(crate::proofs::Sizes::size_by_len), unfolding(crate::specs::Header::is_whole))]
pub fn is_whole(ring: &[u8], cursor: usize, command: Command) -> bool
    requires { (cursor ≤ 65536) × (command ≡ command_at ring.now cursor) }
    ensures { result ≡ is_whole ring.now cursor }
{
    cursor + command.size <= ring.len()
}
