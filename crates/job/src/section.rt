// A section of the input: a 32-bit count, then what it counts.
ghost use Rattle.std.specs.Prelude.{◌≡◌, ◌+◌, ◌≤◌, ◌^◌};
ghost use Rattle.job.specs.Section.{section_at, is_whole};

use memory::peek::peek_word;

#[derive(Clone, Copy, Debug, PartialEq, Eq)]
pub struct Section {
    // Where its content starts.
    pub start: usize,
    pub count: u32,
    // Where its content ends.
    pub end: usize,
}

// The section at a place; each thing that it counts has `unit` bytes.
#[tactic(auto, unfolding(crate::specs::Section::section_at))]
pub fn section_at(input: &[u8], at: usize, unit: usize) -> Section
    requires { (at ≤ 2 ^ 40) × (unit ≤ 8) }
    ensures { (result ≡ section_at unit input.now at) × (result.start ≤ result.end) × (result.end ≤ at + 2 ^ 36) }
{
    let count = peek_word(input, at);
    let start = at + 4;
    let size = unit * count as usize;
    Section {
        start,
        count,
        end: start + size,
    }
}

// Its count and its content are all there.
pub fn is_whole(input: &[u8], section: Section) -> bool
    ensures { result ≡ is_whole input.now section }
{
    section.end <= input.len()
}
