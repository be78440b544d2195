// What a job is made of.
ghost use Rattle.std.specs.Prelude.{◌≡◌, ◌≤◌};
ghost use Rattle.job.specs.Parts.{window_at, content_of, bytes_of, job_of};

use crate::section::Section;
use crate::sections::Sections;
use memory::peek::peek_word;
use state::device::Window;
use std::cmp::min;

// Bytes of the input, from `start` up to `end`.
#[derive(Clone, Copy, Debug, PartialEq, Eq)]
pub struct Part {
    pub start: usize,
    pub end: usize,
}

#[derive(Clone, Copy, Debug, PartialEq, Eq)]
pub struct Job {
    pub window0: Window,
    pub window1: Window,
    pub window2: Window,
    pub window3: Window,
    pub ring0: Part,
    pub ring1: Part,
    pub ring2: Part,
    pub ring3: Part,
    pub pack: Part,
    pub memory: Part,
}

#[tactic(auto, unfolding(crate::specs::Parts::window_at))]
fn window_at(input: &[u8], k: usize) -> Window
    requires { k ≤ 3 }
    ensures { result ≡ window_at input.now k }
{
    Window {
        start: peek_word(input, 4 + 8 * k),
        length: peek_word(input, 8 + 8 * k),
    }
}

fn content_of(section: Section) -> Part
    ensures { result ≡ content_of section }
{
    Part {
        start: section.start,
        end: section.end,
    }
}

// The bytes of a part that are there.
#[tactic(auto, using(crate::proofs::PartLaws::bytes_some, crate::proofs::PartLaws::bytes_none))]
pub fn bytes_of(input: &[u8], part: Part) -> &[u8]
    ensures { result.now ≡ bytes_of input.now part }
{
    let end = min(part.end, input.len());
    if part.start <= end {
        &input[part.start..end]
    } else {
        &[]
    }
}

// The job of an input with these sections.
#[tactic(auto, unfolding(crate::specs::Parts::job_of))]
pub fn job_of(input: &[u8], sections: Sections) -> Job
    ensures { result ≡ job_of input.now sections }
{
    Job {
        window0: window_at(input, 0),
        window1: window_at(input, 1),
        window2: window_at(input, 2),
        window3: window_at(input, 3),
        ring0: content_of(sections.ring0),
        ring1: content_of(sections.ring1),
        ring2: content_of(sections.ring2),
        ring3: content_of(sections.ring3),
        pack: Part {
            start: sections.ring3.end,
            end: sections.code.end,
        },
        memory: content_of(sections.memory),
    }
}
