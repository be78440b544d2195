// The eight sections of the input, in their fixed order.
ghost use Rattle.std.specs.Prelude.{◌≡◌, ◌≤◌, ◌^◌};
ghost use Rattle.job.specs.Sections.{sections_of};

use crate::section::{Section, section_at};

const BYTE: usize = 1;

const WORD: usize = 4;

const PAIR: usize = 8;

#[derive(Clone, Copy, Debug, PartialEq, Eq)]
pub struct Sections {
    pub windows: Section,
    pub ring0: Section,
    pub ring1: Section,
    pub ring2: Section,
    pub ring3: Section,
    pub kernels: Section,
    pub code: Section,
    pub memory: Section,
}

// Each starts where the one before it ends.
#[tactic(auto, unfolding(crate::specs::Sections::sections_of, crate::specs::Sections::windows_of, crate::specs::Sections::ring0_of, crate::specs::Sections::ring1_of, crate::specs::Sections::ring2_of, crate::specs::Sections::ring3_of, crate::specs::Sections::kernels_of, crate::specs::Sections::code_of, crate::specs::Sections::memory_of))]
pub fn sections_of(input: &[u8]) -> Sections
    ensures { (result ≡ sections_of input.now) × (result.kernels.start ≤ 2 ^ 40) }
{
    let windows = section_at(input, 0, PAIR);
    let ring0 = section_at(input, windows.end, BYTE);
    let ring1 = section_at(input, ring0.end, BYTE);
    let ring2 = section_at(input, ring1.end, BYTE);
    let ring3 = section_at(input, ring2.end, BYTE);
    let kernels = section_at(input, ring3.end, PAIR);
    let code = section_at(input, kernels.end, WORD);
    let memory = section_at(input, code.end, WORD);
    Sections {
        windows,
        ring0,
        ring1,
        ring2,
        ring3,
        kernels,
        code,
        memory,
    }
}
