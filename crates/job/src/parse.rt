// The input taken apart: a job, or the first thing that is wrong with it.
ghost use Rattle.std.specs.Prelude.{◌≡◌};
ghost use Rattle.job.specs.Parse.{parts_of};

use crate::checks::{code_is_sound, kernels_are_sound, memory_is_sound, windows_are_sound};
use crate::fault::Fault;
use crate::parts::{Job, job_of};
use crate::section::is_whole;
use crate::sections::sections_of;
use state::refusal::refuse_unless;

pub const MOST_BYTES: usize = 61440;

#[tactic(auto, unfolding(crate::specs::Parse::parts_of, crate::specs::Parse::unless))]
pub fn take_apart(input: &[u8]) -> Result<Job, Fault>
    ensures { result ≡ parts_of input.now }
{
    refuse_unless(input.len() <= MOST_BYTES, Fault::TooManyBytes)?;
    let sections = sections_of(input);
    let kernels = sections.kernels;
    let code = sections.code;
    refuse_unless(windows_are_sound(input, sections.windows), Fault::Windows)?;
    refuse_unless(is_whole(input, sections.ring0), Fault::Ring0)?;
    refuse_unless(is_whole(input, sections.ring1), Fault::Ring1)?;
    refuse_unless(is_whole(input, sections.ring2), Fault::Ring2)?;
    refuse_unless(is_whole(input, sections.ring3), Fault::Ring3)?;
    refuse_unless(kernels_are_sound(input, kernels), Fault::Kernels)?;
    refuse_unless(code_is_sound(input, code, kernels), Fault::Code)?;
    refuse_unless(memory_is_sound(input, sections.memory), Fault::Memory)?;
    refuse_unless(input.len() <= sections.memory.end, Fault::BytesLeftOver)?;
    Ok(job_of(input, sections))
}
