// What a section must be so as not to be refused.
ghost use Rattle.std.specs.Prelude.{◌≡◌};
ghost use Rattle.job.specs.Checks.{windows_sound, kernels_sound, code_sound, memory_sound};

use crate::kernels::{all_have_words, all_lie_in_code};
use crate::section::{Section, is_whole};
use pack::kernels::{MOST_CODE, MOST_KERNELS};

const MOST_MEMORY: u32 = 4096;

#[tactic(auto, unfolding(crate::specs::Checks::windows_sound))]
pub fn windows_are_sound(input: &[u8], windows: Section) -> bool
    ensures { result ≡ windows_sound input.now windows }
{
    is_whole(input, windows) & (windows.count == 4)
}

#[tactic(auto, unfolding(crate::specs::Checks::kernels_sound))]
pub fn kernels_are_sound(input: &[u8], kernels: Section) -> bool
    ensures { result ≡ kernels_sound input.now kernels }
{
    is_whole(input, kernels) & (kernels.count <= MOST_KERNELS)
        && all_have_words(input, kernels.start, kernels.count)
}

#[tactic(auto, unfolding(crate::specs::Checks::code_sound))]
pub fn code_is_sound(input: &[u8], code: Section, kernels: Section) -> bool
    ensures { result ≡ code_sound input.now code kernels }
{
    is_whole(input, code) & (code.count <= MOST_CODE)
        && all_lie_in_code(input, kernels.start, code.count, kernels.count)
}

#[tactic(auto, unfolding(crate::specs::Checks::memory_sound))]
pub fn memory_is_sound(input: &[u8], memory: Section) -> bool
    ensures { result ≡ memory_sound input.now memory }
{
    is_whole(input, memory) & (memory.count <= MOST_MEMORY)
}
