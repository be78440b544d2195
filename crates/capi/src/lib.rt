// The device for programs in C: its state is an image of bytes that the caller keeps. The crate capi_c exports its calls.
#![tactic(auto)]

ghost use Rattle.state.specs.declared.edition.Start.TheVariants.{Edition1, Edition2};
ghost use Rattle.device.specs.Turn.{call_of};
ghost use Rattle.capi.specs.Calls.{fresh_call, fresh_with_call, Freshens, turn_call, Leaves};

pub mod by_type;
pub mod calls;
pub mod image;
pub mod lent;
pub mod report;

use crate::calls::{fresh_call, fresh_with_call, turn_call};
use state::edition::Start;
use state::rings::Rings;

// `memory` is the memory's length.
pub fn fv_fresh(device: &mut [u8], windows: &[u8], memory: u64) -> u32
    ensures { Freshens device.new result (fresh_call device.old windows.now memory) }
{
    fresh_call(device, windows, memory as usize)
}

// Of edition 1, with a limit named.
pub fn fv_fresh_with(device: &mut [u8], windows: &[u8], memory: u64, limit: u32) -> u32
    ensures { Freshens device.new result (fresh_with_call device.old windows.now memory limit Edition1) }
{
    fresh_with_call(device, windows, memory as usize, limit, Start::Edition1)
}

// Of edition 2, with a limit and the starting number of all slots named.
pub fn fv_fresh_edition_2(
    device: &mut [u8],
    windows: &[u8],
    memory: u64,
    limit: u32,
    first: u32,
) -> u32
    ensures { Freshens device.new result (fresh_with_call device.old windows.now memory limit (Edition2 first)) }
{
    fresh_with_call(
        device,
        windows,
        memory as usize,
        limit,
        Start::Edition2(first),
    )
}

pub fn fv_turn<'a>(
    device: &mut [u8],
    memory: &mut [u8],
    ring0: &'a [u8],
    ring1: &'a [u8],
    ring2: &'a [u8],
    ring3: &'a [u8],
    pack: &[u8],
    pipe: &mut [u8],
    report: &mut [u8],
) -> u32
    ensures { Leaves device.new memory.new pipe.new report.new result (turn_call device.old report.old (call_of memory.old ring0.now ring1.now ring2.now ring3.now pack.now pipe.old)) }
{
    let rings = Rings {
        ring0,
        ring1,
        ring2,
        ring3,
    };
    turn_call(device, memory, rings, pack, pipe, report)
}
