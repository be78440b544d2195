// The calls over images, for Rattle code. Nothing is asked of what is lent.
ghost use Rattle.std.specs.Prelude.{◌≡◌};
ghost use Rattle.device.specs.Turn.{call_of};
ghost use Rattle.capi.specs.Calls.{is_served, image_after, windows_in, fresh_with_call, fresh_call, Freshens, turn_call, Leaves};

use crate::image::{IMAGE_BYTES, device_in, put_device};
use crate::lent::window_at;
use crate::report::{REPORT_BYTES, put_report};
use device::fresh::make_with;
use device::turn::{Answer, turn};
use state::device::{DEFAULT_LIMIT, Device, Window};
use state::edition::Start;
use state::rings::Rings;
use std::array::from_fn;

// An image, a report or windows of the wrong length: the call changes nothing.
pub const WRONG_IMAGE: u32 = 201;

pub const WRONG_REPORT: u32 = 202;

pub const WRONG_WINDOWS: u32 = 203;

pub const WINDOWS_BYTES: usize = 4 * 8;

fn four_windows(windows: &[u8; WINDOWS_BYTES]) -> [Window; 4]
    ensures { result ≡ windows_in windows.now }
{
    from_fn(|q| window_at(windows, 2 * q))
}

// With a limit and a start named. `memory` is the memory's length.
#[tactic(auto, unfolding(crate::specs::Calls::fresh_with_call))]
pub fn fresh_with_call(
    image: &mut [u8],
    windows: &[u8],
    memory: usize,
    limit: u32,
    start: Start,
) -> u32
    ensures { Freshens image.new result (fresh_with_call image.old windows.now memory limit start) }
{
    let Some(image) = image.as_mut_array::<IMAGE_BYTES>() else {
        return WRONG_IMAGE;
    };
    let Some(windows) = windows.as_array::<WINDOWS_BYTES>() else {
        return WRONG_WINDOWS;
    };
    let fresh = make_with(memory, four_windows(windows), limit, start);
    put_device(image, fresh.device);
    fresh.number()
}

// With neither named: edition 1.
pub fn fresh_call(image: &mut [u8], windows: &[u8], memory: usize) -> u32
    ensures { Freshens image.new result (fresh_call image.old windows.now memory) }
{
    fresh_with_call(image, windows, memory, DEFAULT_LIMIT, Start::Edition1)
}

fn is_served(answer: Answer) -> bool
    ensures { result ≡ is_served answer }
{
    matches!(answer, Answer::Served(_))
}

// An image that no command changed keeps its bytes, in normal form or not.
#[tactic(auto, unfolding(crate::specs::Calls::image_after))]
fn put_if_served(image: &mut [u8; IMAGE_BYTES], d: Device, answer: Answer)
    ensures { image.new ≡ image_after image.old d answer }
{
    if is_served(answer) {
        put_device(image, d);
    }
}

#[tactic(auto, using(crate::proofs::WrongReport::leaves_202), unfolding(crate::specs::Calls::turn_call, crate::specs::Calls::untouched, crate::specs::Calls::called_of))]
pub fn turn_call(
    image: &mut [u8],
    mem: &mut [u8],
    rings: Rings<'_>,
    pack: &[u8],
    pipe: &mut [u8],
    report: &mut [u8],
) -> u32
    ensures { Leaves image.new mem.new pipe.new report.new result (turn_call image.old report.old (call_of mem.old rings.entry.ring0.now rings.entry.ring1.now rings.entry.ring2.now rings.entry.ring3.now pack.now pipe.old)) }
{
    let Some(image) = image.as_mut_array::<IMAGE_BYTES>() else {
        return WRONG_IMAGE;
    };
    let Some(report) = report.as_mut_array::<REPORT_BYTES>() else {
        return WRONG_REPORT;
    };
    let turned = turn(device_in(image), mem, rings, pack, pipe);
    let device = turned.device;
    let answer = turned.answer;
    put_if_served(image, device, answer);
    put_report(report, answer)
}
