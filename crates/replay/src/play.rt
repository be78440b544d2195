// A job played on a fresh device.
ghost use Rattle.std.specs.Prelude.{◌≡◌, ◌≤◌, Ok};
ghost use Rattle.state.specs.Device.{Shaped};
ghost use Rattle.device.specs.Turn.{ring_in, call_of};
ghost use Rattle.device.specs.Untaken.{untaken_in};
ghost use Rattle.job.specs.Parse.{parts_of};
ghost use Rattle.spelling.specs.Put.{Spelled};
ghost use Rattle.replay.specs.Transcript.{all_lines, empty_pipe, first_call, job_text, transcript_of};

use crate::room::large_buffer;
use crate::text::Text;
use device::fresh::make;
use device::turn::{Answer, turn};
use job::parse::take_apart;
use job::parts::{Job, bytes_of};
use state::device::Device;
use state::rings::Rings;

// Turns until idle or refused. Each served turn takes bytes of a ring, so the loop ends and the text has room.
#[tactic(auto, unfolding(crate::specs::Transcript::empty_pipe, device::specs::Untaken::untaken_in))]
fn play_turns(device: Device, memory: &mut [u8], rings: Rings<'_>, pack: &[u8], text: &mut Text)
    requires { Shaped device × (untaken_in (ring_in (call_of memory.old rings.ring0.now rings.ring1.now rings.ring2.now rings.ring3.now pack.now empty_pipe)) device ≤ 61440) × (text.old.size ≡ 0) }
    ensures { Spelled (all_lines 0 device (call_of memory.old rings.entry.ring0.now rings.entry.ring1.now rings.entry.ring2.now rings.entry.ring3.now pack.now empty_pipe)) text.old.bytes text.new.bytes text.new.size }
{
    let mut pipe = [0u8; 1020];
    let mut d = device;
    let mut turns: u32 = 0;
    loop {
        let turned = turn(d, memory, rings, pack, &mut pipe);
        let answer = turned.answer;
        match answer {
            Answer::Served(report) => {
                turns += 1;
                text.append_turn(turns, report);
            }
            Answer::Idle => return text.append_idle(turns),
            Answer::Refused(why) => return text.append_refused(why.into()),
        }
        d = turned.device;
    }
}

// The job's rings on a device. Its memory is a copy of the job's words, in a buffer of this function.
#[tactic(auto, using(crate::proofs::Fits::memory_short, crate::proofs::Fits::as_much, crate::proofs::JobText::first_call_lem))]
fn play_on(device: Device, input: &[u8], job: Job, text: &mut Text)
    requires { Shaped device × (parts_of input.now ≡ Ok job) × (text.old.size ≡ 0) }
    ensures { Spelled (all_lines 0 device (first_call input.now job)) text.old.bytes text.new.bytes text.new.size }
{
    let words = bytes_of(input, job.memory);
    let rings = Rings {
        ring0: bytes_of(input, job.ring0),
        ring1: bytes_of(input, job.ring1),
        ring2: bytes_of(input, job.ring2),
        ring3: bytes_of(input, job.ring3),
    };
    let pack = bytes_of(input, job.pack);
    let mut memory = large_buffer();
    let memory = &mut memory[..words.len()];
    memory.copy_from_slice(words);
    play_turns(device, memory, rings, pack, text)
}

#[tactic(auto, using(crate::proofs::JobText::fresh_for_lem, crate::proofs::JobText::made_text))]
fn play(input: &[u8], job: Job, text: &mut Text)
    requires { (parts_of input.now ≡ Ok job) × (text.old.size ≡ 0) }
    ensures { Spelled (job_text input.now job) text.old.bytes text.new.bytes text.new.size }
{
    let words = bytes_of(input, job.memory);
    let windows = [job.window0, job.window1, job.window2, job.window3];
    let made = make(words.len(), windows);
    let answer = made.answer;
    match answer {
        Ok(()) => {
            let device = made.device;
            play_on(device, input, job, text)
        }
        Err(why) => text.append_refused(why.into()),
    }
}

// The whole text that an input prints.
#[tactic(auto, using(crate::proofs::JobText::accepted_text, crate::proofs::JobText::refused_text, crate::proofs::TextLaws::alone))]
pub fn transcribe(input: &[u8], text: &mut Text)
    ensures { Spelled (transcript_of input.now) text.old.bytes text.new.bytes text.new.size }
{
    text.clear();
    match take_apart(input) {
        Ok(job) => play(input, job, text),
        Err(fault) => text.append_refused(u32::from(fault)),
    }
}
