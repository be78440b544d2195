// A turn: one command taken from the first ready ring.
ghost use Rattle.std.specs.Prelude.{◌≡◌, ◌+◌, ◌^◌, ◌<◌, length};
ghost use Rattle.state.specs.Device.{ring_of};
ghost use Rattle.device.specs.Turn.{emit_to, device_after, report_of, Shows, Servable, served_of, call_of, turn_of};

use command::header::{Command, command_at};
use command::outcome::Outcome;
use command::report::{emits_fence, raises_irq, words_read};
use kernel::site::Site;
use state::device::{Device, Ring};
use state::ready::{next_ring, pick};
use state::refusal::{Refusal, judge};
use state::rings::Rings;
use state::slots::{emit, emitted, is_full};
use work::perform::perform;
use work::work::Performed;

// What became of a command.
#[derive(Clone, Copy, Debug, PartialEq, Eq)]
pub struct Report {
    pub ring: u32,
    pub outcome: Outcome,
    // The number that the command's slot holds now, if the command emitted. It may be 0.
    pub fence: Option<u32>,
    // How many words were read to the pipe.
    pub words: u32,
    pub irq: bool,
    // Where a kernel's thread stopped, if one did.
    pub site: Site,
}

#[derive(Clone, Copy, Debug, PartialEq, Eq)]
pub enum Answer {
    Refused(Refusal),
    Idle,
    Served(Report),
}

#[derive(Clone, Copy)]
pub struct Turned {
    pub device: Device,
    pub answer: Answer,
}

#[tactic(auto, unfolding(crate::specs::Turn::emit_to))]
fn emit_to(emitting: bool, d: Device, n: u8) -> Device
    ensures { result ≡ emit_to emitting d n }
{
    if emitting {
        let slots = d.slots;
        d.with_slots(emit(slots, n))
    } else {
        d
    }
}

#[tactic(auto, unfolding(crate::specs::Turn::ring_after, crate::specs::Turn::device_after))]
fn device_after(d: Device, q: u32, command: Command, done: Performed) -> Device
    requires { (q < 4) × ((ring_of d q).cursor + command.size < 2 ^ 32) }
    ensures { result ≡ device_after d q command done }
{
    let outcome = done.outcome;
    let at = d.ring(q);
    let ring = Ring {
        window: at.window,
        cursor: at.cursor + command.size as u32,
        frame: done.frame,
    };
    let emitting = emits_fence(command, outcome);
    let next = emit_to(emitting, d.with_ring(q, ring), command.rdst);
    let marker = next_ring(q);
    let counts = d.counts.counted(q, outcome);
    next.with_marker(marker).with_counts(counts)
}

#[tactic(auto, unfolding(crate::specs::Turn::report_of))]
fn report_of(d: Device, q: u32, command: Command, done: Performed) -> Report
    ensures { result ≡ report_of d q command done }
{
    let outcome = done.outcome;
    let site = done.site;
    let emitting = emits_fence(command, outcome);
    let slot = d.slot(command.rdst);
    Report {
        ring: q,
        outcome,
        fence: emitting.then_some(emitted(slot)),
        words: words_read(command, outcome),
        irq: raises_irq(command, outcome),
        site,
    }
}

// Ring q, whose bytes are `ring`, is served: its window is lent to its command.
#[tactic(auto, unfolding(crate::specs::Turn::finished, crate::specs::Turn::served_of))]
fn serve(d: Device, q: u32, mem: &mut [u8], ring: &[u8], pack: &[u8], pipe: &mut [u8]) -> Turned
    requires { Servable d q (length mem.old) ring.now (length pipe.old) }
    ensures { Shows result mem.new pipe.new (served_of d q ring.now mem.old pack.now pipe.old) }
{
    let at = d.ring(q);
    let command = command_at(ring, at.cursor as usize);
    let edition = d.edition;
    let full = is_full(edition, d.slot(command.rdst));
    let limit = d.limit;
    let window = at.window;
    let frame = at.frame;
    let start = window.start as usize;
    let end = start + window.length as usize;
    let done = perform(
        command,
        full,
        ring,
        &mut mem[start..end],
        frame,
        pack,
        pipe,
        limit,
    );
    Turned {
        device: device_after(d, q, command, done),
        answer: Answer::Served(report_of(d, q, command, done)),
    }
}

// One turn. Anything may be handed in; a refused or idle turn changes nothing.
#[tactic(auto, unfolding(crate::specs::Turn::turn_of, crate::specs::Turn::verdict_on, crate::specs::Turn::judged_of, crate::specs::Turn::unchanged, crate::specs::Turn::picked_of))]
pub fn turn(d: Device, mem: &mut [u8], rings: Rings<'_>, pack: &[u8], pipe: &mut [u8]) -> Turned
    ensures { Shows result mem.new pipe.new (turn_of d (call_of mem.old rings.entry.ring0.now rings.entry.ring1.now rings.entry.ring2.now rings.entry.ring3.now pack.now pipe.old)) }
{
    let verdict = judge(
        d,
        mem.len(),
        rings.ring0.len(),
        rings.ring1.len(),
        rings.ring2.len(),
        rings.ring3.len(),
        pipe.len(),
        pack,
    );
    if let Err(why) = verdict {
        return Turned {
            device: d,
            answer: Answer::Refused(why),
        };
    }
    match pick(d, rings) {
        Some(q) => serve(d, q, mem, rings.ring(q), pack, pipe),
        None => Turned {
            device: d,
            answer: Answer::Idle,
        },
    }
}
