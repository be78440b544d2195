// The device held to recorded answers of an independent one: each recorded call is made again, and every part of its
// answer is compared. Prints how many calls of each kind were made, and how many differ.
#![tactic(auto)]

use std::fs::File;
use std::io;
use std::io::Read;

mod record;
mod tally;

use recorded::call::compare;
use tally::Tally;

// Nothing says that a file ends, and a proved loop has to.
const MOST_CALLS: u32 = 1000000;

// No body is longer.
const BODY_ROOM: usize = 262144;

fn compare_all<R: Read>(calls: &mut R, body: &mut [u8]) -> Tally {
    let mut tally = Tally::none();
    for _ in 0..MOST_CALLS {
        let Some(n) = record::next(calls, body) else {
            break;
        };
        tally = tally.with(compare(&body[..n]));
    }
    tally
}

// As a result it has its length by type, and no proof counts it.
fn empty_body() -> [u8; BODY_ROOM] {
    [0u8; BODY_ROOM]
}

fn main(rt: HostRuntime) -> io::Result<()> {
    let mut body = empty_body();
    let mut calls = File::open(&rt, "calls")?;
    compare_all(&mut calls, &mut body).print(&rt)
}
