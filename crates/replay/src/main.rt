// The replay job: reads standard input, plays its rings on a fresh device until it is idle, and prints a line for
// each turn. What it prints is the text of `play::transcribe`.
#![tactic(auto)]

use std::io;

mod play;
mod room;
mod text;

use reading::read_full;
use text::Text;

fn main(rt: HostRuntime) -> io::Result<()> {
    let mut input = room::large_buffer();
    let n = read_full(&mut rt.stdin(), &mut input);
    let mut text = Text::empty();
    play::transcribe(&input[..n], &mut text);
    rt.write_all(text.as_bytes())
}
