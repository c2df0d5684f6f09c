// Drives one station from text: commands on standard input, answers on standard output.
#![tactic(auto)]

use std::io;
use text_feeding::Streams;

fn main(rt: HostRuntime) -> io::Result<()> {
    let mut streams = Streams::new(rt.stdin(), rt.stdout());
    replay_run::run(&mut streams);
    streams.end()
}
