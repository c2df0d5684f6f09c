// Runs `settle` on each file that an argument names, and prints the file's name before the output. Of long runs only the last steps are
// printed.
#![tactic(auto)]

use std::io::{self, Write};
use std::{env, fs};

fn run_case(rt: &HostRuntime, path: &str) -> io::Result<()> {
    let mut output = rt.stdout();
    output.write_all(path.as_bytes())?;
    output.write_all(b"\n")?;
    let mut file = fs::open(rt, path)?;
    let mut input = [0u8; 4096];
    let (count, read) = text_feeding::read_full(&mut file, &mut input);
    let printing = settle_rest::begin(&input[..count]);
    settle_write::write_rest(settle_last::shorten(printing, 6), &mut output)?;
    read
}

// A case that fails is told at the end, and the others are run.
fn main(rt: HostRuntime) -> io::Result<()> {
    let mut ended = Ok(());
    for path in env::args(&rt)?.skip(1) {
        ended = run_case(&rt, &path).and(ended);
    }
    ended
}
