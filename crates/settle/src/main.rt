// `settle` reads a ring of token views from standard input and prints its run to agreement. No ring needs more than 2,032 octets, and
// what stands behind the first 2,040 cannot change the answer (`read_prefix` of settle_input), so 4,096 are read.
#![tactic(auto)]

ghost use Rattle.std.specs.Prelude.{OnOk, IfSome};
ghost use Rattle.std.specs.Io.KnownBytes.{Appends};
ghost use Rattle.settle_rest.specs.Whole.{output_of};

use std::io::{self, Read, Write};

// Prints the output of all that can be read. What came before reading failed is answered too.
fn run<R: Read, W: Write>(input: &mut R, output: &mut W) -> io::Result<()>
    ensures { OnOk result (IfSome (R.remaining input.old) (λ octets. Appends (W.contents output.old) (W.contents output.new) (output_of octets))) }
{
    let mut octets = [0u8; 4096];
    let (count, read) = text_feeding::read_full(input, &mut octets);
    settle_write::write_rest(settle_rest::begin(&octets[..count]), output)?;
    read
}

fn main(rt: HostRuntime) -> io::Result<()> {
    run(&mut rt.stdin(), &mut rt.stdout())
}
