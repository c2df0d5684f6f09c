// The output lines of `settle`, each written in front of a lent buffer of 35 octets or more. A shorter buffer is left as it is.
#![tactic(auto)]

ghost use Rattle.std.specs.Prelude.{◌≡◌, ◌+◌, ◌*◌, ◌≤◌};
ghost use Rattle.laws.specs.Usual.{length};
ghost use Rattle.text.specs.Lines.{line_of};
ghost use Rattle.settle_output.specs.Output.{room, written_to, length_in, header_line, step_line, settled_line, bad_line};

use settle_run::{Kind, Settled, Stepped};

// Writes a line, and answers how many octets were written: none where it has no room.
fn put_in(word: &[u8], numbers: &[u32], output: &mut [u8]) -> usize
    requires { length word.now + 11 * length numbers.now + 1 ≤ room }
    ensures value { result ≡ length_in output.old (line_of word.now numbers.now) }
    ensures output_after { output.new ≡ written_to output.old (line_of word.now numbers.now) }
{
    if output.len() < 35 {
        return 0;
    }
    text::put_line(word, numbers, output)
}

pub fn put_header(output: &mut [u8]) -> usize
    ensures value { result ≡ length_in output.old header_line }
    ensures output_after { output.new ≡ written_to output.old header_line }
{
    put_in(b"what,from,to,views", &[], output)
}

pub fn put_step(stepped: Stepped, output: &mut [u8]) -> usize
    ensures value { result ≡ length_in output.old (step_line stepped) }
    ensures output_after { output.new ≡ written_to output.old (step_line stepped) }
{
    match stepped.kind {
        Kind::Pass { from, to } => put_in(b"P", &[from as u32, to as u32, stepped.views], output),
        Kind::Silence => put_in(b"S", &[0, 0, stepped.views], output),
    }
}

pub fn put_settled(settled: Settled, output: &mut [u8]) -> usize
    ensures value { result ≡ length_in output.old (settled_line settled) }
    ensures output_after { output.new ≡ written_to output.old (settled_line settled) }
{
    put_in(
        b"E",
        &[settled.passes, settled.silences, settled.views],
        output,
    )
}

pub fn put_bad(line: u32, output: &mut [u8]) -> usize
    ensures value { result ≡ length_in output.old (bad_line line) }
    ensures output_after { output.new ≡ written_to output.old (bad_line line) }
{
    put_in(b"bad", &[line], output)
}
