// What `settle` prints, part by part in a lent buffer: each part is as many whole lines as the buffer takes.
#![tactic(auto)]

ghost use Rattle.std.specs.Prelude.{◌≡◌, ◌≤◌};
ghost use Rattle.laws.specs.Usual.{length};
ghost use Rattle.copying.specs.Pasted.{pasted};
ghost use Rattle.settle_output.specs.Output.{room};
ghost use Rattle.settle_print.specs.Parts.{next_line, next_of, filled_of, buffer_after};

use settle_rest::Printing;

// What is still to be printed behind the octets that were put in front of a buffer, and their number.
#[derive(Clone, Copy)]
pub struct Filled {
    pub printing: Printing,
    pub length: usize,
}

// Puts the next line in front of the output, and answers its length. A run makes its next step in place.
#[tactic(auto, unfolding(crate::specs::Parts::next_line, crate::specs::Parts::next_of))]
fn put_next(printing: &mut Printing, output: &mut [u8]) -> usize
    requires { room ≤ length output.old }
    ensures value { result ≡ length (next_line printing.old) }
    ensures printing_after { printing.new ≡ next_of printing.old }
    ensures output_after { output.new ≡ pasted output.old 0 (next_line printing.old) }
{
    match printing {
        Printing::Bad(number) => {
            let length = settle_output::put_bad(*number, output);
            *printing = Printing::Over;
            length
        }
        Printing::Header(running) => {
            *printing = Printing::Run(*running);
            settle_output::put_header(output)
        }
        Printing::Run(running) if running.has_ended() => {
            let length = settle_output::put_settled(running.settled, output);
            *printing = Printing::Over;
            length
        }
        Printing::Run(running) => settle_output::put_step(settle_steps::step(running), output),
        Printing::Over => 0,
    }
}

// Puts as many whole lines in front of the buffer as it takes, while any line, of 35 octets at most, has room. The run is made as it is
// printed.
pub fn fill(mut printing: Printing, buffer: &mut [u8]) -> Filled
    ensures value { result ≡ filled_of (length buffer.old) printing }
    ensures buffer_after { buffer.new ≡ buffer_after printing buffer.old }
{
    let mut at: usize = 0;
    // No `for`: how many octets a line takes the line tells.
    while !printing.is_over() & (35 <= buffer.len() - at) {
        at += put_next(&mut printing, &mut buffer[at..]);
    }
    Filled {
        printing,
        length: at,
    }
}
