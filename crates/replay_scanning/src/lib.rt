// The octets of a text taken into a line of the program `replay`'s input, one by one.
#![tactic(auto)]

ghost use Rattle.std.specs.Prelude.{◌≡◌};
ghost use Rattle.laws.specs.Usual.{drop};
ghost use Rattle.replay_input.specs.Gathering.{scanned, buffer_scanned};

use replay_input::Line;
use text_scanning::Scanned;

// The octets of a text from place `from` on, up to its next line feed or its end.
pub fn scan(line: Line, text: &[u8], from: usize, buffer: &mut [u8]) -> Scanned<Line>
    ensures value { result ≡ scanned line from (drop from text.now) }
    ensures buffer_after { buffer.new ≡ buffer_scanned line buffer.old (drop from text.now) }
{
    text_scanning::scan(line, text, from, buffer)
}
