// The octets of a line of a capture, as they come: each pair of digits is stored as an octet.
#![tactic(auto)]

ghost use Rattle.std.specs.Prelude.{◌≡◌};
ghost use Rattle.laws.specs.Usual.{length, drop};
ghost use Rattle.decode_line.specs.Gathering.{scanned, buffer_scanned};

use decode_line::Gathered;
use text_scanning::Scanned;

// The octets of a text from place `from` on, up to its next line feed or its end.
pub fn scan(gathered: Gathered, text: &[u8], from: usize, buffer: &mut [u8]) -> Scanned<Gathered>
    ensures value { result ≡ scanned (length buffer.old) gathered from (drop from text.now) }
    ensures buffer_after { buffer.new ≡ buffer_scanned (length buffer.old) gathered buffer.old (drop from text.now) }
{
    text_scanning::scan(gathered, text, from, buffer)
}
