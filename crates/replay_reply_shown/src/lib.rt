// The lines that `replay` prints where it only looks: the panel's text, and octets of the common memory. Each is written in front of a lent
// output, and each function answers the line's length.
#![tactic(auto)]

ghost use Rattle.std.specs.Prelude.{◌≡◌, ◌+◌, ◌*◌, ◌≤◌};
ghost use Rattle.laws.specs.Usual.{length};
ghost use Rattle.copying.specs.Pasted.{pasted};
ghost use Rattle.replay_reply_shown.specs.Shown.{panel_text, octets_text};

use panel::Figure;
use replay_reply_octets::put_hex;
use replay_reply_parts::{put_line, put_mark};

pub fn put_panel(figure: Figure, output: &mut [u8]) -> usize
    requires { 40 ≤ length output.old }
    ensures value { result ≡ length (panel_text figure) }
    ensures output_after { output.new ≡ pasted output.old 0 (panel_text figure) }
{
    let text = panel_text::text_of(figure);
    let octets = text.octets;
    let length = text.length;
    put_line(&octets[0..length], output)
}

pub fn put_octets(octets: &[u8], output: &mut [u8]) -> usize
    requires { 2 * length octets.now + 1 ≤ length output.old }
    ensures value { result ≡ length (octets_text octets.now) }
    ensures output_after { output.new ≡ pasted output.old 0 (octets_text octets.now) }
{
    let end = put_hex(octets, output, 0);
    put_mark(b'\n', output, end)
}
