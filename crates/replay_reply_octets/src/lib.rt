// A part of the octets of a buffer, and octets in hexadecimal, in lower case.
#![tactic(auto)]

ghost use Rattle.std.specs.Prelude.{◌≡◌, ◌+◌, ◌*◌, ◌<◌, ◌≤◌};
ghost use Rattle.laws.specs.Usual.{length, take, drop};
ghost use Rattle.copying.specs.Pasted.{pasted};
ghost use Rattle.replay_reply_parts.specs.Hex.{digit_of, octet_text, hex_of};

use replay_reply_parts::put_mark;

// The octets from `at` on, at most `count` of them.
pub fn part_of(octets: &[u8], at: usize, count: usize) -> &[u8]
    ensures { result.now ≡ take count (drop at octets.now) }
{
    if octets.len() < at {
        return &octets[0..0];
    }
    if octets.len() - at < count {
        return &octets[at..];
    }
    let end = at + count;
    &octets[at..end]
}

fn digit(value: u8) -> u8
    requires { value < 16 }
    ensures { result ≡ digit_of value }
{
    if value < 10 { 48 + value } else { 87 + value }
}

fn put_octet(octet: u8, output: &mut [u8], at: usize) -> usize
    requires { at + 2 ≤ length output.old }
    ensures value { result ≡ at + length (octet_text octet) }
    ensures output_after { output.new ≡ pasted output.old at (octet_text octet) }
{
    let next = put_mark(digit(octet / 16), output, at);
    put_mark(digit(octet % 16), output, next)
}

pub fn put_hex(octets: &[u8], output: &mut [u8], at: usize) -> usize
    requires { at + 2 * length octets.now ≤ length output.old }
    ensures value { result ≡ at + length (hex_of octets.now) }
    ensures output_after { output.new ≡ pasted output.old at (hex_of octets.now) }
{
    let mut end = at;
    for octet in octets {
        end = put_octet(*octet, output, end);
    }
    end
}
