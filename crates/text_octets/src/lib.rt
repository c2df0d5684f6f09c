// The octets that hexadecimal digits spell.
#![tactic(auto)]

ghost use Rattle.std.specs.Prelude.{◌≡◌, ◌+◌, ◌*◌, ◌<◌};
ghost use Rattle.laws.specs.Usual.{length, take};
ghost use Rattle.copying.specs.Pasted.{pasted};
ghost use Rattle.text_hexadecimal.specs.Octets.{all_hexadecimal, value_of, octet_at, octets_of};

use text_hexadecimal::{digit_of, is_hexadecimal};

fn all_hexadecimal(octets: &[u8]) -> bool
    ensures { result ≡ all_hexadecimal octets.now }
{
    octets.iter().all(|&octet| is_hexadecimal(octet))
}

// How many octets the digits spell. Digits that are no even number of hexadecimal digits spell none, so that the 0 is a count and no Option.
pub fn size_of(digits: &[u8]) -> usize
    ensures { result ≡ length (octets_of digits.now) }
{
    if all_hexadecimal(digits) & (digits.len() % 2 == 0) {
        digits.len() / 2
    } else {
        0
    }
}

// The value of a digit, or 0 for an octet that is none.
fn value_of(octet: u8) -> u8
    ensures { result ≡ value_of octet }
{
    digit_of(octet).unwrap_or(0)
}

// The octet that the pair of digits at a place spells, counted in pairs.
fn octet_at(digits: &[u8], i: usize) -> u8
    requires { 2 * i + 1 < length digits.now }
    ensures { result ≡ octet_at digits.now i }
{
    value_of(digits[2 * i]) * 16 + value_of(digits[2 * i + 1])
}

// Writes the octets that the digits spell in front of the output, as many as it has room for, and answers how many it wrote.
pub fn unspell(digits: &[u8], output: &mut [u8]) -> usize
    ensures value { result ≡ length (take (length output.old) (octets_of digits.now)) }
    ensures output_after { output.new ≡ pasted output.old 0 (take (length output.old) (octets_of digits.now)) }
{
    let size = size_of(digits).min(output.len());
    for i in 0..size {
        output[i] = octet_at(digits, i);
    }
    size
}
