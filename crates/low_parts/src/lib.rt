// The low part of a number of 32 bits: an octet, two octets or a flag, read and put there. What stands above it is left as it is.
// Three pairs, and no function over the base: it would owe that the base divides 2 to the 32nd and that the part is below it, which the types say here.
#![tactic(auto)]

ghost use Rattle.std.specs.Prelude.{◌≡◌};
ghost use Rattle.low_parts.specs.Parts.{octet, octets, flag, with_octet, with_octets, with_flag};

pub fn octet_of(number: u32) -> u8
    ensures { result ≡ octet number }
{
    (number % 256) as u8
}

pub fn octets_of(number: u32) -> u16
    ensures { result ≡ octets number }
{
    (number % 65536) as u16
}

pub fn flag_of(number: u32) -> bool
    ensures { result ≡ flag number }
{
    number % 2 == 1
}

pub fn with_octet(number: u32, low: u8) -> u32
    ensures { result ≡ with_octet number low }
{
    number / 256 * 256 + low as u32
}

pub fn with_octets(number: u32, low: u16) -> u32
    ensures { result ≡ with_octets number low }
{
    number / 65536 * 65536 + low as u32
}

pub fn with_flag(number: u32, low: bool) -> u32
    ensures { result ≡ with_flag number low }
{
    if low {
        number / 2 * 2 + 1
    } else {
        number / 2 * 2
    }
}
