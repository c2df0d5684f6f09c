// Hexadecimal digits.
#![tactic(auto)]

ghost use Rattle.std.specs.Prelude.{◌≡◌};
ghost use Rattle.text_hexadecimal.specs.Hexadecimal.{digit_of};
ghost use Rattle.text_hexadecimal.specs.Octets.{is_hexadecimal};

// Each range stands as the page has it; the `to_digit` of the library wants a char and a base, and gives a u32 to be narrowed again.
pub fn digit_of(octet: u8) -> Option<u8>
    ensures { result ≡ digit_of octet }
{
    match octet {
        b'0'..=b'9' => Some(octet - 48),
        b'A'..=b'F' => Some(octet - 55),
        b'a'..=b'f' => Some(octet - 87),
        _ => None,
    }
}

pub fn is_hexadecimal(octet: u8) -> bool
    ensures { result ≡ is_hexadecimal octet }
{
    digit_of(octet).is_some()
}
