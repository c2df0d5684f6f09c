// Reading text: a decimal number of at most a limit.
#![tactic(auto)]

ghost use Rattle.std.specs.Prelude.{◌≡◌};
ghost use Rattle.text_reading.specs.Values.{value_on, decimal_in};

// The value of decimal digits, where it is at most `most`.
fn value_of(octets: &[u8], most: u32) -> Option<u32>
    ensures { result ≡ value_on most 0 octets.now }
{
    let mut value: u64 = 0;
    for octet in octets {
        if !octet.is_ascii_digit() {
            return None;
        }
        value = value * 10 + u64::from(*octet - b'0');
        if value > u64::from(most) {
            return None;
        }
    }
    Some(value as u32)
}

// The number that the octets are in decimal without leading zeros, where it is at most `most`.
pub fn decimal_in(octets: &[u8], most: u32) -> Option<u32>
    ensures { result ≡ decimal_in most octets.now }
{
    match octets {
        [] | [b'0', _, ..] => None,
        _ => value_of(octets, most),
    }
}
