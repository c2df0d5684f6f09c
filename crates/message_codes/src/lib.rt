// The message codes.
#![tactic(auto)]

ghost use Rattle.std.specs.Prelude.{◌≡◌};
ghost use Rattle.message.specs.Codes.{is_message};

// "the message codes of B-9 in source document 003": a match with single codes and ranges (paper 02, E2).
pub fn is_message(code: u16) -> bool
    ensures { result ≡ is_message code }
{
    match code {
        10000..=59999 => true,
        65003..=65011 => true,
        65013..=65016 => true,
        65203..=65211 => true,
        65213..=65216 => true,
        // the trigger, and a reserved code
        65012 => false,
        65212 => false,
        0..=9999 | 60000..=65002 | 65017..=65202 | 65217..=65535 => false,
    }
}
