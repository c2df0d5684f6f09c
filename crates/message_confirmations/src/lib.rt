// Reading the confirmation in a cyclic frame.
#![tactic(auto)]

mod position;

ghost use Rattle.std.specs.Prelude.{◌≡◌, ◌≤◌};
ghost use Rattle.laws.specs.Usual.{length};
ghost use Rattle.message_frames.specs.Confirmations.{is_set, confirms, confirmation_in};

use frame_reading::{BSIZE, long_at, word_at};
use message::Confirmation;
pub use position::M_CTL;

// The octets up to the end of a confirmation.
const CONFIRMATION_END: usize = 84;

// The bit of M_CTL that marks a confirmation, in its first octet.
pub const RPL: u8 = 0x20;

fn is_marked(control: u8) -> bool
    ensures { result ≡ is_set 0x20 control }
{
    control / RPL % 2 == 1
}

// Whether a frame has a confirmation. Its data are the last BSIZE octets: where they begin before octet 84, nothing behind the header is read.
pub fn confirms(octets: &[u8]) -> bool
    ensures { result ≡ confirms octets.now }
{
    if octets.len() < CONFIRMATION_END {
        return false;
    }
    let header = frame_data::header_part(octets.len(), word_at(octets, BSIZE) as usize);
    is_marked(octets[position::M_CTL]) && CONFIRMATION_END <= header && octets[position::A_NUM] == 1
}

// What it says. A frame that has one has 84 octets or more.
pub fn confirmation_in(octets: &[u8]) -> Confirmation
    requires { 84 ≤ length octets.now }
    ensures { result ≡ confirmation_in octets.now }
{
    Confirmation {
        status: octets[position::R_STS],
        source: octets[position::R_NA],
        code: word_at(octets, position::R_TCD),
        version: long_at(octets, position::R_VSEQ),
        number: long_at(octets, position::R_SEQ),
    }
}
