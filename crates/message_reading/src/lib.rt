// Reading a message frame: the fields that are looked at, and whether its data stand where they may.
#![tactic(auto)]

mod position;

ghost use Rattle.std.specs.Prelude.{◌≡◌, ◌≤◌};
ghost use Rattle.laws.specs.Usual.{length};
ghost use Rattle.message_frames.specs.Frames.{letter_in, measured};

use frame_reading::{BSIZE, DNA, SNA, TCD, long_at, word_at};
use message::{Letter, Message};

// The fields as they stand in the header. It is read once the octets are known to have one, so they are required here.
#[tactic(auto, unfolding(message_frames::specs::Frames::letter_in))]
pub fn letter_in(octets: &[u8]) -> Letter
    requires { 64 ≤ length octets.now }
    ensures { result ≡ letter_in octets.now }
{
    Letter {
        source: octets[SNA],
        version: long_at(octets, position::V_SEQ),
        number: long_at(octets, position::SEQ),
        message: Message {
            destination: octets[DNA],
            code: word_at(octets, TCD),
            size: word_at(octets, position::M_SZ),
            address: long_at(octets, position::M_ADD),
            result: octets[position::M_RLT],
        },
        octets: word_at(octets, BSIZE),
    }
}

// "whose last BSIZE octets, its data, are over 1024 or stand after other than 64 to 96": whether neither is so of so many octets given.
pub fn is_measured(given: usize, letter: Letter) -> bool
    ensures { result ≡ measured given letter }
{
    let size = letter.octets as usize;
    let header = frame_data::header_part(given, size);
    size <= 1024 && matches!(header, 64..=96)
}
