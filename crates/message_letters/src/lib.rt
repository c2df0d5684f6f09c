// Whether octets that were heard are a message.
#![tactic(auto)]

ghost use Rattle.std.specs.Prelude.{◌≡◌};
ghost use Rattle.frame_reading.specs.Reading.{read_header_of};
ghost use Rattle.message.specs.Codes.{is_message};
ghost use Rattle.frame.specs.Octets.{word_at};
ghost use Rattle.frame.specs.Positions.{TCD as code_place};
ghost use Rattle.message_letters.specs.Told.{is_refused_by_code};
ghost use Rattle.message_rules.specs.Rules.Hearing.{is_letter};

use frame::Refusal;
use frame_reading::TCD;

fn is_refused_by_code(octets: &[u8]) -> bool
    ensures { result ≡ is_refused_by_code (read_header_of octets.now) }
{
    matches!(frame_reading::read_header(octets), Err(Refusal::Code))
}

// A frame of the base has no message code: one look at TCD tells it apart.
pub fn is_letter(octets: &[u8], memory: &[u8], assembly: &[u8]) -> bool
    ensures { result ≡ is_letter octets.now memory.now assembly.now }
{
    octets.len() >= 64
        && message_codes::is_message(frame_reading::word_at(octets, TCD))
        && memory.len() == area::MEMORY_OCTETS
        && assembly.len() == area::MEMORY_OCTETS
        && is_refused_by_code(octets)
}
