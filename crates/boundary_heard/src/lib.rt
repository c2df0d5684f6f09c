// An accepted cyclic frame heard by a participant, on its core alone.
#![tactic(auto)]

ghost use Rattle.std.specs.Prelude.{Ok, ◌≡◌};
ghost use Rattle.laws.specs.Usual.{true, length};
ghost use Rattle.frame.specs.Codes.{is_cyclic};
ghost use Rattle.hearing_token.specs.Parts.{outcome_by};
ghost use Rattle.boundary_answers.specs.Numbers.{cyclic_answer};
ghost use Rattle.boundary_told.specs.Told.{route_of, with_frame};
ghost use Rattle.boundary_participant.specs.Quick.{restarted_core};
ghost use Rattle.frame_reading.specs.Reading.{read_body_of, data_of};
ghost use Rattle.station.specs.Rules.Data.{gathered_from};
ghost use Rattle.station.specs.Rules.Hearing.{lent_right};
ghost use Rattle.station.specs.Rules.Token.{view_heard};

use area::Areas;
use boundary_core::{Core, Outcome};
use boundary_cyclic::cyclic;
use frame::Fields;

// Hears an accepted frame, whose source is listed with these areas. Its misses are cleared apart.
pub fn hear_accepted(
    core: Core,
    listed: Areas,
    frame: Fields,
    octets: &[u8],
    memory: &mut [u8],
    assembly: &mut [u8],
) -> Outcome
    requires assembly_value { lent_right memory.old assembly.old ≡ true }
    requires frame_value { read_body_of (length octets.now) frame ≡ Ok frame }
    requires code_value { is_cyclic frame.code ≡ true }
    ensures core_value { result.core ≡ restarted_core core (view_heard core.view frame) (gathered_from core.gathering listed frame (data_of octets.now frame) assembly.old memory.old).gathering }
    ensures answer_value { result.answer ≡ with_frame (cyclic_answer (outcome_by core.own.number core.view frame (gathered_from core.gathering listed frame (data_of octets.now frame) assembly.old memory.old).outcome)) (route_of frame) }
    ensures memory_after { memory.new ≡ (gathered_from core.gathering listed frame (data_of octets.now frame) assembly.old memory.old).memory }
    ensures assembly_after { assembly.new ≡ (gathered_from core.gathering listed frame (data_of octets.now frame) assembly.old memory.old).assembly }
{
    let before = core.gathering;
    let number = core.own.number;
    let stored = hearing_data::gather_frame(before, listed, frame, octets, memory, assembly);
    let after = stored.gathering;
    let outcome = stored.outcome;
    let token = cyclic(hearing_token::outcome_of(number, core.view, frame, outcome));
    let answer = boundary_told::tell_read(token, frame);
    let view = hearing_token::view_heard(core.view, frame);
    let core = boundary_participant::restart(core, view, after);
    Outcome { core, answer }
}
