// A cyclic frame that a participant hears.
#![tactic(auto)]

ghost use Rattle.std.specs.Prelude.{Ok, ◌≡◌};
ghost use Rattle.laws.specs.Usual.{true, length};
ghost use Rattle.frame.specs.Codes.{is_cyclic};
ghost use Rattle.frame_reading.specs.Reading.{read_body_of, data_of};
ghost use Rattle.station.specs.Rules.Data.{gathered};
ghost use Rattle.station.specs.Rules.Hearing.{lent_right, participant_heard};

use frame::Fields;
use station::{Answered, Heard, Station};

// A cyclic frame that a participant accepts.
pub fn participant_hears(
    station: Station,
    frame: Fields,
    octets: &[u8],
    memory: &mut [u8],
    assembly: &mut [u8],
) -> Answered<Heard>
    requires assembly_value { lent_right memory.old assembly.old ≡ true }
    requires frame_value { read_body_of (length octets.now) frame ≡ Ok frame }
    requires code_value { is_cyclic frame.code ≡ true }
    ensures station_value { result.station ≡ (participant_heard station frame (gathered station frame (data_of octets.now frame) assembly.old memory.old)).station }
    ensures answer_value { result.answer ≡ (participant_heard station frame (gathered station frame (data_of octets.now frame) assembly.old memory.old)).answer }
    ensures memory_after { memory.new ≡ (gathered station frame (data_of octets.now frame) assembly.old memory.old).memory }
    ensures assembly_after { assembly.new ≡ (gathered station frame (data_of octets.now frame) assembly.old memory.old).assembly }
{
    let members = station.members;
    let before = station.gathering;
    let panel = station.panel;
    let entry = members::entry_of(members, frame.source);
    let listed = entry.areas;
    let stored = hearing_data::gather_frame(before, listed, frame, octets, memory, assembly);
    let after = stored.gathering;
    let outcome = stored.outcome;
    let number = station.own.number;
    let answer = Heard::Cyclic(hearing_token::outcome_of(number, station.view, frame, outcome));
    let view = hearing_token::view_heard(station.view, frame);
    let station = phases_participating::restart(
        station,
        members_misses::clear(members, frame.source),
        view,
        after,
        panel,
    );
    Answered { station, answer }
}
