// Hearing a frame.
#![tactic(auto)]

ghost use Rattle.std.specs.Prelude.{Ok, ◌≡◌};
ghost use Rattle.laws.specs.Usual.{true, length};
ghost use Rattle.frame_reading.specs.Reading.{read_body_of};
ghost use Rattle.station.specs.Rules.Hearing.{knows as knows_of, is_stranger, is_taken, after_taken, lent_right, accepted, body_heard, header_heard, hear_of};

use frame::{Fields, Refusal};
use hearing_participant::participant_hears;
use station::{Answered, Heard, Station};

fn refused(station: Station, refusal: Refusal) -> Answered<Heard>
    ensures station_value { result.station ≡ station }
    ensures answer_value { result.answer ≡ Heard.Refused refusal }
{
    let answer = Heard::Refused(refusal);
    Answered { station, answer }
}

// Number 6: the source is our own number, which an off station does not ask.
fn is_taken(station: Station, frame: Fields) -> bool
    ensures { result ≡ is_taken station frame }
{
    let phase = station.phase;
    let own = station.own;
    !state_tests::is_off(phase) & (frame.source == own.number)
}

// Number 6 turns a station off that does not participate yet.
fn after_taken(station: Station) -> Station
    ensures { result ≡ after_taken station }
{
    let phase = station.phase;
    if state_tests::is_participating(phase) {
        station
    } else {
        phases::stopped(station)
    }
}

fn knows(station: Station, number: u8) -> bool
    ensures { result ≡ knows_of station number }
{
    let own = station.own;
    let members = station.members;
    (number == own.number) | members::is_listed(members, number)
}

// Number 9.
fn is_stranger(station: Station, frame: Fields) -> bool
    ensures { result ≡ is_stranger station frame }
{
    let phase = station.phase;
    let code = frame.code;
    let asked = state_tests::is_participating(phase) & frame::is_cyclic(code);
    let known = knows(station, frame.source)
        & (!frame::is_token(code) | knows(station, frame.destination));
    asked & !known
}

// A frame that no refusal met.
fn accept(
    station: Station,
    frame: Fields,
    octets: &[u8],
    memory: &mut [u8],
    assembly: &mut [u8],
) -> Answered<Heard>
    requires assembly_value { lent_right memory.old assembly.old ≡ true }
    requires frame_value { read_body_of (length octets.now) frame ≡ Ok frame }
    ensures station_value { result.station ≡ (accepted station frame octets.now memory.old assembly.old).station }
    ensures answer_value { result.answer ≡ (accepted station frame octets.now memory.old assembly.old).answer }
    ensures memory_after { memory.new ≡ (accepted station frame octets.now memory.old assembly.old).memory }
    ensures assembly_after { assembly.new ≡ (accepted station frame octets.now memory.old assembly.old).assembly }
{
    let phase = station.phase;
    let code = frame.code;
    if state_tests::is_participating(phase) & frame::is_cyclic(code) {
        return participant_hears(station, frame, octets, memory, assembly);
    }
    let answer = hearing_token::answer(phase, code);
    let after = hearing_entering::enter(station, frame);
    Answered {
        station: after,
        answer,
    }
}

// Number 9, then the frame is heard.
fn hear_body(
    station: Station,
    frame: Fields,
    octets: &[u8],
    memory: &mut [u8],
    assembly: &mut [u8],
) -> Answered<Heard>
    requires assembly_value { lent_right memory.old assembly.old ≡ true }
    requires frame_value { read_body_of (length octets.now) frame ≡ Ok frame }
    ensures station_value { result.station ≡ (body_heard station octets.now memory.old assembly.old (Ok frame)).station }
    ensures answer_value { result.answer ≡ (body_heard station octets.now memory.old assembly.old (Ok frame)).answer }
    ensures memory_after { memory.new ≡ (body_heard station octets.now memory.old assembly.old (Ok frame)).memory }
    ensures assembly_after { assembly.new ≡ (body_heard station octets.now memory.old assembly.old (Ok frame)).assembly }
{
    if is_stranger(station, frame) {
        return refused(station, Refusal::Stranger);
    }
    accept(station, frame, octets, memory, assembly)
}

// Number 6, then 7, 14, 15 and 8.
fn hear_header(
    station: Station,
    frame: Fields,
    octets: &[u8],
    memory: &mut [u8],
    assembly: &mut [u8],
) -> Answered<Heard>
    requires { lent_right memory.old assembly.old ≡ true }
    ensures station_value { result.station ≡ (header_heard station octets.now memory.old assembly.old (Ok frame)).station }
    ensures answer_value { result.answer ≡ (header_heard station octets.now memory.old assembly.old (Ok frame)).answer }
    ensures memory_after { memory.new ≡ (header_heard station octets.now memory.old assembly.old (Ok frame)).memory }
    ensures assembly_after { assembly.new ≡ (header_heard station octets.now memory.old assembly.old (Ok frame)).assembly }
{
    if is_taken(station, frame) {
        return refused(after_taken(station), Refusal::Taken);
    }
    match frame_body::read_body(octets.len(), frame) {
        Ok(body) => hear_body(station, body, octets, memory, assembly),
        Err(refusal) => refused(station, refusal),
    }
}

// Number 11, then 1 to 5, and so on in the table's order: the first that applies.
pub fn hear(
    station: Station,
    octets: &[u8],
    memory: &mut [u8],
    assembly: &mut [u8],
) -> Answered<Heard>
    ensures station_value { result.station ≡ (hear_of station octets.now memory.old assembly.old).station }
    ensures answer_value { result.answer ≡ (hear_of station octets.now memory.old assembly.old).answer }
    ensures memory_after { memory.new ≡ (hear_of station octets.now memory.old assembly.old).memory }
    ensures assembly_after { assembly.new ≡ (hear_of station octets.now memory.old assembly.old).assembly }
{
    if (memory.len() != area::MEMORY_OCTETS) | (assembly.len() != area::MEMORY_OCTETS) {
        return refused(station, Refusal::Buffer);
    }
    match frame_reading::read_header(octets) {
        Ok(frame) => hear_header(station, frame, octets, memory, assembly),
        Err(first) => refused(station, first),
    }
}
