// A message heard, on the core in numbers, the list in arrays and the message part in numbers. A refused one touches none of them, but for number 6
// before we participate.
#![tactic(auto)]

ghost use Rattle.std.specs.Prelude.{◌≡◌, ◌≤◌};
ghost use Rattle.laws.specs.Usual.{[], length};
ghost use Rattle.boundary_core.specs.Crossing.{core_of, station_in};
ghost use Rattle.boundary_lists.specs.Lists.{members_in};
ghost use Rattle.boundary_places.specs.Places.{core_in, kept};
ghost use Rattle.message_letters_heard.specs.Heard.{heard_in, delivered_by};
ghost use Rattle.message_places.specs.Outgoing.{outgoing_of};
ghost use Rattle.message_places.specs.Owed.{owed_in, kept_owed};
ghost use Rattle.message_places.specs.Places.{messages_in, kept_outgoing};
ghost use Rattle.message_receiving.specs.Receiving.{received_answer};
ghost use Rattle.message_rules.specs.Rules.State.{no_messages};
ghost use Rattle.message_sources.specs.Sources.{sources_in};
ghost use Rattle.station.specs.Rules.Starting.{stop_of};

use boundary_answers::refused;
use boundary_core::Core;
use boundary_lists::AREA_NUMBERS;
use boundary_places::NUMBERS;
use frame::Refusal;
use message::Letter;
use message_answers::{Reception, told};
use message_letter_tests::{answer_to, is_received, turns_off};
use message_places::{OUTGOING_NUMBERS, OWED_NUMBERS};

// One that leaves the station as it is.
fn deliver(
    core: Core,
    known: bool,
    given: usize,
    owed: &mut [u32; OWED_NUMBERS],
    versions: &mut [u32; 256],
    one_to_one: &mut [u32; 256],
    to_all: &mut [u32; 256],
    letter: Letter,
) -> Reception
    ensures value { result ≡ received_answer (delivered_by core known given (owed_in owed.old) (sources_in versions.old one_to_one.old to_all.old) letter).answer }
    ensures owed_after { owed_in owed.new ≡ (delivered_by core known given (owed_in owed.old) (sources_in versions.old one_to_one.old to_all.old) letter).owed }
    ensures owed_after_2 { owed.new ≡ kept_owed owed.old (delivered_by core known given (owed_in owed.old) (sources_in versions.old one_to_one.old to_all.old) letter).owed }
    ensures versions_after { versions.new ≡ (delivered_by core known given (owed_in owed.old) (sources_in versions.old one_to_one.old to_all.old) letter).sources.versions }
    ensures one_to_one_after { one_to_one.new ≡ (delivered_by core known given (owed_in owed.old) (sources_in versions.old one_to_one.old to_all.old) letter).sources.one_to_one }
    ensures to_all_after { to_all.new ≡ (delivered_by core known given (owed_in owed.old) (sources_in versions.old one_to_one.old to_all.old) letter).sources.to_all }
{
    if is_received(core, known, given, letter) {
        return message_receiving::receive(owed, versions, one_to_one, to_all, letter);
    }
    message_owed::leave(owed);
    told(answer_to(core, known, given, letter))
}

// Stops the station, and leaves nothing of messages.
fn turn_off(
    core: &mut [u32; NUMBERS],
    listed: &mut [bool; 256],
    areas: &mut [u16; AREA_NUMBERS],
    watch: &mut [u8; 256],
    misses: &mut [u8; 256],
    outgoing: &mut [u32; OUTGOING_NUMBERS],
    owed: &mut [u32; OWED_NUMBERS],
    versions: &mut [u32; 256],
    one_to_one: &mut [u32; 256],
    to_all: &mut [u32; 256],
)
    ensures core_after { core_in core.new ≡ core_of (stop_of (station_in (core_in core.old) listed.old areas.old watch.old misses.old)).station }
    ensures core_after_2 { core.new ≡ kept core.old (core_of (stop_of (station_in (core_in core.old) listed.old areas.old watch.old misses.old)).station) }
    ensures misses_after { members_in listed.new areas.new watch.new misses.new ≡ (stop_of (station_in (core_in core.old) listed.old areas.old watch.old misses.old)).station.members }
    ensures to_all_after { messages_in outgoing.new owed.new (sources_in versions.new one_to_one.new to_all.new) ≡ no_messages }
    ensures outgoing_after { outgoing.new ≡ kept_outgoing outgoing.old (outgoing_of no_messages) }
    ensures owed_after { owed.new ≡ kept_owed owed.old [] }
{
    boundary_switching::stop(core, listed, areas, watch, misses);
    let nothing = message_going::nothing();
    message_beginning::begin_where(true, nothing, outgoing, owed, versions, one_to_one, to_all);
}

// The octets are known to be a message's, so its header is required here.
pub fn hear_letter(
    core: &mut [u32; NUMBERS],
    listed: &mut [bool; 256],
    areas: &mut [u16; AREA_NUMBERS],
    watch: &mut [u8; 256],
    misses: &mut [u8; 256],
    outgoing: &mut [u32; OUTGOING_NUMBERS],
    owed: &mut [u32; OWED_NUMBERS],
    versions: &mut [u32; 256],
    one_to_one: &mut [u32; 256],
    to_all: &mut [u32; 256],
    octets: &[u8],
) -> Reception
    requires { 64 ≤ length octets.now }
    ensures core_after { core_in core.new ≡ core_of (heard_in core.old listed.old areas.old watch.old misses.old outgoing.old owed.old (sources_in versions.old one_to_one.old to_all.old) octets.now).station }
    ensures core_after_2 { core.new ≡ kept core.old (core_of (heard_in core.old listed.old areas.old watch.old misses.old outgoing.old owed.old (sources_in versions.old one_to_one.old to_all.old) octets.now).station) }
    ensures misses_after { members_in listed.new areas.new watch.new misses.new ≡ (heard_in core.old listed.old areas.old watch.old misses.old outgoing.old owed.old (sources_in versions.old one_to_one.old to_all.old) octets.now).station.members }
    ensures to_all_after { messages_in outgoing.new owed.new (sources_in versions.new one_to_one.new to_all.new) ≡ (heard_in core.old listed.old areas.old watch.old misses.old outgoing.old owed.old (sources_in versions.old one_to_one.old to_all.old) octets.now).messages }
    ensures outgoing_after { outgoing.new ≡ kept_outgoing outgoing.old (outgoing_of (heard_in core.old listed.old areas.old watch.old misses.old outgoing.old owed.old (sources_in versions.old one_to_one.old to_all.old) octets.now).messages) }
    ensures owed_after { owed.new ≡ kept_owed owed.old (heard_in core.old listed.old areas.old watch.old misses.old outgoing.old owed.old (sources_in versions.old one_to_one.old to_all.old) octets.now).messages.owed }
    ensures value { result ≡ received_answer (heard_in core.old listed.old areas.old watch.old misses.old outgoing.old owed.old (sources_in versions.old one_to_one.old to_all.old) octets.now).answer }
{
    let letter = message_reading::letter_in(octets);
    let state = boundary_reading::core_in(core);
    if turns_off(state, letter) {
        turn_off(
            core, listed, areas, watch, misses, outgoing, owed, versions, one_to_one, to_all,
        );
        return told(refused(Refusal::Taken));
    }
    message_kept::leave(outgoing);
    let known = boundary_lists::is_listed(listed, letter.source);
    deliver(
        state,
        known,
        octets.len(),
        owed,
        versions,
        one_to_one,
        to_all,
        letter,
    )
}
