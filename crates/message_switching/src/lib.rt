// Start and stop of a station with messages, on its arrays, all changed in place. The ring part is what the base's call leaves.
#![tactic(auto)]

ghost use Rattle.std.specs.Prelude.{◌≡◌};
ghost use Rattle.boundary_answers.specs.Numbers.{switched_answer};
ghost use Rattle.boundary_core.specs.Crossing.{core_of, station_in};
ghost use Rattle.boundary_lists.specs.Lists.{members_in};
ghost use Rattle.boundary_places.specs.Places.{core_in, kept};
ghost use Rattle.message_places.specs.Outgoing.{outgoing_of};
ghost use Rattle.message_places.specs.Owed.{kept_owed};
ghost use Rattle.message_places.specs.Places.{kept_outgoing, messages_lent};
ghost use Rattle.message_switching.specs.Switched.{messages_started, messages_stopped};
ghost use Rattle.station.specs.Rules.Starting.{start_of, stop_of};

use boundary_core::Answer;
use boundary_places::NUMBERS;
use message::Allowance;
use message_beginning::begin_where;
use message_places::{OUTGOING_NUMBERS, OWED_NUMBERS};
use station::Settings;

// The word of an answer that is done, for C: the call below answers numbers.
const DONE: u8 = 1;

// A start that is done begins with nothing of messages but the allowed cycle and the version.
pub fn start(
    core: &mut [u32; NUMBERS],
    listed: &mut [bool; 256],
    areas: &mut [u16; boundary_lists::AREA_NUMBERS],
    watch: &mut [u8; 256],
    misses: &mut [u8; 256],
    outgoing: &mut [u32; OUTGOING_NUMBERS],
    owed: &mut [u32; OWED_NUMBERS],
    versions: &mut [u32; 256],
    one_to_one: &mut [u32; 256],
    to_all: &mut [u32; 256],
    own: Settings,
    allowance: Allowance,
) -> Answer
    ensures core_after { core_in core.new ≡ core_of (start_of (station_in (core_in core.old) listed.old areas.old watch.old misses.old) own).station }
    ensures core_after_2 { core.new ≡ kept core.old (core_of (start_of (station_in (core_in core.old) listed.old areas.old watch.old misses.old) own).station) }
    ensures value { result ≡ switched_answer (start_of (station_in (core_in core.old) listed.old areas.old watch.old misses.old) own).answer }
    ensures misses_after { members_in listed.new areas.new watch.new misses.new ≡ (start_of (station_in (core_in core.old) listed.old areas.old watch.old misses.old) own).station.members }
    ensures to_all_after { messages_lent outgoing.new owed.new versions.new one_to_one.new to_all.new ≡ messages_started (station_in (core_in core.old) listed.old areas.old watch.old misses.old) (messages_lent outgoing.old owed.old versions.old one_to_one.old to_all.old) own allowance }
    ensures outgoing_after { outgoing.new ≡ kept_outgoing outgoing.old (outgoing_of (messages_started (station_in (core_in core.old) listed.old areas.old watch.old misses.old) (messages_lent outgoing.old owed.old versions.old one_to_one.old to_all.old) own allowance)) }
    ensures owed_after { owed.new ≡ kept_owed owed.old (messages_started (station_in (core_in core.old) listed.old areas.old watch.old misses.old) (messages_lent outgoing.old owed.old versions.old one_to_one.old to_all.old) own allowance).owed }
{
    let answer = boundary_switching::start(core, listed, areas, watch, misses, own);
    let begun = message_going::begun(allowance);
    begin_where(
        answer.word == DONE,
        begun,
        outgoing,
        owed,
        versions,
        one_to_one,
        to_all,
    );
    answer
}

// A stop forgets all of messages.
pub fn stop(
    core: &mut [u32; NUMBERS],
    listed: &mut [bool; 256],
    areas: &mut [u16; boundary_lists::AREA_NUMBERS],
    watch: &mut [u8; 256],
    misses: &mut [u8; 256],
    outgoing: &mut [u32; OUTGOING_NUMBERS],
    owed: &mut [u32; OWED_NUMBERS],
    versions: &mut [u32; 256],
    one_to_one: &mut [u32; 256],
    to_all: &mut [u32; 256],
) -> Answer
    ensures core_after { core_in core.new ≡ core_of (stop_of (station_in (core_in core.old) listed.old areas.old watch.old misses.old)).station }
    ensures core_after_2 { core.new ≡ kept core.old (core_of (stop_of (station_in (core_in core.old) listed.old areas.old watch.old misses.old)).station) }
    ensures value { result ≡ switched_answer (stop_of (station_in (core_in core.old) listed.old areas.old watch.old misses.old)).answer }
    ensures misses_after { members_in listed.new areas.new watch.new misses.new ≡ (stop_of (station_in (core_in core.old) listed.old areas.old watch.old misses.old)).station.members }
    ensures to_all_after { messages_lent outgoing.new owed.new versions.new one_to_one.new to_all.new ≡ messages_stopped (station_in (core_in core.old) listed.old areas.old watch.old misses.old) (messages_lent outgoing.old owed.old versions.old one_to_one.old to_all.old) }
    ensures outgoing_after { outgoing.new ≡ kept_outgoing outgoing.old (outgoing_of (messages_stopped (station_in (core_in core.old) listed.old areas.old watch.old misses.old) (messages_lent outgoing.old owed.old versions.old one_to_one.old to_all.old))) }
    ensures owed_after { owed.new ≡ kept_owed owed.old (messages_stopped (station_in (core_in core.old) listed.old areas.old watch.old misses.old) (messages_lent outgoing.old owed.old versions.old one_to_one.old to_all.old)).owed }
{
    let answer = boundary_switching::stop(core, listed, areas, watch, misses);
    let begun = message_going::nothing();
    begin_where(
        answer.word == DONE,
        begun,
        outgoing,
        owed,
        versions,
        one_to_one,
        to_all,
    );
    answer
}
