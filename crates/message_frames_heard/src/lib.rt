// A frame of the base heard by a station with messages, on its arrays, all changed in place. The ring part is what the base's hearing leaves.
#![tactic(auto)]

ghost use Rattle.std.specs.Prelude.{◌≡◌, ◌&&◌};
ghost use Rattle.laws.specs.Usual.{not, List};
ghost use Rattle.boundary_core.specs.Crossing.{core_of, station_in};
ghost use Rattle.boundary_lists.specs.Lists.{members_in};
ghost use Rattle.boundary_places.specs.Places.{core_in, kept};
ghost use Rattle.boundary_told.specs.Told.{heard_told};
ghost use Rattle.message.specs.declared.Confirmation.{Confirmation};
ghost use Rattle.message_frames_heard.specs.Heard.{messages_heard, read_in};
ghost use Rattle.message_places.specs.Outgoing.{outgoing_of, messages_of};
ghost use Rattle.message_places.specs.Owed.{kept_owed};
ghost use Rattle.message_places.specs.Places.{outgoing_in, kept_outgoing, messages_lent};
ghost use Rattle.message_rules.specs.Rules.Again.{turned};
ghost use Rattle.message_rules.specs.Rules.State.{Sources};
ghost use Rattle.station.specs.Rules.Hearing.{hear_of};
ghost use Rattle.station.specs.Rules.State.{is_off};

use boundary_core::{Answer, Core};
use boundary_places::NUMBERS;
use boundary_reading::core_in;
use frame_reading::SNA;
use message_confirmations::{confirmation_in, confirms};
use message_places::{OUTGOING_NUMBERS, OWED_NUMBERS};
use message_taking::is_holder;
use station::Phase;

// The word of an answer to a cyclic frame, for C: the call below answers numbers.
const CYCLIC: u8 = 2;

// Number 6 before we participate turns off.
fn turned_off(before: Core, after: Core) -> bool
    ensures { result ≡ (not (is_off before.phase) && is_off after.phase) }
{
    !state_tests::is_off(before.phase) & state_tests::is_off(after.phase)
}

// Its confirmation, if it may have one, and then the taking that it brings.
fn frame_turned(
    may: bool,
    taking: bool,
    own: u8,
    octets: &[u8],
    outgoing: &mut [u32; OUTGOING_NUMBERS],
)
    ensures sources_after { (owed : List Confirmation) (sources : Sources) → messages_of (outgoing_in outgoing.new) owed sources ≡ turned taking (read_in may own octets.now (messages_of (outgoing_in outgoing.old) owed sources)) }
    ensures outgoing_after { (owed : List Confirmation) (sources : Sources) → outgoing.new ≡ kept_outgoing outgoing.old (outgoing_of (turned taking (read_in may own octets.now (messages_of (outgoing_in outgoing.old) owed sources)))) }
{
    if may & confirms(octets) {
        let confirmation = confirmation_in(octets);
        message_turns::confirm(taking, own, octets[SNA], confirmation, outgoing);
    } else {
        message_turns::turn(taking, outgoing);
    }
}

pub fn hear(
    core: &mut [u32; NUMBERS],
    listed: &mut [bool; 256],
    areas: &mut [u16; boundary_lists::AREA_NUMBERS],
    watch: &mut [u8; 256],
    misses: &mut [u8; 256],
    outgoing: &mut [u32; OUTGOING_NUMBERS],
    owed: &mut [u32; OWED_NUMBERS],
    versions: &mut [u32; 256],
    one_to_one: &mut [u32; 256],
    to_all: &mut [u32; 256],
    octets: &[u8],
    memory: &mut [u8],
    assembly: &mut [u8],
) -> Answer
    ensures core_after { core_in core.new ≡ core_of (hear_of (station_in (core_in core.old) listed.old areas.old watch.old misses.old) octets.now memory.old assembly.old).station }
    ensures core_after_2 { core.new ≡ kept core.old (core_of (hear_of (station_in (core_in core.old) listed.old areas.old watch.old misses.old) octets.now memory.old assembly.old).station) }
    ensures value { result ≡ heard_told octets.now (hear_of (station_in (core_in core.old) listed.old areas.old watch.old misses.old) octets.now memory.old assembly.old).answer }
    ensures memory_after { memory.new ≡ (hear_of (station_in (core_in core.old) listed.old areas.old watch.old misses.old) octets.now memory.old assembly.old).memory }
    ensures assembly_after { assembly.new ≡ (hear_of (station_in (core_in core.old) listed.old areas.old watch.old misses.old) octets.now memory.old assembly.old).assembly }
    ensures misses_after { members_in listed.new areas.new watch.new misses.new ≡ (hear_of (station_in (core_in core.old) listed.old areas.old watch.old misses.old) octets.now memory.old assembly.old).station.members }
    ensures to_all_after { messages_lent outgoing.new owed.new versions.new one_to_one.new to_all.new ≡ messages_heard (station_in (core_in core.old) listed.old areas.old watch.old misses.old) (messages_lent outgoing.old owed.old versions.old one_to_one.old to_all.old) octets.now memory.old assembly.old }
    ensures outgoing_after { outgoing.new ≡ kept_outgoing outgoing.old (outgoing_of (messages_heard (station_in (core_in core.old) listed.old areas.old watch.old misses.old) (messages_lent outgoing.old owed.old versions.old one_to_one.old to_all.old) octets.now memory.old assembly.old)) }
    ensures owed_after { owed.new ≡ kept_owed owed.old (messages_heard (station_in (core_in core.old) listed.old areas.old watch.old misses.old) (messages_lent outgoing.old owed.old versions.old one_to_one.old to_all.old) octets.now memory.old assembly.old).owed }
{
    let before = core_in(core);
    let held = is_holder(core);
    let answer = boundary_hearing::hear(
        core, listed, areas, watch, misses, octets, memory, assembly,
    );
    if turned_off(before, core_in(core)) {
        let nothing = message_going::nothing();
        message_beginning::begin_where(true, nothing, outgoing, owed, versions, one_to_one, to_all);
        return answer;
    }
    let taking = is_holder(core) & !held;
    let may = before.is_in(Phase::Participating) & (answer.word == CYCLIC);
    message_owed::leave(owed);
    frame_turned(may, taking, before.own.number, octets, outgoing);
    answer
}
