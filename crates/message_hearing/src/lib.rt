// Hearing by a station with messages, on its arrays, all changed in place: a message, or a frame of the base.
#![tactic(auto)]

ghost use Rattle.std.specs.Prelude.{◌≡◌};
ghost use Rattle.boundary_core.specs.Crossing.{core_of, station_in};
ghost use Rattle.boundary_lists.specs.Lists.{members_in};
ghost use Rattle.boundary_places.specs.Places.{core_in, kept};
ghost use Rattle.message_answers.specs.Numbers.{received_told};
ghost use Rattle.message_hearing.specs.Heard.{hear_both};
ghost use Rattle.message_places.specs.Outgoing.{outgoing_of};
ghost use Rattle.message_places.specs.Owed.{kept_owed};
ghost use Rattle.message_places.specs.Places.{kept_outgoing, messages_lent};

use boundary_places::NUMBERS;
use message_answers::Reception;
use message_places::{OUTGOING_NUMBERS, OWED_NUMBERS};

pub fn hear(
    core: &mut [u32; NUMBERS],
    listed: &mut [bool; 256],
    areas: &mut [u16; boundary_lists::AREA_NUMBERS],
    watch: &mut [u8; 256],
    misses: &mut [u8; 256],
    outgoing: &mut [u32; OUTGOING_NUMBERS],
    owed: &mut [u32; OWED_NUMBERS],
    versions: &mut [u32; 256],
    one_to_one: &mut [u32; 256],
    to_all: &mut [u32; 256],
    octets: &[u8],
    memory: &mut [u8],
    assembly: &mut [u8],
) -> Reception
    ensures core_after { core_in core.new ≡ core_of (hear_both (station_in (core_in core.old) listed.old areas.old watch.old misses.old) (messages_lent outgoing.old owed.old versions.old one_to_one.old to_all.old) octets.now memory.old assembly.old).both.ring }
    ensures core_after_2 { core.new ≡ kept core.old (core_of (hear_both (station_in (core_in core.old) listed.old areas.old watch.old misses.old) (messages_lent outgoing.old owed.old versions.old one_to_one.old to_all.old) octets.now memory.old assembly.old).both.ring) }
    ensures value { result ≡ received_told octets.now (hear_both (station_in (core_in core.old) listed.old areas.old watch.old misses.old) (messages_lent outgoing.old owed.old versions.old one_to_one.old to_all.old) octets.now memory.old assembly.old).answer }
    ensures memory_after { memory.new ≡ (hear_both (station_in (core_in core.old) listed.old areas.old watch.old misses.old) (messages_lent outgoing.old owed.old versions.old one_to_one.old to_all.old) octets.now memory.old assembly.old).memory }
    ensures assembly_after { assembly.new ≡ (hear_both (station_in (core_in core.old) listed.old areas.old watch.old misses.old) (messages_lent outgoing.old owed.old versions.old one_to_one.old to_all.old) octets.now memory.old assembly.old).assembly }
    ensures misses_after { members_in listed.new areas.new watch.new misses.new ≡ (hear_both (station_in (core_in core.old) listed.old areas.old watch.old misses.old) (messages_lent outgoing.old owed.old versions.old one_to_one.old to_all.old) octets.now memory.old assembly.old).both.ring.members }
    ensures to_all_after { messages_lent outgoing.new owed.new versions.new one_to_one.new to_all.new ≡ (hear_both (station_in (core_in core.old) listed.old areas.old watch.old misses.old) (messages_lent outgoing.old owed.old versions.old one_to_one.old to_all.old) octets.now memory.old assembly.old).both.messages }
    ensures outgoing_after { outgoing.new ≡ kept_outgoing outgoing.old (outgoing_of (hear_both (station_in (core_in core.old) listed.old areas.old watch.old misses.old) (messages_lent outgoing.old owed.old versions.old one_to_one.old to_all.old) octets.now memory.old assembly.old).both.messages) }
    ensures owed_after { owed.new ≡ kept_owed owed.old (hear_both (station_in (core_in core.old) listed.old areas.old watch.old misses.old) (messages_lent outgoing.old owed.old versions.old one_to_one.old to_all.old) octets.now memory.old assembly.old).both.messages.owed }
{
    if message_letters::is_letter(octets, memory, assembly) {
        return message_letters_heard::hear_letter(
            core, listed, areas, watch, misses, outgoing, owed, versions, one_to_one, to_all,
            octets,
        );
    }
    message_answers::told(message_frames_heard::hear(
        core, listed, areas, watch, misses, outgoing, owed, versions, one_to_one, to_all, octets,
        memory, assembly,
    ))
}
