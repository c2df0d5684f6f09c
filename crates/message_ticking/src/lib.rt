// A tick of a station with messages, on the core, the list and the outgoing side in arrays, all changed in place.
#![tactic(auto)]

ghost use Rattle.std.specs.Prelude.{◌≡◌};
ghost use Rattle.laws.specs.Usual.{List};
ghost use Rattle.boundary_answers.specs.Numbers.{ticked_answer};
ghost use Rattle.boundary_core.specs.Crossing.{core_of, station_in};
ghost use Rattle.boundary_lists.specs.Lists.{members_in};
ghost use Rattle.boundary_places.specs.Places.{core_in, kept};
ghost use Rattle.message.specs.declared.Confirmation.{Confirmation};
ghost use Rattle.message_places.specs.Outgoing.{outgoing_of, messages_of};
ghost use Rattle.message_places.specs.Places.{outgoing_in, kept_outgoing};
ghost use Rattle.message_rules.specs.Rules.State.{Sources};
ghost use Rattle.message_ticking.specs.Ticked.{tick_in};
ghost use Rattle.station.specs.Rules.Ticking.{tick_of};

use boundary_core::Answer;
use boundary_places::NUMBERS;
use message_places::OUTGOING_NUMBERS;
use message_taking::is_holder;

// The ring part is what the base's tick leaves; a taking is told by it before and after.
pub fn tick(
    core: &mut [u32; NUMBERS],
    listed: &mut [bool; 256],
    areas: &mut [u16; boundary_lists::AREA_NUMBERS],
    watch: &mut [u8; 256],
    misses: &mut [u8; 256],
    outgoing: &mut [u32; OUTGOING_NUMBERS],
) -> Answer
    ensures core_after { core_in core.new ≡ core_of (tick_of (station_in (core_in core.old) listed.old areas.old watch.old misses.old)).station }
    ensures core_after_2 { core.new ≡ kept core.old (core_of (tick_of (station_in (core_in core.old) listed.old areas.old watch.old misses.old)).station) }
    ensures value { result ≡ ticked_answer (tick_of (station_in (core_in core.old) listed.old areas.old watch.old misses.old)).answer }
    ensures misses_after { members_in listed.new areas.new watch.new misses.new ≡ (tick_of (station_in (core_in core.old) listed.old areas.old watch.old misses.old)).station.members }
    ensures sources_after { (owed : List Confirmation) (sources : Sources) → messages_of (outgoing_in outgoing.new) owed sources ≡ (tick_in (core_in core.old) listed.old areas.old watch.old misses.old (outgoing_in outgoing.old) owed sources).both.messages }
    ensures outgoing_after { (owed : List Confirmation) (sources : Sources) → outgoing.new ≡ kept_outgoing outgoing.old (outgoing_of (tick_in (core_in core.old) listed.old areas.old watch.old misses.old (outgoing_in outgoing.old) owed sources).both.messages) }
{
    let held = is_holder(core);
    let answer = boundary_ticks::tick(core, listed, areas, watch, misses);
    let taking = is_holder(core) & !held;
    message_turns::tick(taking, outgoing);
    answer
}
