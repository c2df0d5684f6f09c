// A tick that ends a participant's watch, with the list in place: the station in view gets a miss, or is struck.
#![tactic(auto)]

ghost use Rattle.std.specs.Prelude.{◌≡◌};
ghost use Rattle.laws.specs.Usual.{false};
ghost use Rattle.boundary_answers.specs.Numbers.{ticked_answer};
ghost use Rattle.boundary_core.specs.Crossing.{core_of, station_in};
ghost use Rattle.boundary_lists.specs.Lists.{members_in};
ghost use Rattle.boundary_watch.specs.Watch.{is_quiet};
ghost use Rattle.boundary_silence.specs.Silence.{missed_entry, left_by, silenced_core};
ghost use Rattle.members.specs.Members.{missed};
ghost use Rattle.station.specs.Rules.Ticking.{tick_of, watch_time};
ghost use Rattle.station.specs.declared.Phase.TheVariants.{Participating};

use boundary_core::{Core, Outcome};
use members::Entry;
use station::Gathering;
use units::Milliseconds;

// An entry after a miss: the third in a row strikes it.
fn missed_entry(entry: Entry) -> Entry
    ensures { result ≡ missed_entry entry }
{
    if 2 <= entry.misses {
        return Entry {
            listed: false,
            areas: state_parts::no_areas(),
            watch: Milliseconds(0),
            misses: 0,
        };
    }
    Entry {
        misses: entry.misses + 1,
        ..entry
    }
}

fn miss(
    listed: &mut [bool; 256],
    areas: &mut [u16; boundary_lists::AREA_NUMBERS],
    watch: &mut [u8; 256],
    misses: &mut [u8; 256],
    number: u8,
)
    ensures { members_in listed.new areas.new watch.new misses.new ≡ missed (members_in listed.old areas.old watch.old misses.old) number }
{
    let entry = boundary_lists::entry_at(listed, areas, watch, misses, number);
    if entry.listed {
        boundary_storing::put(missed_entry(entry), number, listed, areas, watch, misses);
    }
}

// What is left of a gathering when a station gets a miss.
fn left(entry: Entry, number: u8, gathering: Gathering) -> Gathering
    ensures { result ≡ left_by entry number gathering }
{
    if entry.listed & (2 <= entry.misses) {
        state_parts::without(number, gathering)
    } else {
        gathering
    }
}

fn silence(core: Core, next: u8, entry: Entry) -> Core
    ensures { result ≡ silenced_core core next entry }
{
    let counter = core.panel;
    let before = core.gathering;
    let panel = panel::tick(counter);
    let gathering = left(entry, core.view, before);
    let core = Core { panel, ..core };
    boundary_participant::restart(core, next, gathering)
}

pub fn tick(
    core: Core,
    listed: &mut [bool; 256],
    areas: &mut [u16; boundary_lists::AREA_NUMBERS],
    watch: &mut [u8; 256],
    misses: &mut [u8; 256],
) -> Outcome
    requires phase_value { core.phase ≡ Participating }
    requires misses_value { is_quiet core (watch_time (station_in core listed.old areas.old watch.old misses.old)) ≡ false }
    ensures core_value { result.core ≡ core_of (tick_of (station_in core listed.old areas.old watch.old misses.old)).station }
    ensures answer_value { result.answer ≡ ticked_answer (tick_of (station_in core listed.old areas.old watch.old misses.old)).answer }
    ensures misses_after { members_in listed.new areas.new watch.new misses.new ≡ (tick_of (station_in core listed.old areas.old watch.old misses.old)).station.members }
{
    let view = core.view;
    let next = boundary_next::next_after(core.own.number, listed, view);
    let entry = boundary_lists::entry_at(listed, areas, watch, misses, view);
    miss(listed, areas, watch, misses, view);
    Outcome {
        core: silence(core, next, entry),
        answer: boundary_answers::done(),
    }
}
