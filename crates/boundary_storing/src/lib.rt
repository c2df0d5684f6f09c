// An entry, and an empty list, stored in the arrays of numbers that hold a station list.
#![tactic(auto)]

ghost use Rattle.std.specs.Prelude.{◌≡◌};
ghost use Rattle.boundary_lists.specs.Lists.{members_in, Whole};
ghost use Rattle.members.specs.Members.{no_members, with_entry};

use members::Entry;

// Stores an entry. Slices, since a proof is told the length of a slice, and not of an array behind a reference.
fn store(
    entry: Entry,
    number: u8,
    listed: &mut [bool],
    areas: &mut [u16],
    watch: &mut [u8],
    misses: &mut [u8],
)
    requires { Whole listed.old areas.old watch.old misses.old }
    ensures { members_in listed.new areas.new watch.new misses.new ≡ with_entry (members_in listed.old areas.old watch.old misses.old) number entry }
{
    let place = number as usize;
    let start = 4 * place;
    listed[place] = entry.listed;
    areas[start] = entry.areas.one.address;
    areas[start + 1] = entry.areas.one.size;
    areas[start + 2] = entry.areas.two.address;
    areas[start + 3] = entry.areas.two.size;
    watch[place] = entry.watch.0;
    misses[place] = entry.misses;
}

pub fn put(
    entry: Entry,
    number: u8,
    listed: &mut [bool; 256],
    areas: &mut [u16; boundary_lists::AREA_NUMBERS],
    watch: &mut [u8; 256],
    misses: &mut [u8; 256],
)
    ensures { members_in listed.new areas.new watch.new misses.new ≡ with_entry (members_in listed.old areas.old watch.old misses.old) number entry }
{
    store(entry, number, listed, areas, watch, misses);
}

// Writes an empty list over what the arrays held, without looking at it.
pub fn empty(
    listed: &mut [bool; 256],
    areas: &mut [u16; boundary_lists::AREA_NUMBERS],
    watch: &mut [u8; 256],
    misses: &mut [u8; 256],
)
    ensures { members_in listed.new areas.new watch.new misses.new ≡ no_members }
{
    *listed = [false; 256];
    *areas = [0; boundary_lists::AREA_NUMBERS];
    *watch = [0; 256];
    *misses = [0; 256];
}
