// Overlaps looked for where the station list stands, in its arrays, from one listed number to the next.
#![tactic(auto)]

ghost use Rattle.std.specs.Prelude.{◌≡◌, ◌&&◌};
ghost use Rattle.laws.specs.Usual.{not};
ghost use Rattle.area.specs.Overlap.{areas_overlap};
ghost use Rattle.boundary_lists.specs.Lists.{members_in};
ghost use Rattle.members.specs.Listing.{overlaps_other, overlaps_listed};

use area::Areas;
use members::Entry;

fn overlaps_entry(entry: Entry, other: bool, parts: Areas) -> bool
    ensures { result ≡ ((entry.listed && other) && areas_overlap parts entry.areas) }
{
    let theirs = entry.areas;
    if entry.listed & other {
        return area_overlap::areas_overlap(parts, theirs);
    }
    false
}

// Whether these areas overlap those of a listed station other than `number`.
pub fn overlaps_other(
    listed: &[bool; 256],
    areas: &[u16; boundary_lists::AREA_NUMBERS],
    watch: &[u8; 256],
    misses: &[u8; 256],
    number: u8,
    parts: Areas,
) -> bool
    ensures { result ≡ overlaps_other (members_in listed.now areas.now watch.now misses.now) number parts }
{
    let own = number as usize;
    let mut other = boundary_flags::first_listed(listed, 0, 256);
    // No `for`: each turn goes on to the next listed number.
    while other < 256 {
        let entry = boundary_lists::entry_at(listed, areas, watch, misses, other as u8);
        if overlaps_entry(entry, other != own, parts) {
            return true;
        }
        other = boundary_flags::first_listed(listed, other + 1, 256);
    }
    false
}

// No entry has number 0, so every listed one is another station's.
pub fn overlaps_listed(
    listed: &[bool; 256],
    areas: &[u16; boundary_lists::AREA_NUMBERS],
    watch: &[u8; 256],
    misses: &[u8; 256],
    parts: Areas,
) -> bool
    ensures { result ≡ overlaps_listed (members_in listed.now areas.now watch.now misses.now) parts }
{
    overlaps_other(listed, areas, watch, misses, 0, parts)
}
