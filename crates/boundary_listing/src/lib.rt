// A station listed where the list stands, in its arrays: all listed entries are read, and one is written.
#![tactic(auto)]

ghost use Rattle.std.specs.Prelude.{◌≡◌, ◌||◌};
ghost use Rattle.laws.specs.Usual.{cond};
ghost use Rattle.area.specs.Overlap.{areas_overlap};
ghost use Rattle.boundary_lists.specs.Lists.{members_in};
ghost use Rattle.members.specs.Listing.{bare, overlaps_other, listing};

use area::Areas;
use members::Entry;
use units::Milliseconds;

// The areas that a station is listed with.
fn listed_areas(
    listed: &[bool; 256],
    areas: &[u16; boundary_lists::AREA_NUMBERS],
    watch: &[u8; 256],
    misses: &[u8; 256],
    number: u8,
    parts: Areas,
    ours: Areas,
) -> Areas
    ensures { result ≡ cond (overlaps_other (members_in listed.now areas.now watch.now misses.now) number parts || areas_overlap parts ours) (bare parts) parts }
{
    if boundary_overlap::overlaps_other(listed, areas, watch, misses, number, parts)
        | area_overlap::areas_overlap(parts, ours)
    {
        members_listing::bare(parts)
    } else {
        parts
    }
}

// Our areas are given where our request has fallen due, else empty ones.
pub fn list(
    listed: &mut [bool; 256],
    areas: &mut [u16; boundary_lists::AREA_NUMBERS],
    watch: &mut [u8; 256],
    misses: &mut [u8; 256],
    number: u8,
    parts: Areas,
    time: Milliseconds,
    ours: Areas,
)
    ensures { members_in listed.new areas.new watch.new misses.new ≡ listing (members_in listed.old areas.old watch.old misses.old) number parts time ours }
{
    let entry = Entry {
        listed: true,
        areas: listed_areas(listed, areas, watch, misses, number, parts, ours),
        watch: time,
        misses: 0,
    };
    boundary_storing::put(entry, number, listed, areas, watch, misses);
}
