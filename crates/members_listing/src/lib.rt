// Listing a station.
#![tactic(auto)]

ghost use Rattle.std.specs.Prelude.{◌≡◌, ◌||◌};
ghost use Rattle.laws.specs.Usual.{cond};
ghost use Rattle.area.specs.Overlap.{areas_overlap};
ghost use Rattle.members.specs.Listing.{bare, overlaps_other, overlaps_listed, listing};

use area::{Areas, Part};
use area_overlap::areas_overlap;
use members::{Entry, Members};
use units::Milliseconds;

pub fn bare(areas: Areas) -> Areas
    ensures { result ≡ bare areas }
{
    Areas {
        one: Part {
            size: 0,
            ..areas.one
        },
        two: Part {
            size: 0,
            ..areas.two
        },
    }
}

fn overlaps_other(members: Members, number: u8, areas: Areas) -> bool
    ensures { result ≡ overlaps_other members number areas }
{
    let own = usize::from(number);
    members.entries.iter().enumerate().any(|(other, entry)| {
        entry.listed && other != own && areas_overlap(areas, entry.areas)
    })
}

// No entry has number 0, so every listed one is another station's.
pub fn overlaps_listed(members: Members, areas: Areas) -> bool
    ensures { result ≡ overlaps_listed members areas }
{
    overlaps_other(members, 0, areas)
}

// The areas that a station is listed with.
fn listed_areas(members: Members, number: u8, areas: Areas, ours: Areas) -> Areas
    ensures { result ≡ cond (overlaps_other members number areas || areas_overlap areas ours) (bare areas) areas }
{
    if overlaps_other(members, number, areas) | areas_overlap(areas, ours) {
        bare(areas)
    } else {
        areas
    }
}

// Our areas are given where our request has fallen due, else empty ones.
pub fn list(members: Members, number: u8, areas: Areas, watch: Milliseconds, ours: Areas) -> Members
    ensures { result ≡ listing members number areas watch ours }
{
    let entry = Entry {
        listed: true,
        areas: listed_areas(members, number, areas, ours),
        watch,
        misses: 0,
    };
    members::with_entry(members, number, entry)
}
