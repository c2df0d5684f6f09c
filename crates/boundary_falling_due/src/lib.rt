// Our request falls due, with the list in place.
#![tactic(auto)]

ghost use Rattle.std.specs.Prelude.{◌≡◌};
ghost use Rattle.boundary_falling_due.specs.Due.{owned_core};
ghost use Rattle.boundary_lists.specs.Lists.{members_in};
ghost use Rattle.station.specs.Rules.Starting.{own_due};

use boundary_core::Core;
use station::Settings;

// Our settings when our request falls due: with both sizes 0 where our areas overlap a listed one.
fn own_due(
    own: Settings,
    listed: &[bool; 256],
    areas: &[u16; boundary_lists::AREA_NUMBERS],
    watch: &[u8; 256],
    misses: &[u8; 256],
) -> Settings
    ensures { result ≡ own_due own (members_in listed.now areas.now watch.now misses.now) }
{
    let parts = own.areas;
    if boundary_overlap::overlaps_listed(listed, areas, watch, misses, parts) {
        let areas = members_listing::bare(parts);
        return Settings { areas, ..own };
    }
    own
}

// Our request falls due: our settings are those, and the rest of the core stays.
pub fn fall_due(
    core: Core,
    listed: &[bool; 256],
    areas: &[u16; boundary_lists::AREA_NUMBERS],
    watch: &[u8; 256],
    misses: &[u8; 256],
) -> Core
    ensures { result ≡ owned_core core (own_due core.own (members_in listed.now areas.now watch.now misses.now)) }
{
    let before = core.own;
    let own = own_due(before, listed, areas, watch, misses);
    Core { own, ..core }
}
