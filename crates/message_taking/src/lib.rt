// A taking, told by the core in numbers before and after a call.
#![tactic(auto)]

ghost use Rattle.std.specs.Prelude.{◌≡◌};
ghost use Rattle.boundary_core.specs.Crossing.{station_of};
ghost use Rattle.boundary_places.specs.Places.{core_in};
ghost use Rattle.message_taking.specs.Taking.{is_holder};
ghost use Rattle.station.specs.Types.{Members};

use boundary_places::NUMBERS;
use boundary_reading::core_in;
use station::Phase;

// Whether we participate and hold the token. The list does not matter to it.
pub fn is_holder(core: &[u32; NUMBERS]) -> bool
    ensures { (members : Members) → result ≡ is_holder (station_of (core_in core.now) members) }
{
    let state = core_in(core);
    let own = state.own;
    state.is_in(Phase::Participating) & (state.view == own.number)
}
