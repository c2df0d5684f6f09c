// The test of a frame that a participant hears, and its watch restarted, on its core alone.
#![tactic(auto)]

ghost use Rattle.std.specs.Prelude.{◌≡◌};
ghost use Rattle.boundary_participant.specs.Quick.{is_accepted, restarted_core};

use boundary_core::Core;
use frame::Fields;
use station::{Gathering, Phase};
use units::Ticks;

// Whether a participant accepts a cyclic frame that was read, by whether its source and its destination are listed.
pub fn is_accepted(core: Core, source: bool, destination: bool, frame: Fields) -> bool
    ensures { result ≡ is_accepted core source destination frame }
{
    let code = frame.code;
    let number = core.own.number;
    let cyclic = core.is_in(Phase::Participating) & frame::is_cyclic(code);
    let other = (frame.source != number) & source;
    let known = !frame::is_token(code) | ((frame.destination == number) | destination);
    cyclic & (other & known)
}

// The watch restarts, with another view and gathering.
pub fn restart(core: Core, view: u8, gathering: Gathering) -> Core
    ensures { result ≡ restarted_core core view gathering }
{
    let number = core.own.number;
    let counter = core.panel;
    let block = state_parts::place_kept(view, number, core.block);
    let panel = state_parts::taken_if(state_tests::takes(number, core.view, view), counter);
    Core {
        phase: Phase::Participating,
        elapsed: Ticks(0),
        view,
        block,
        gathering,
        panel,
        ..core
    }
}
