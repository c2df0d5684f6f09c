// Our frames without data, with the list in its arrays: our request leaves it alone, and our trigger begins ring startup with an empty list.
#![tactic(auto)]

ghost use Rattle.std.specs.Prelude.{◌≡◌, ◌≤◌};
ghost use Rattle.laws.specs.Usual.{[], length};
ghost use Rattle.boundary_answers.specs.Numbers.{frame_answer};
ghost use Rattle.boundary_bare.specs.Bare.{bare_fields, after_bare};
ghost use Rattle.boundary_core.specs.Crossing.{core_of};
ghost use Rattle.boundary_lists.specs.Lists.{members_in};
ghost use Rattle.frame_round_trip.specs.Sent.{trigger_fields};
ghost use Rattle.frame_writing.specs.Writing.{whole_length, output_of};
ghost use Rattle.members.specs.Members.{no_members};
ghost use Rattle.station.specs.Rules.State.{fresh};
ghost use Rattle.station.specs.declared.Phase.TheVariants.{Startup};

use boundary_answers::frame_answer;
use boundary_core::{Core, Outcome};
use station::Phase;

// "A trigger sent .. begins ring startup".
fn trigger(
    core: Core,
    listed: &mut [bool; 256],
    areas: &mut [u16; boundary_lists::AREA_NUMBERS],
    watch: &mut [u8; 256],
    misses: &mut [u8; 256],
    output: &mut [u8],
) -> Outcome
    requires { 1088 ≤ length output.old }
    ensures core_value { result.core ≡ core_of (fresh Startup core.own) }
    ensures answer_value { result.answer ≡ frame_answer (whole_length (trigger_fields core.own.number)) }
    ensures output_after { output.new ≡ output_of (trigger_fields core.own.number) [] output.old }
    ensures misses_after { members_in listed.new areas.new watch.new misses.new ≡ no_members }
{
    let own = core.own;
    let octets = asking_bare::write_bare(asking_bare::trigger_fields(own.number), output);
    Outcome {
        core: boundary_beginning::begin(Phase::Startup, own, listed, areas, watch, misses),
        answer: frame_answer(octets),
    }
}

// Writes our request in ring startup and in joining, else our trigger.
pub fn send(
    core: Core,
    listed: &mut [bool; 256],
    areas: &mut [u16; boundary_lists::AREA_NUMBERS],
    watch: &mut [u8; 256],
    misses: &mut [u8; 256],
    output: &mut [u8],
) -> Outcome
    requires { 1088 ≤ length output.old }
    ensures core_value { result.core ≡ core_of (after_bare core (members_in listed.old areas.old watch.old misses.old)) }
    ensures answer_value { result.answer ≡ frame_answer (whole_length (bare_fields core)) }
    ensures output_after { output.new ≡ output_of (bare_fields core) [] output.old }
    ensures misses_after { members_in listed.new areas.new watch.new misses.new ≡ (after_bare core (members_in listed.old areas.old watch.old misses.old)).members }
{
    if boundary_requesting::is_requesting(core) {
        return boundary_requesting::send(core, output);
    }
    trigger(core, listed, areas, watch, misses, output)
}
