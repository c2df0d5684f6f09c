// Our request sent in ring startup or in joining, on the core alone.
#![tactic(auto)]

ghost use Rattle.std.specs.Prelude.{◌≡◌, ◌≤◌};
ghost use Rattle.laws.specs.Usual.{[], length};
ghost use Rattle.boundary_answers.specs.Numbers.{frame_answer};
ghost use Rattle.boundary_requesting.specs.Requesting.{is_requesting, request_of, requesting_core};
ghost use Rattle.frame_writing.specs.Writing.{whole_length, output_of};

use boundary_answers::frame_answer;
use boundary_core::{Core, Outcome};
use station::Phase;

pub fn is_requesting(core: Core) -> bool
    ensures { result ≡ is_requesting core }
{
    core.is_in(Phase::Startup) | core.is_in(Phase::Joining)
}

fn after_request(core: Core) -> Core
    ensures { result ≡ requesting_core core }
{
    let own = core.own;
    if core.is_in(Phase::Joining) {
        return boundary_beginning::participate(own, core.view);
    }
    Core { sent: true, ..core }
}

pub fn send(core: Core, output: &mut [u8]) -> Outcome
    requires { 1088 ≤ length output.old }
    ensures core_value { result.core ≡ requesting_core core }
    ensures answer_value { result.answer ≡ frame_answer (whole_length (request_of core.own)) }
    ensures output_after { output.new ≡ output_of (request_of core.own) [] output.old }
{
    let own = core.own;
    let octets = asking_bare::write_bare(asking_bare::request_fields(own), output);
    Outcome {
        core: after_request(core),
        answer: frame_answer(octets),
    }
}
