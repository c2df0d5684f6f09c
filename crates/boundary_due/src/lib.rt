// Whether a frame of ours is due, told by the core alone, and why an asking is refused.
#![tactic(auto)]

ghost use Rattle.std.specs.Prelude.{◌≡◌};
ghost use Rattle.boundary_due.specs.Due.{due_core, ask_refusal};

use boundary_core::Core;
use frame::Refusal;
use station::Phase;

pub fn is_due(core: Core) -> bool
    ensures { result ≡ due_core core }
{
    let own = core.own;
    let elapsed = core.elapsed;
    let waited = core.waited;
    match core.phase {
        Phase::Off => false,
        Phase::Listening => waits_lengths::listening_time(own.number).0 <= elapsed.0,
        Phase::Startup => (waits_lengths::number_wait(own.number).0 <= elapsed.0) & !core.sent,
        Phase::Joining => (core.rounds == 3)
            & (waits_lengths::number_wait(own.number).0 <= waited.0),
        Phase::Participating => (core.view == own.number)
            & asking_placing::is_placed(own, core.block),
    }
}

// 11 before 10.
pub fn ask_refusal(lent: bool) -> Refusal
    ensures { result ≡ ask_refusal lent }
{
    if lent {
        Refusal::NotDue
    } else {
        Refusal::Buffer
    }
}
