// A participant that holds the token, and its block sent, on its core alone.
#![tactic(auto)]

ghost use Rattle.std.specs.Prelude.{◌≡◌};
ghost use Rattle.laws.specs.Usual.{true};
ghost use Rattle.boundary_holder.specs.Held.{holds_block, sent_core};

use boundary_core::Core;
use station::Phase;
use units::Ticks;

pub fn holds_block(core: Core) -> bool
    ensures { result ≡ holds_block core }
{
    let own = core.own;
    core.is_in(Phase::Participating)
        & ((core.view == own.number) & asking_placing::is_placed(own, core.block))
}

// The core after a block is sent, where `next` is the number next after ours.
pub fn sent_block(core: Core, next: u8) -> Core
    requires { holds_block core ≡ true }
    ensures { result ≡ sent_core core next }
{
    let own = core.own;
    let counter = core.panel;
    let after = asking_placing::after_block(own, core.view, core.block, counter, next);
    let panel = after.panel;
    Core {
        phase: Phase::Participating,
        elapsed: Ticks(0),
        view: after.view,
        block: after.block,
        panel,
        ..core
    }
}
