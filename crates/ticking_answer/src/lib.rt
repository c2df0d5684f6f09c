// What a tick is answered.
#![tactic(auto)]

ghost use Rattle.std.specs.Prelude.{◌≡◌};
ghost use Rattle.station.specs.Rules.Ticking.{tick_answer};

use station::{Phase, Ticked};

pub fn answer_in(phase: Phase) -> Ticked
    ensures { result ≡ tick_answer phase }
{
    match phase {
        Phase::Off => Ticked::Off,
        _ => Ticked::Done,
    }
}
