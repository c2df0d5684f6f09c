// Tests of a phase and of a view.
#![tactic(auto)]

ghost use Rattle.std.specs.Prelude.{◌≡◌};
ghost use Rattle.station.specs.Rules.State.{is_off, is_participating, holds as holds_of};
ghost use Rattle.station.specs.Rules.Token.{takes as takes_of};

use station::{Phase, Station};

pub fn is_off(phase: Phase) -> bool
    ensures { result ≡ is_off phase }
{
    phase == Phase::Off
}

pub fn is_participating(phase: Phase) -> bool
    ensures { result ≡ is_participating phase }
{
    phase == Phase::Participating
}

pub fn holds(station: Station) -> bool
    ensures { result ≡ holds_of station }
{
    station.view == station.own.number
}

// Whether a step that moves our view from one number to another is a taking.
pub fn takes(own: u8, before: u8, after: u8) -> bool
    ensures { result ≡ takes_of own before after }
{
    after == own && before != own
}
