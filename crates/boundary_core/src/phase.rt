// The phases and their numbers.
ghost use Rattle.std.specs.Prelude.{◌≡◌};
ghost use Rattle.boundary_core.specs.Crossing.{phase_of};
ghost use Rattle.station.specs.Rules.Answers.{phase_number};

use station::Phase;

pub fn phase_of(number: u8) -> Phase
    ensures { result ≡ phase_of number }
{
    match number {
        crate::LISTENING => Phase::Listening,
        crate::STARTUP => Phase::Startup,
        crate::JOINING => Phase::Joining,
        crate::PARTICIPATING => Phase::Participating,
        _ => Phase::Off,
    }
}

pub fn phase_number(phase: Phase) -> u8
    ensures { result ≡ phase_number phase }
{
    match phase {
        Phase::Off => crate::OFF,
        Phase::Listening => crate::LISTENING,
        Phase::Startup => crate::STARTUP,
        Phase::Joining => crate::JOINING,
        Phase::Participating => crate::PARTICIPATING,
    }
}
