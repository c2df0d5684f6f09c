// The waits of clause 8.7, in ticks.
#![tactic(auto)]

ghost use Rattle.std.specs.Prelude.{◌≡◌, ◌+◌};
ghost use Rattle.station.specs.Rules.Waits.{detection_wait, acceptance_time, number_wait, trigger_wait, listening_time};

use units::{Ticks, Wait};

pub fn detection_wait() -> Ticks
    ensures { result.0 ≡ detection_wait }
{
    Ticks::from(Wait(3000))
}

pub fn acceptance_time() -> Ticks
    ensures { result.0 ≡ acceptance_time }
{
    Ticks::from(Wait(1200))
}

pub fn number_wait(number: u8) -> Ticks
    ensures { result.0 ≡ number_wait number }
{
    Ticks::from(Wait(4 * u16::from(number)))
}

fn trigger_wait(number: u8) -> Ticks
    ensures { result.0 ≡ trigger_wait number }
{
    Ticks::from(Wait(4 * (u16::from(number) % 8)))
}

// Listening until a trigger is due: token detection, then the trigger wait.
pub fn listening_time(number: u8) -> Ticks
    ensures { result.0 ≡ listening_time number }
{
    Ticks(detection_wait().0 + trigger_wait(number).0)
}
