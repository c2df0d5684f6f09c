// The units of time. Each wraps its number, so that none can be taken for another.
#![tactic(auto)]

ghost use Rattle.std.specs.Prelude.{◌≡◌};
ghost use Rattle.units.specs.Time.{as_wait, in_ticks};

// A number of ticks of 100 microseconds.
#[repr(C)]
#[derive(Clone, Copy, PartialEq, Eq, PartialOrd, Ord, Default)]
pub struct Ticks(pub u32);

// A number of milliseconds: a watch time, as wide as its field of a frame.
#[repr(C)]
#[derive(Clone, Copy, PartialEq, Eq, Default)]
pub struct Milliseconds(pub u8);

// A number of milliseconds that can be greater than any watch time: a wait.
#[derive(Clone, Copy)]
pub struct Wait(pub u16);

impl From<Milliseconds> for Wait {
    ghost from_gives = { λ watch wait. wait.0 ≡ (as_wait watch).0 };

    fn from(watch: Milliseconds) -> Wait {
        Wait(u16::from(watch.0))
    }
}

// "10 ticks each": the only way from milliseconds to ticks.
impl From<Wait> for Ticks {
    ghost from_gives = { λ wait ticks. ticks.0 ≡ (in_ticks wait).0 };

    fn from(wait: Wait) -> Ticks {
        Ticks(u32::from(wait.0) * 10)
    }
}
