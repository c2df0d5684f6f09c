// The state without its list.
#![tactic(auto)]

ghost use Rattle.std.specs.Prelude.{◌≡◌};
ghost use Rattle.boundary_core.specs.Crossing.{is_in};

mod phase;

pub use boundary_answers::{Answer, Route};
use panel::Panel;
pub use phase::{phase_number, phase_of};
use station::{Gathering, Phase, Settings};
use units::Ticks;

// The phases' numbers, by which C knows them. No other is a phase's.
pub const OFF: u8 = 0;

pub const LISTENING: u8 = 1;

pub const STARTUP: u8 = 2;

pub const JOINING: u8 = 3;

pub const PARTICIPATING: u8 = 4;

// A station's state without its list. It goes by value between the crates alone, where the compiler takes it apart;
// C keeps it in numbers (`boundary_places`).
#[repr(C)]
#[derive(Clone, Copy)]
pub struct Core {
    pub phase: Phase,
    pub own: Settings,
    pub view: u8,
    pub block: u8,
    pub elapsed: Ticks,
    pub waited: Ticks,
    pub rounds: u8,
    pub sent: bool,
    pub gathering: Gathering,
    pub panel: Panel,
}

impl Core {
    pub fn is_in(self, phase: Phase) -> bool
        ensures { result ≡ is_in phase self }
    {
        self.phase == phase
    }
}

// A call's result: the state after it, and the answer.
#[repr(C)]
#[derive(Clone, Copy)]
pub struct Outcome {
    pub core: Core,
    pub answer: Answer,
}
