// The state of a station, and what its calls answer.
#![tactic(auto)]

use area::Areas;
use frame::Refusal;
use members::Members;
use panel::Panel;
use units::{Milliseconds, Ticks};

#[derive(Clone, Copy, PartialEq, Eq)]
pub enum Phase {
    Off,
    Listening,
    Startup,
    Joining,
    Participating,
}

// What a station is started with.
#[repr(C)]
#[derive(Clone, Copy)]
pub struct Settings {
    pub number: u8,
    pub areas: Areas,
    pub watch: Milliseconds,
}

// What has been put together of a turn: whose it is, and how many of its blocks. Source 0 is nobody's: C keeps the two numbers, and no Option.
#[repr(C)]
#[derive(Clone, Copy, PartialEq, Eq)]
pub struct Gathering {
    pub source: u8,
    pub blocks: u8,
}

#[derive(Clone, Copy)]
pub struct Station {
    pub phase: Phase,
    pub own: Settings,
    pub members: Members,
    // Ticks since listening or ring startup began, since the last token frame heard in joining, or since the watch restarted.
    pub elapsed: Ticks,
    // In joining, ticks since the third round ended.
    pub waited: Ticks,
    // In joining, the rounds that have ended.
    pub rounds: u8,
    // In ring startup, whether our request has been sent.
    pub sent: bool,
    // A participant's view; in joining the last token destination heard.
    pub view: u8,
    // How many blocks of our turn have been sent.
    pub block: u8,
    pub gathering: Gathering,
    pub panel: Panel,
}

// A call of a station: the state after it, and the answer.
#[derive(Clone, Copy)]
pub struct Answered<A> {
    pub station: Station,
    pub answer: A,
}

#[derive(Clone, Copy, PartialEq, Eq)]
pub enum Ticked {
    Off,
    Done,
}

// What became of a cyclic frame's data.
#[derive(Clone, Copy, PartialEq, Eq)]
pub enum Data {
    Kept,
    Written,
    Dropped,
    Repeat,
}

// "has what became of the token (none, passed on, ours now": each case carries what became of the data (paper 01, list of forms).
#[derive(Clone, Copy, PartialEq, Eq)]
pub enum Token {
    None(Data),
    PassedOn(Data),
    OursNow(Data),
    RivalPassedOver(Data),
    RivalWon(Data),
}

// No Result: a refusal is one of four answers, and off and done say nothing that an Ok could hold.
#[derive(Clone, Copy)]
pub enum Heard {
    Off,
    Done,
    Cyclic(Token),
    Refused(Refusal),
}
