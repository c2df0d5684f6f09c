// The message part in the numbers that C keeps: what they hold, and what is put into them.
#![tactic(auto)]

use message::{Cycle, Slot};

// How many there are: of the outgoing side, and of the confirmations owed.
pub const OUTGOING_NUMBERS: usize = 18;

pub const OWED_NUMBERS: usize = 25;

// The mail buffer, and the most that a message has of data.
pub const MAIL_OCTETS: usize = 1024;

// The sequence numbers last given, 0 for none.
#[derive(Clone, Copy, Default)]
pub struct Given {
    // one to one
    pub one: u32,
    // to all
    pub all: u32,
}

// Whether a message went.
#[derive(Clone, Copy, Default)]
pub struct Went {
    // in this turn
    pub now: bool,
    // in the last one
    pub last: bool,
}

// The outgoing side of the message part: all but what is owed and what is known of the sources. It goes by value between the crates alone; C keeps it in
// numbers.
#[derive(Clone, Copy, Default)]
pub struct Outgoing {
    pub allowed: Cycle,
    // of our sequence numbers
    pub version: u32,
    pub slot: Slot,
    pub given: Given,
    pub went: Went,
}
