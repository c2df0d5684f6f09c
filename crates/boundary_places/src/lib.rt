// The core in the numbers that C keeps: what they hold, and what is put into them. `boundary_reading` takes it out, `boundary_keeping` puts it back.
#![tactic(auto)]

// How many there are.
pub const NUMBERS: usize = 18;
