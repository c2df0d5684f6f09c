// How many stations have each view, and how many different views there are: counted once, and adjusted at a pass and at a silence by view
// and not by station, so that no adjustment waits for the one before it.
#![tactic(auto)]

ghost use Rattle.std.specs.Prelude.{◌≡◌, ◌+◌, ◌*◌, ◌≤◌};
ghost use Rattle.laws.specs.Usual.{min, length, get_or};
ghost use Rattle.settle_moves.specs.Moves.{passed_view};
ghost use Rattle.settle_counts.specs.Counts.{above_zero, counts_of, sum_of, most, carried_numbers};
ghost use Rattle.settle_counts.specs.Passing.{is_moved, without_moved};

use settle_views::Ring;

// How many stations have each view, and how many of these numbers are above 0.
#[derive(Clone, Copy)]
pub struct Counts {
    pub numbers: [u16; 256],
    pub total: u32,
}

fn above_zero(numbers: &[u16]) -> u32
    requires { length numbers.now ≤ 256 }
    ensures { result ≡ above_zero numbers.now }
{
    // A count of 32 bits is made in wide steps; filter and count, in 64 bits, was built without them.
    let mut total: u32 = 0;
    for number in numbers {
        if *number != 0 {
            total += 1;
        }
    }
    total
}

// Counts the stations of each view.
pub fn count(ring: Ring) -> Counts
    ensures { result ≡ counts_of ring }
{
    let mut numbers = [0u16; 256];
    for view in ring.views {
        if view != 0 {
            numbers[view as usize] += 1;
        }
    }
    let total = above_zero(&numbers);
    Counts { numbers, total }
}

// Takes away the numbers of the views that a pass moves, and answers their sum.
fn take_moved(numbers: &mut [u16], from: usize, to: usize) -> u32
    requires { length numbers.old ≡ 256 }
    ensures value { result ≡ sum_of (is_moved from to) 0 numbers.old }
    ensures numbers_after { numbers.new ≡ without_moved from to numbers.old }
    ensures upper_bound { result ≤ 256 * most }
{
    let mut moved: u32 = 0;
    for view in 1..numbers.len() {
        if (view == from) | (to < view) {
            moved += numbers[view] as u32;
            numbers[view] = 0;
        }
    }
    moved
}

fn pass(numbers: &mut [u16], from: u8, to: u8) -> u32
    requires { length numbers.old ≡ 256 }
    ensures value { result ≡ above_zero (carried_numbers (λ view. passed_view view from to) numbers.old) }
    ensures numbers_after { numbers.new ≡ carried_numbers (λ view. passed_view view from to) numbers.old }
{
    let moved = take_moved(numbers, from as usize, to as usize);
    let sum = numbers[to as usize] as u32 + moved;
    numbers[to as usize] = sum.min(65535) as u16;
    above_zero(numbers)
}

// A pass: the number of `from` and those above `to` go to `to`.
pub fn pass_counts(numbers: &mut [u16; 256], from: u8, to: u8) -> u32
    ensures value { result ≡ above_zero (carried_numbers (λ view. passed_view view from to) numbers.old) }
    ensures numbers_after { numbers.new ≡ carried_numbers (λ view. passed_view view from to) numbers.old }
{
    pass(numbers, from, to)
}

// Adds each number to that of the view where its view goes.
fn carry(old: [u16; 256], moves: &[u8]) -> [u16; 256]
    requires { length moves.now ≡ 256 }
    ensures value { result ≡ carried_numbers (λ view. get_or moves.now view 0) old }
    ensures len { length old ≡ 256 }
{
    let mut numbers = [0u16; 256];
    for view in 0..256usize {
        let to = moves[view] as usize;
        numbers[to] = numbers[to].saturating_add(old[view]);
    }
    numbers
}

// A silence: every number goes to where its view goes. The last line is for the caller's proof, which is not told how many numbers there
// are.
pub fn silence_counts(numbers: &mut [u16; 256], moves: &[u8; 256]) -> u32
    ensures value { result ≡ above_zero (carried_numbers (λ view. get_or moves.now view 0) numbers.old) }
    ensures numbers_after { numbers.new ≡ carried_numbers (λ view. get_or moves.now view 0) numbers.old }
    ensures numbers_len { length numbers.old ≡ 256 }
{
    *numbers = carry(*numbers, moves);
    above_zero(numbers)
}
