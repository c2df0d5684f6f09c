// A line of the program `replay`'s input. It comes octet by octet, so that a line of any length needs no more memory than the longest command
// that is not a `hear`.
#![tactic(auto)]

ghost use Rattle.std.specs.Prelude.{◌≡◌};
ghost use Rattle.laws.specs.Usual.{set};
ghost use Rattle.replay_input.specs.Gathering.{fresh, count_after, pushed, stored, size_in};

use text_hexadecimal::is_hexadecimal;
use text_scanning::Gathers;

// A line so far: the number of its octets, at most 34,824, of which the first 34,823 are stored at the front of the buffer; whether all
// octets from place 5 on are hexadecimal digits, and whether the number of these is odd. The two flags go on independently of each other.
#[derive(Clone, Copy)]
pub struct Line {
    pub count: usize,
    pub digits: bool,
    pub odd: bool,
}

pub fn begin() -> Line
    ensures { result ≡ fresh }
{
    Line {
        count: 0,
        digits: true,
        odd: false,
    }
}

fn count_after(count: usize) -> usize
    ensures { result ≡ count_after count }
{
    if count <= 34823 { count + 1 } else { count }
}

// Stores an octet, where the buffer has room for it. decode_line's also counts what it stores, and one function for both would be no plainer.
fn store(count: usize, octet: u8, buffer: &mut [u8])
    ensures { buffer.new ≡ set buffer.old count octet }
{
    if count < buffer.len() {
        buffer[count] = octet;
    }
}

impl Gathers for Line {
    ghost pushed = { λ room. pushed };

    ghost stored = { stored };

    fn push(&mut self, octet: u8, buffer: &mut [u8]) {
        store(self.count, octet, buffer);
        if self.count < 5 {
            self.count += 1;
        } else {
            self.count = count_after(self.count);
            self.digits = self.digits & is_hexadecimal(octet);
            self.odd = !self.odd;
        }
    }
}

// How many octets the digits from place 5 on spell.
pub fn size_in(line: Line) -> usize
    ensures { result ≡ size_in line }
{
    if line.digits & !line.odd {
        line.count.saturating_sub(5) / 2
    } else {
        0
    }
}
