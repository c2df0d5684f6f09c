// What an answer tells of the frame that was written, for C.
#![tactic(auto)]

ghost use Rattle.std.specs.Prelude.{◌≡◌};
ghost use Rattle.frame.specs.Octets.{octet_at};
ghost use Rattle.boundary_told.specs.Told.{route_in, written_told};

use boundary_answers::{Answer, FRAME, Route};
use frame_reading::{DNA, SNA, TCD};

fn octet_at(s: &[u8], at: usize) -> u8
    ensures { result ≡ octet_at s.now at }
{
    s.get(at).copied().unwrap_or(0)
}

fn route_in(s: &[u8]) -> Route
    ensures { result ≡ route_in s.now }
{
    Route {
        code: u16::from_be_bytes([octet_at(s, TCD), octet_at(s, TCD + 1)]),
        source: octet_at(s, SNA),
        destination: octet_at(s, DNA),
    }
}

// The answer to an asking, whose frame stands at the front of the output.
pub fn tell_written(answer: Answer, output: &[u8]) -> Answer
    ensures { result ≡ written_told output.now answer }
{
    if answer.word == FRAME {
        let frame = route_in(output);
        Answer { frame, ..answer }
    } else {
        answer
    }
}
