// What an answer tells of the frame that was heard, for C.
#![tactic(auto)]

ghost use Rattle.std.specs.Prelude.{◌≡◌};
ghost use Rattle.frame_reading.specs.Reading.{read_body_of};
ghost use Rattle.boundary_told.specs.Told.{route_of, route_read, with_frame};

use boundary_answers::{Answer, NO_FRAME, Route};
use frame::Fields;

fn route_of(frame: Fields) -> Route
    ensures { result ≡ route_of frame }
{
    Route {
        code: u16::from(frame.code),
        source: frame.source,
        destination: frame.destination,
    }
}

// The answer to a frame that was read.
pub fn tell_read(answer: Answer, frame: Fields) -> Answer
    ensures { result ≡ with_frame answer (route_of frame) }
{
    let frame = route_of(frame);
    Answer { frame, ..answer }
}

// Of a frame whose header was read: of none, where its body is refused.
fn route_read(length: usize, header: Fields) -> Route
    ensures { result ≡ route_read (read_body_of length header) }
{
    match frame_body::read_body(length, header) {
        Ok(frame) => route_of(frame),
        Err(_) => NO_FRAME,
    }
}

// The answer to so many octets, whose header was read, and which may be a frame, or none.
pub fn tell_header(answer: Answer, length: usize, header: Fields) -> Answer
    ensures { result ≡ with_frame answer (route_read (read_body_of length header)) }
{
    let frame = route_read(length, header);
    Answer { frame, ..answer }
}
