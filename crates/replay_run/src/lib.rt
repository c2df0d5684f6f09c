// Drives one station from text: one command a line on standard input, one answer a line on standard output. What a line means, what it does
// and what is answered is decided by the library replay_lines; here the input is only handed to it, part by part.
#![tactic(auto)]

ghost use Rattle.std.specs.Prelude.{◌≡◌, ◌<◌};
ghost use Rattle.laws.specs.Usual.{List, ℕ, length, take};
ghost use Rattle.text_feeding.specs.Feeding.{between, Onward, Taken, Arrived};
ghost use Rattle.replay_end.specs.End.{answer_to_rest};
ghost use Rattle.replay_lines.specs.Replay.{after, Answering, start};

use replay_input::Line;
use replay_lines::Carried;
use station::Station;
use text_feeding::Streams;

// The place in the part of the input that is being read, and whether to go on. The place holds either way, so it is no Option.
#[derive(Clone, Copy)]
struct Going {
    at: usize,
    on: bool,
}

// Hands an answer to standard output. No contract can say what is written; that it is the answer is asked of the caller.
fn write_answer(
    streams: &mut Streams,
    station: Station,
    line: Line,
    part: &[u8],
    from: usize,
    to: usize,
    text: &[u8],
) -> bool
    requires { Answering station line (between from to part.now) text.now }
{
    streams.write(text)
}

// Takes the part on by one step of `take_next`, and writes the answer.
fn replay_next(streams: &mut Streams, carried: &mut Carried, part: &[u8], at: usize) -> Going
    requires { at < length part.now }
    ensures carried_after { carried.new ≡ after carried.old (between at result.at part.now) }
    ensures onward { Onward part.now at result.at result.on }
{
    let mut answer = [0u8; 40000];
    let station = carried.kept.station;
    let line = carried.line;
    let next = carried.take_next(part, at, &mut answer);
    let to = next.at;
    match next.length {
        Some(length) => {
            let on = write_answer(streams, station, line, part, at, to, &answer[0..length]);
            Going { at: to, on }
        }
        None => Going { at: to, on: true },
    }
}

// Takes a part to its end, or up to the first line whose answer cannot be written.
fn replay_part(streams: &mut Streams, carried: &mut Carried, part: &[u8]) -> Going
    ensures carried_after { carried.new ≡ after carried.old (take result.at part.now) }
    ensures taken { Taken part.now result.at result.on }
{
    let mut going = Going { at: 0, on: true };
    // No `for`: how far a step goes the step itself tells.
    while going.on && going.at < part.len() {
        going = replay_next(streams, carried, part, going.at);
    }
    going
}

// Reads once, and answers each line that ends in what came.
fn replay_some(streams: &mut Streams, carried: &mut Carried, part: &mut [u8]) -> Going
    ensures carried_after { carried.new ≡ after carried.old (take result.at part.new) }
    ensures arrived { Arrived part.new result.at result.on }
{
    let read = streams.read_some(part);
    let going = replay_part(streams, carried, &part[0..read]);
    Going {
        on: going.on & (0 < read),
        ..going
    }
}

// A proved loop has to end, and nothing says that the input does. So the loop counts its turns, up to a number that no run uses up.
fn replay_all(streams: &mut Streams, carried: &mut Carried, part: &mut [u8])
    ensures { (input : List ℕ) × (carried.new ≡ after carried.old input) }
{
    for _ in 0..u64::MAX {
        let going = replay_some(streams, carried, part);
        if !going.on {
            return;
        }
    }
}

// What the whole input leaves, with a station that was never started and buffers of zeros.
fn replay_input(streams: &mut Streams) -> Carried
    ensures { (input : List ℕ) × (result ≡ after start input) }
{
    let mut part = [0u8; 65536];
    let mut carried = Carried::new();
    replay_all(streams, &mut carried, &mut part);
    carried
}

// The same for a last line without its line feed.
fn write_rest(streams: &mut Streams, line: Line, text: &[u8])
    requires { text.now ≡ answer_to_rest line }
{
    streams.write(text);
}

pub fn run(streams: &mut Streams) {
    let carried = replay_input(streams);
    let rest = carried.line;
    let mut text = [0u8; 40];
    let end = replay_end::put_rest(rest, &mut text);
    write_rest(streams, rest, &text[0..end]);
}
