// Decodes a capture: one frame a line in hexadecimal on standard input, one answer a line on standard output. What is answered is decided by
// the libraries decoding and answering; here the input is only handed to them, part by part.
#![tactic(auto)]

ghost use Rattle.std.specs.Prelude.{Some, None, ◌≡◌, ◌<◌};
ghost use Rattle.laws.specs.Usual.{cond, List, ℕ, length, take, replicate};
ghost use Rattle.copying.specs.Pasted.{pasted};
ghost use Rattle.decode_line.specs.Gathering.{fresh};
ghost use Rattle.text_feeding.specs.Feeding.{between, ended, Forward, Onward, Taken, Arrived};
ghost use Rattle.decode.specs.Capture.{carried, after, answers, Answering, answer_to_rest};

use decode_line::{Answer, Gathered};
use std::io;
use text_feeding::Streams;

// What the next line feed, or the end of a part, leaves: the line so far, the place behind, and how long the answer is to a line that has
// ended there.
#[derive(Clone, Copy)]
struct Next {
    line: Gathered,
    at: usize,
    answer: Option<usize>,
}

// The line so far, the place in the part of the input that is being read, and whether to go on. Line and place hold either way, so it is no
// Option.
#[derive(Clone, Copy)]
struct Going {
    line: Gathered,
    at: usize,
    on: bool,
}

// Takes the part from place `at` on, up to its next line feed or its end, and puts the answer to a line that has ended in front of the text.
fn take_next(line: Gathered, part: &[u8], at: usize, frame: &mut [u8], text: &mut [u8; 160]) -> Next
    ensures frame_after { carried result.line frame.new ≡ after line frame.old (between at result.at part.now) }
    ensures answer_value { result.answer ≡ cond (ended part.now at result.at) (Some (length (answers line frame.old (between at result.at part.now)))) None }
    ensures text_after { text.new ≡ pasted text.old 0 (answers line frame.old (between at result.at part.now)) }
    ensures forward { at < length part.now → Forward part.now at result.at }
{
    let scanned = decode_scanning::scan(line, part, at, frame);
    let rest = scanned.line;
    if scanned.ended {
        let length = decode_answers::put_answer(decode_line::answer_to(rest, frame), text);
        let fresh = decode_line::start();
        return Next {
            line: fresh,
            at: scanned.next,
            answer: Some(length),
        };
    }
    Next {
        line: rest,
        at: scanned.next,
        answer: None,
    }
}

// Hands an answer to standard output. No contract can say what is written; that it is the answer is asked of the caller.
fn write_answer(
    streams: &mut Streams,
    line: Gathered,
    part: &[u8],
    from: usize,
    to: usize,
    text: &[u8],
) -> bool
    requires { Answering line (between from to part.now) text.now }
{
    streams.write(text)
}

// Takes the part on by one step of `take_next`, and writes the answer.
fn decode_next(
    streams: &mut Streams,
    line: Gathered,
    part: &[u8],
    at: usize,
    frame: &mut [u8],
) -> Going
    requires { at < length part.now }
    ensures frame_after { carried result.line frame.new ≡ after line frame.old (between at result.at part.now) }
    ensures onward { Onward part.now at result.at result.on }
{
    let mut text = [0u8; 160];
    let next = take_next(line, part, at, frame, &mut text);
    match next.answer {
        Some(length) => Going {
            line: next.line,
            at: next.at,
            on: write_answer(streams, line, part, at, next.at, &text[..length]),
        },
        None => Going {
            line: next.line,
            at: next.at,
            on: true,
        },
    }
}

// Takes a part to its end, or up to the first line whose answer cannot be written.
fn decode_part(streams: &mut Streams, line: Gathered, part: &[u8], frame: &mut [u8]) -> Going
    ensures frame_after { carried result.line frame.new ≡ after line frame.old (take result.at part.now) }
    ensures taken { Taken part.now result.at result.on }
{
    let mut going = Going {
        line,
        at: 0,
        on: true,
    };
    // No `for`: how far a step goes the step itself tells.
    while going.on && going.at < part.len() {
        going = decode_next(streams, going.line, part, going.at, frame);
    }
    going
}

// Reads once, and answers each line that ends in what came.
fn decode_some(streams: &mut Streams, line: Gathered, part: &mut [u8], frame: &mut [u8]) -> Going
    ensures frame_after { carried result.line frame.new ≡ after line frame.old (take result.at part.new) }
    ensures arrived { Arrived part.new result.at result.on }
{
    let read = streams.read_some(part);
    let going = decode_part(streams, line, &part[0..read], frame);
    Going {
        on: going.on & (0 < read),
        ..going
    }
}

// A proved loop has to end, and nothing says that the input does. So the loop counts its turns, up to a number that no run comes to.
fn decode_all(streams: &mut Streams, part: &mut [u8], frame: &mut [u8]) -> Gathered
    ensures { (input : List ℕ) × (carried result frame.new ≡ after fresh frame.old input) }
{
    let mut line = decode_line::start();
    for _ in 0..u64::MAX {
        let going = decode_some(streams, line, part, frame);
        line = going.line;
        if !going.on {
            break;
        }
    }
    line
}

// The longest frame that is read has 1120 octets. One octet more tells a longer one from it.
fn decode_input(streams: &mut Streams) -> Gathered
    ensures { (input : List ℕ) × (result ≡ (after fresh (replicate 1121 0) input).line) }
{
    let mut part = [0u8; 65536];
    let mut frame = [0u8; 1121];
    decode_all(streams, &mut part, &mut frame)
}

fn put_rest(line: Gathered, text: &mut [u8; 160]) -> usize
    ensures value { result ≡ length (answer_to_rest line) }
    ensures text_after { text.new ≡ pasted text.old 0 (answer_to_rest line) }
{
    if decode_line::has_begun(line) {
        return decode_answers::put_answer(Answer::Bad, text);
    }
    0
}

// The same for a last line without its line feed.
fn write_rest(streams: &mut Streams, line: Gathered, octets: &[u8])
    requires { octets.now ≡ answer_to_rest line }
{
    streams.write(octets);
}

fn main(rt: HostRuntime) -> io::Result<()> {
    let mut streams = Streams::new(rt.stdin(), rt.stdout());
    let rest = decode_input(&mut streams);
    let mut text = [0u8; 160];
    let end = put_rest(rest, &mut text);
    write_rest(&mut streams, rest, &text[0..end]);
    streams.end()
}
