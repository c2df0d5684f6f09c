// The input of the program `replay`, taken line by line: what the octets of a part do to a station and its buffers, and what is answered.
#![tactic(auto)]

ghost use Rattle.std.specs.Prelude.{◌≡◌, ◌<◌};
ghost use Rattle.std.specs.Option.{is_some, unwrap_or};
ghost use Rattle.laws.specs.Usual.{length};
ghost use Rattle.copying.specs.Pasted.{pasted};
ghost use Rattle.replay_input.specs.Gathering.{fresh};
ghost use Rattle.text_feeding.specs.Feeding.{between, ended, Forward};
ghost use Rattle.replay_lines.specs.Replay.{carried, line_done, after, answers, start};

use replay_input::Line;
use replay_performing::Kept;

// What is carried from octet to octet: what is kept between commands, the line so far, and what is stored of it.
#[derive(Drop)]
pub struct Carried {
    pub kept: Kept,
    pub line: Line,
    pub stored: [u8; 34823],
}

// The place behind the next line feed, or the end of a part, and, where a line has ended there, the length of its answer.
#[derive(Clone, Copy)]
pub struct Next {
    pub at: usize,
    pub length: Option<usize>,
}

impl Carried {
    // A station that was never started, and buffers of zeros.
    pub fn new() -> Carried
        ensures { result ≡ start }
    {
        Carried {
            kept: Kept {
                station: phases::never(),
                memory: [0; area::MEMORY_OCTETS],
                assembly: [0; area::MEMORY_OCTETS],
                turn: [0; area::MEMORY_OCTETS],
                frame: [0; frame::OUTPUT_OCTETS],
            },
            line: replay_input::begin(),
            stored: [0; 34823],
        }
    }

    // What a line that has come whole does. Behind it the next line begins.
    fn end_line(&mut self, answer: &mut [u8; 40000]) -> usize
        ensures carried_after { self.new ≡ carried (line_done self.old).kept fresh self.old.stored }
        ensures length_value { result ≡ length (line_done self.old).line }
        ensures answer_after { answer.new ≡ pasted answer.old 0 (line_done self.old).line }
    {
        let command = replay_commands::command_of(self.line, &self.stored);
        let length = self.kept.perform(command, &self.stored, answer);
        self.line = replay_input::begin();
        length
    }

    // Takes the part from a place on, up to its next line feed or its end, and puts the answer to a line that has ended in front of the answer.
    pub fn take_next(&mut self, part: &[u8], at: usize, answer: &mut [u8; 40000]) -> Next
        ensures carried_after { self.new ≡ after self.old (between at result.at part.now) }
        ensures length_value { unwrap_or result.length 0 ≡ length (answers self.old (between at result.at part.now)) }
        ensures answer_after { answer.new ≡ pasted answer.old 0 (answers self.old (between at result.at part.now)) }
        ensures ended_value { is_some result.length ≡ ended part.now at result.at }
        ensures forward { at < length part.now → Forward part.now at result.at }
    {
        let scanned = replay_scanning::scan(self.line, part, at, &mut self.stored);
        self.line = scanned.line;
        if scanned.ended {
            let length = self.end_line(answer);
            return Next {
                at: scanned.next,
                length: Some(length),
            };
        }
        Next {
            at: scanned.next,
            length: None,
        }
    }
}
