// What a command does to a station and its buffers, and the line that is answered, which is written in front of a lent answer.
#![tactic(auto)]

ghost use Rattle.std.specs.Prelude.{◌≡◌};
ghost use Rattle.laws.specs.Usual.{length, take, drop};
ghost use Rattle.text_hexadecimal.specs.Octets.{octets_of};
ghost use Rattle.copying.specs.Pasted.{pasted};
ghost use Rattle.ticking_quiet.specs.Many.{ticks_of};
ghost use Rattle.replay_performing.specs.Replaying.{with, heard, asked, poked_by, poked, digits_in, performed};
ghost use Rattle.replay_replies.specs.Replies.{switched_text};
ghost use Rattle.replay_reply_shown.specs.Shown.{octets_text};
ghost use Rattle.replay_reply_words.specs.Answers.{ticked_text};
ghost use Rattle.station.specs.Rules.Asking.{ask_of};
ghost use Rattle.station.specs.Rules.Hearing.{hear_of};

use frame::Refusal;
use replay_commands::{Command, Peek};
use replay_reply_octets::part_of;
use station::{Answered, Station};

// What is kept between commands: the station and its buffers.
#[derive(Drop)]
pub struct Kept {
    pub station: Station,
    pub memory: [u8; area::MEMORY_OCTETS],
    pub assembly: [u8; area::MEMORY_OCTETS],
    pub turn: [u8; area::MEMORY_OCTETS],
    pub frame: [u8; frame::OUTPUT_OCTETS],
}

// Writes the octets that the digits spell into the memory from octet `at` on.
fn write(at: usize, digits: &[u8], memory: &mut [u8])
    ensures { memory.new ≡ poked_by memory.old at (octets_of digits.now) }
{
    if at < memory.len() {
        text_octets::unspell(digits, &mut memory[at..]);
    }
}

// The digits from `at` on, at most two for each of `count` octets.
fn digits_of(line: &[u8], at: usize, count: usize) -> &[u8]
    ensures { result.now ≡ digits_in line.now at count }
{
    if line.len() / 2 < count {
        return part_of(line, at, line.len());
    }
    part_of(line, at, 2 * count)
}

// What each command does. It answers the length of the line that it writes in front of the answer.
impl Kept {
    fn switch(
        &mut self,
        switching: Answered<Result<(), Refusal>>,
        answer: &mut [u8; 40000],
    ) -> usize
        ensures kept_after { self.new ≡ with self.old switching.station }
        ensures length_value { result ≡ length (switched_text switching.answer) }
        ensures answer_after { answer.new ≡ pasted answer.old 0 (switched_text switching.answer) }
    {
        self.station = switching.station;
        replay_replies::put_switched(switching.answer, answer)
    }

    fn tick(&mut self, count: u32, answer: &mut [u8; 40000]) -> usize
        ensures kept_after { self.new ≡ with self.old (ticks_of count self.old.station).station }
        ensures length_value { result ≡ length (ticked_text (ticks_of count self.old.station).answer) }
        ensures answer_after { answer.new ≡ pasted answer.old 0 (ticked_text (ticks_of count self.old.station).answer) }
    {
        let ticking = ticking_many::ticks(self.station, count);
        self.station = ticking.station;
        replay_reply_words::put_ticked(ticking.answer, answer)
    }

    // The longest frame that is read has 1120 octets. One octet more tells a longer one from it.
    fn hear(&mut self, digits: &[u8], answer: &mut [u8; 40000]) -> usize
        ensures kept_after { self.new ≡ (heard self.old (hear_of self.old.station (octets_of digits.now) self.old.memory self.old.assembly)).kept }
        ensures length_value { result ≡ length (heard self.old (hear_of self.old.station (octets_of digits.now) self.old.memory self.old.assembly)).line }
        ensures answer_after { answer.new ≡ pasted answer.old 0 (heard self.old (hear_of self.old.station (octets_of digits.now) self.old.memory self.old.assembly)).line }
    {
        let mut octets = [0u8; 1121];
        let count = text_octets::unspell(digits, &mut octets);
        let hearing = hearing::hear(
            self.station,
            &octets[0..count],
            &mut self.memory,
            &mut self.assembly,
        );
        self.station = hearing.station;
        replay_replies::put_heard(hearing.answer, answer)
    }

    fn ask(&mut self, answer: &mut [u8; 40000]) -> usize
        ensures kept_after { self.new ≡ (asked self.old (ask_of self.old.station self.old.memory self.old.turn self.old.frame)).kept }
        ensures length_value { result ≡ length (asked self.old (ask_of self.old.station self.old.memory self.old.turn self.old.frame)).line }
        ensures answer_after { answer.new ≡ pasted answer.old 0 (asked self.old (ask_of self.old.station self.old.memory self.old.turn self.old.frame)).line }
    {
        let asking = asking::ask(self.station, &self.memory, &mut self.turn, &mut self.frame);
        self.station = asking.station;
        replay_reply_asked::put_asked(asking.answer, &self.frame, answer)
    }

    fn poke(&mut self, at: usize, digits: &[u8], answer: &mut [u8; 40000]) -> usize
        ensures kept_after { self.new ≡ (poked self.old at (octets_of digits.now)).kept }
        ensures length_value { result ≡ length (poked self.old at (octets_of digits.now)).line }
        ensures answer_after { answer.new ≡ pasted answer.old 0 (poked self.old at (octets_of digits.now)).line }
    {
        write(at, digits, &mut self.memory);
        replay_reply_words::put_done(answer)
    }

    fn peek(&self, peek: Peek, answer: &mut [u8; 40000]) -> usize
        ensures length_value { result ≡ length (octets_text (take peek.length (drop peek.at self.now.memory))) }
        ensures answer_after { answer.new ≡ pasted answer.old 0 (octets_text (take peek.length (drop peek.at self.now.memory))) }
    {
        let part = part_of(&self.memory, peek.at, peek.length);
        replay_reply_shown::put_octets(part, answer)
    }

    // The line that a command came in, or the front of that line, is where its digits stand.
    pub fn perform(&mut self, command: Command, line: &[u8], answer: &mut [u8; 40000]) -> usize
        ensures kept_after { self.new ≡ (performed command line.now self.old).kept }
        ensures length_value { result ≡ length (performed command line.now self.old).line }
        ensures answer_after { answer.new ≡ pasted answer.old 0 (performed command line.now self.old).line }
    {
        match command {
            Command::Start(own) => self.switch(starting::start(self.station, own), answer),
            Command::Stop => self.switch(starting::stop(self.station), answer),
            Command::Tick(count) => self.tick(count, answer),
            Command::Hear(octets) => {
                self.hear(digits_of(line, octets.digits, octets.count), answer)
            }
            Command::Ask => self.ask(answer),
            Command::Panel => {
                replay_reply_shown::put_panel(phases_participating::show(self.station), answer)
            }
            Command::Poke(octets) => self.poke(
                octets.at,
                digits_of(line, octets.digits, octets.count),
                answer,
            ),
            Command::Peek(octets) => self.peek(octets, answer),
            Command::State => replay_reply_state::put_state(self.station, answer),
            Command::Bad => replay_reply_words::put_bad(answer),
        }
    }
}
