// What a line of the program `replay`'s input means.
#![tactic(auto)]

ghost use Rattle.std.specs.Prelude.{◌≡◌};
ghost use Rattle.replay_words.specs.Words.{words_behind};
ghost use Rattle.replay_commands.specs.Commands.{start_by, start_with, start_of, tick_of, poke_by, poke_of, peek_of, hear_of, numbered, short_of, command_by, command_in};

use area::{Areas, Part};
use comparing::same;
use replay_input::{Line, size_in};
use replay_words::{begins, number_at, word_end};
use station::Settings;
use text_octets::size_of;
use units::Milliseconds;

// Where the hexadecimal digits of a command start in its line, and how many of the octets that they spell are kept.
#[derive(Clone, Copy)]
pub struct Octets {
    pub digits: usize,
    pub count: usize,
}

// The place in the common memory, where the hexadecimal digits start in the line, and how many octets they spell.
#[derive(Clone, Copy)]
pub struct Poke {
    pub at: usize,
    pub digits: usize,
    pub count: usize,
}

#[derive(Clone, Copy)]
pub struct Peek {
    pub at: usize,
    pub length: usize,
}

#[derive(Clone, Copy)]
pub enum Command {
    Start(Settings),
    Stop,
    Tick(u32),
    Hear(Octets),
    Ask,
    Panel,
    Poke(Poke),
    Peek(Peek),
    State,
    Bad,
}

fn start_by(
    number: u32,
    address1: u32,
    size1: u32,
    address2: u32,
    size2: u32,
    watch: u32,
) -> Command
    ensures { result ≡ start_by number address1 size1 address2 size2 watch }
{
    if (number <= 255)
        & (address1 <= 65535)
        & (size1 <= 65535)
        & (address2 <= 65535)
        & (size2 <= 65535)
        & (watch <= 255)
    {
        Command::Start(Settings {
            number: number as u8,
            areas: Areas {
                one: Part {
                    address: address1 as u16,
                    size: size1 as u16,
                },
                two: Part {
                    address: address2 as u16,
                    size: size2 as u16,
                },
            },
            watch: Milliseconds(watch as u8),
        })
    } else {
        Command::Bad
    }
}

// By the six words of the command, each a number or none.
fn start_with(
    number: Option<u32>,
    address1: Option<u32>,
    size1: Option<u32>,
    address2: Option<u32>,
    size2: Option<u32>,
    watch: Option<u32>,
) -> Command
    ensures { result ≡ start_with number address1 size1 address2 size2 watch }
{
    match (number, address1, size1, address2, size2, watch) {
        (Some(number), Some(address1), Some(size1), Some(address2), Some(size2), Some(watch)) => {
            start_by(number, address1, size1, address2, size2, watch)
        }
        _ => Command::Bad,
    }
}

fn start_of(line: &[u8]) -> Command
    ensures { result ≡ start_of (words_behind line.now 5) }
{
    let number = number_at(line, 5);
    let address1 = number_at(line, number.end);
    let size1 = number_at(line, address1.end);
    let address2 = number_at(line, size1.end);
    let size2 = number_at(line, address2.end);
    let watch = number_at(line, size2.end);
    if line.len() <= watch.end {
        start_with(
            number.value,
            address1.value,
            size1.value,
            address2.value,
            size2.value,
            watch.value,
        )
    } else {
        Command::Bad
    }
}

fn tick_of(line: &[u8]) -> Command
    ensures { result ≡ tick_of (words_behind line.now 4) }
{
    let ticks = number_at(line, 4);
    let Some(count) = ticks.value else {
        return Command::Bad;
    };
    if (line.len() <= ticks.end) & (1 <= count) & (count <= 1000000) {
        Command::Tick(count)
    } else {
        Command::Bad
    }
}

fn peek_of(line: &[u8]) -> Command
    ensures { result ≡ peek_of (words_behind line.now 4) }
{
    let place = number_at(line, 4);
    let size = number_at(line, place.end);
    let (Some(at), Some(length)) = (place.value, size.value) else {
        return Command::Bad;
    };
    let at = at as usize;
    let length = length as usize;
    if (line.len() <= size.end) & (at + length <= area::MEMORY_OCTETS) {
        Command::Peek(Peek { at, length })
    } else {
        Command::Bad
    }
}

fn poke_by(at: usize, digits: usize, count: usize) -> Command
    ensures { result ≡ poke_by at digits count }
{
    if area::MEMORY_OCTETS < at {
        return Command::Bad;
    }
    if area::MEMORY_OCTETS - at < count {
        return Command::Bad;
    }
    if count == 0 {
        return Command::Bad;
    }
    Command::Poke(Poke { at, digits, count })
}

fn poke_of(line: &[u8]) -> Command
    ensures { result ≡ poke_of (words_behind line.now 4) }
{
    let place = number_at(line, 4);
    let space = place.end;
    if line.len() <= space {
        return Command::Bad;
    }
    let digits = space + 1;
    // The digits are the last word.
    if word_end(line, digits) < line.len() {
        return Command::Bad;
    }
    let Some(at) = place.value else {
        return Command::Bad;
    };
    poke_by(at as usize, digits, size_of(&line[digits..]))
}

// Of the octets that the digits spell, 1121 are kept: one more than the longest frame has, so that the station refuses them as it refuses them all.
fn hear_of(size: usize) -> Command
    ensures { result ≡ hear_of size }
{
    if size == 0 {
        return Command::Bad;
    }
    Command::Hear(Octets {
        digits: 5,
        count: size.min(1121),
    })
}

fn numbered(line: &[u8]) -> Command
    ensures { result ≡ numbered line.now }
{
    if begins(line, b"start ") {
        return start_of(line);
    }
    if begins(line, b"tick ") {
        return tick_of(line);
    }
    if begins(line, b"poke ") {
        return poke_of(line);
    }
    if begins(line, b"peek ") {
        return peek_of(line);
    }
    Command::Bad
}

fn short_of(line: &[u8]) -> Command
    ensures { result ≡ short_of line.now }
{
    if same(line, b"stop") {
        return Command::Stop;
    }
    if same(line, b"ask") {
        return Command::Ask;
    }
    if same(line, b"panel") {
        return Command::Panel;
    }
    if same(line, b"state") {
        return Command::State;
    }
    if same(line, b"hear") {
        return Command::Hear(Octets {
            digits: 5,
            count: 0,
        });
    }
    numbered(line)
}

// What a line that has come whole means, by what of it is stored.
fn command_by(line: Line, stored: &[u8]) -> Command
    ensures { result ≡ command_by line stored.now }
{
    if begins(stored, b"hear ") {
        return hear_of(size_in(line));
    }
    if line.count <= 34823 {
        short_of(stored)
    } else {
        Command::Bad
    }
}

// What a line that has come whole into the buffer means.
pub fn command_of(line: Line, buffer: &[u8]) -> Command
    ensures { result ≡ command_in line buffer.now }
{
    // Not by `buffer.get(..count).unwrap_or(buffer)`: tried, and the search left `returns` open.
    let count = line.count;
    if count < buffer.len() {
        command_by(line, &buffer[0..count])
    } else {
        command_by(line, buffer)
    }
}
