// The words of a line, and words as numbers in decimal.
#![tactic(auto)]

ghost use Rattle.std.specs.Prelude.{◌≡◌, ◌+◌};
ghost use Rattle.laws.specs.Usual.{drop};
ghost use Rattle.text.specs.Lines.{space};
ghost use Rattle.text_reading.specs.Marks.{before};
ghost use Rattle.replay_words.specs.Words.{begins, decimal, number_at};

use text_places::place_from;
use text_reading::decimal_in;

// A word of a line as a number, if it is one of at most 1,000,000, and the place where it ends: its space, or the line's end.
#[derive(Clone, Copy)]
pub struct Number {
    pub value: Option<u32>,
    pub end: usize,
}

// Whether the line begins with the word.
pub fn begins(line: &[u8], word: &[u8]) -> bool
    ensures { result ≡ begins word.now line.now }
{
    line.starts_with(word)
}

// The place of the first space from a place on, or behind the line's end.
pub fn word_end(line: &[u8], from: usize) -> usize
    ensures { result ≡ from + before space (drop from line.now) }
{
    place_from(line, b' ', from)
}

// The number that a word is, if it is one of at most 1,000,000.
fn decimal(word: &[u8]) -> Option<u32>
    ensures { result ≡ decimal word.now }
{
    decimal_in(word, 1000000)
}

// The word behind the space at a place.
pub fn number_at(line: &[u8], place: usize) -> Number
    ensures { result ≡ number_at line.now place }
{
    if line.len() <= place {
        return Number {
            value: None,
            end: place,
        };
    }
    let start = place + 1;
    let end = word_end(line, start);
    Number {
        value: decimal(&line[start..end]),
        end,
    }
}
