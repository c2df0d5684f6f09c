// The parts that the lines of `replay` are put together from. A part that has a place `at` in the output is written from there on, and the
// answer is the octet behind it.
#![tactic(auto)]

ghost use Rattle.std.specs.Prelude.{◌≡◌, ◌∷◌, ◌+◌, ◌≤◌};
ghost use Rattle.laws.specs.Usual.{[], length};
ghost use Rattle.copying.specs.Pasted.{pasted};
ghost use Rattle.text.specs.Decimal.{decimal_of};
ghost use Rattle.replay_reply_parts.specs.Lines.{ended};

pub fn put_mark(mark: u8, output: &mut [u8], at: usize) -> usize
    requires { at + 1 ≤ length output.old }
    ensures value { result ≡ at + length (mark ∷ []) }
    ensures output_after { output.new ≡ pasted output.old at (mark ∷ []) }
{
    output[at] = mark;
    at + 1
}

pub fn put_word(word: &[u8], output: &mut [u8], at: usize) -> usize
    requires { at + length word.now ≤ length output.old }
    ensures value { result ≡ at + length word.now }
    ensures output_after { output.new ≡ pasted output.old at word.now }
{
    copying::copy_into(word, output, at);
    at + word.len()
}

// A number in decimal, with a mark in front of it.
pub fn put_number(mark: u8, number: u32, output: &mut [u8], at: usize) -> usize
    requires { at + 11 ≤ length output.old }
    ensures value { result ≡ at + length (mark ∷ decimal_of number) }
    ensures output_after { output.new ≡ pasted output.old at (mark ∷ decimal_of number) }
{
    let next = put_mark(mark, output, at);
    text::put_decimal(number, output, next)
}

// Writes a whole line in front of the output, and answers its length.
pub fn put_line(words: &[u8], output: &mut [u8]) -> usize
    requires { length words.now + 1 ≤ length output.old }
    ensures value { result ≡ length (ended words.now) }
    ensures output_after { output.new ≡ pasted output.old 0 (ended words.now) }
{
    let end = put_word(words, output, 0);
    put_mark(b'\n', output, end)
}
