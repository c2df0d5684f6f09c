// The line for a cyclic frame that was accepted: what became of the token, then what became of the data.
#![tactic(auto)]

ghost use Rattle.std.specs.Prelude.{◌≡◌, ◌++◌, ◌+◌, ◌≤◌};
ghost use Rattle.laws.specs.Usual.{length};
ghost use Rattle.copying.specs.Pasted.{pasted};
ghost use Rattle.replay_reply_parts.specs.Lines.{ended};
ghost use Rattle.replay_reply_outcome.specs.Outcome.{data_word, outcome_text};

use replay_reply_parts::{put_mark, put_word};
use station::{Data, Token};

fn put_data(data: Data, output: &mut [u8], at: usize) -> usize
    requires { at + 7 ≤ length output.old }
    ensures value { result ≡ at + length (data_word «data») }
    ensures output_after { output.new ≡ pasted output.old at (data_word «data») }
{
    match data {
        Data::Kept => put_word(b"kept", output, at),
        Data::Written => put_word(b"written", output, at),
        Data::Dropped => put_word(b"dropped", output, at),
        Data::Repeat => put_word(b"repeat", output, at),
    }
}

// What became of the token, with a space behind it, and what became of the data.
fn put_outcome(word: &[u8], data: Data, output: &mut [u8]) -> usize
    requires { length word.now + 8 ≤ length output.old }
    ensures value { result ≡ length (ended (word.now ++ data_word «data»)) }
    ensures output_after { output.new ≡ pasted output.old 0 (ended (word.now ++ data_word «data»)) }
{
    let token = put_word(word, output, 0);
    let end = put_data(data, output, token);
    put_mark(b'\n', output, end)
}

// Writes the line in front of the output, and answers its length.
pub fn put_token(token: Token, output: &mut [u8]) -> usize
    requires { 40 ≤ length output.old }
    ensures value { result ≡ length (outcome_text token) }
    ensures output_after { output.new ≡ pasted output.old 0 (outcome_text token) }
{
    match token {
        Token::None(data) => put_outcome(b"none ", data, output),
        Token::PassedOn(data) => put_outcome(b"passed-on ", data, output),
        Token::OursNow(data) => put_outcome(b"ours-now ", data, output),
        Token::RivalPassedOver(data) => put_outcome(b"rival-passed-over ", data, output),
        Token::RivalWon(data) => put_outcome(b"rival-won ", data, output),
    }
}
