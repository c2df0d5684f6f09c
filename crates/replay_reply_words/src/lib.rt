// The lines of one word that `replay` answers, and the line for a refusal, written in front of a lent output. Each function answers the line's
// length.
#![tactic(auto)]

ghost use Rattle.std.specs.Prelude.{◌≡◌, ◌≤◌};
ghost use Rattle.laws.specs.Usual.{length};
ghost use Rattle.copying.specs.Pasted.{pasted};
ghost use Rattle.replay_reply_words.specs.Answers.{done_text, bad_text, refused_text, ticked_text};

use frame::Refusal;
use replay_reply_parts::{put_line, put_mark, put_number, put_word};
use station::Ticked;

pub fn put_done(output: &mut [u8]) -> usize
    requires { 40 ≤ length output.old }
    ensures value { result ≡ length done_text }
    ensures output_after { output.new ≡ pasted output.old 0 done_text }
{
    put_line(b"done", output)
}

pub fn put_bad(output: &mut [u8]) -> usize
    requires { 40 ≤ length output.old }
    ensures value { result ≡ length bad_text }
    ensures output_after { output.new ≡ pasted output.old 0 bad_text }
{
    put_line(b"bad", output)
}

pub fn put_refused(refusal: Refusal, output: &mut [u8]) -> usize
    requires { 40 ≤ length output.old }
    ensures value { result ≡ length (refused_text refusal) }
    ensures output_after { output.new ≡ pasted output.old 0 (refused_text refusal) }
{
    let word = put_word(b"refused", output, 0);
    let end = put_number(
        b' ',
        frame_refusals::number_of(refusal) as u32,
        output,
        word,
    );
    put_mark(b'\n', output, end)
}

pub fn put_ticked(ticked: Ticked, output: &mut [u8]) -> usize
    requires { 40 ≤ length output.old }
    ensures value { result ≡ length (ticked_text ticked) }
    ensures output_after { output.new ≡ pasted output.old 0 (ticked_text ticked) }
{
    match ticked {
        Ticked::Off => put_line(b"off", output),
        Ticked::Done => put_line(b"done", output),
    }
}
