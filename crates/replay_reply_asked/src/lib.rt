// The line that `replay` prints for what a station answers to `ask`, written in front of a lent output. Each function answers the line's length.
#![tactic(auto)]

ghost use Rattle.std.specs.Prelude.{◌≡◌, ◌+◌, ◌*◌, ◌≤◌};
ghost use Rattle.laws.specs.Usual.{length};
ghost use Rattle.copying.specs.Pasted.{pasted};
ghost use Rattle.replay_reply_parts.specs.Hex.{hex_of};
ghost use Rattle.replay_reply_parts.specs.Lines.{ended, spaced};
ghost use Rattle.replay_reply_asked.specs.Asked.{frame_word, asked_text};

use frame::Refusal;
use replay_reply_octets::{part_of, put_hex};
use replay_reply_parts::{put_mark, put_word};
use replay_reply_words::put_refused;

fn put_frame(frame: &[u8], output: &mut [u8]) -> usize
    requires { 2 * length frame.now + 7 ≤ length output.old }
    ensures value { result ≡ length (ended (spaced frame_word (hex_of frame.now))) }
    ensures output_after { output.new ≡ pasted output.old 0 (ended (spaced frame_word (hex_of frame.now))) }
{
    let word = put_word(b"frame ", output, 0);
    let end = put_hex(frame, output, word);
    put_mark(b'\n', output, end)
}

pub fn put_asked(asked: Result<usize, Refusal>, frame: &[u8], output: &mut [u8]) -> usize
    requires { 2 * length frame.now + 40 ≤ length output.old }
    ensures value { result ≡ length (asked_text asked frame.now) }
    ensures output_after { output.new ≡ pasted output.old 0 (asked_text asked frame.now) }
{
    match asked {
        Ok(count) => put_frame(part_of(frame, 0, count), output),
        Err(refusal) => put_refused(refusal, output),
    }
}
