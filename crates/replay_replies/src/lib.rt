// The line that `replay` prints for what a station answers to `start`, `stop` and `hear`, written in front of a lent output. Each function
// answers the line's length.
#![tactic(auto)]

ghost use Rattle.std.specs.Prelude.{◌≡◌, ◌≤◌};
ghost use Rattle.laws.specs.Usual.{length};
ghost use Rattle.copying.specs.Pasted.{pasted};
ghost use Rattle.replay_replies.specs.Replies.{switched_text, heard_text};

use frame::Refusal;
use replay_reply_outcome::put_token;
use replay_reply_parts::put_line;
use replay_reply_words::put_refused;
use station::Heard;

pub fn put_switched(switched: Result<(), Refusal>, output: &mut [u8]) -> usize
    requires { 40 ≤ length output.old }
    ensures value { result ≡ length (switched_text switched) }
    ensures output_after { output.new ≡ pasted output.old 0 (switched_text switched) }
{
    match switched {
        Ok(()) => put_line(b"done", output),
        Err(refusal) => put_refused(refusal, output),
    }
}

pub fn put_heard(heard: Heard, output: &mut [u8]) -> usize
    requires { 40 ≤ length output.old }
    ensures value { result ≡ length (heard_text heard) }
    ensures output_after { output.new ≡ pasted output.old 0 (heard_text heard) }
{
    match heard {
        Heard::Off => put_line(b"off", output),
        Heard::Done => put_line(b"done", output),
        Heard::Cyclic(token) => put_token(token, output),
        Heard::Refused(refusal) => put_refused(refusal, output),
    }
}
