// What is answered where the input of the program `replay` ends.
#![tactic(auto)]

ghost use Rattle.std.specs.Prelude.{◌≡◌};
ghost use Rattle.laws.specs.Usual.{length};
ghost use Rattle.copying.specs.Pasted.{pasted};
ghost use Rattle.replay_end.specs.End.{answer_to_rest};

use replay_input::Line;

// A last line without its line feed is no command.
pub fn put_rest(line: Line, text: &mut [u8; 40]) -> usize
    ensures value { result ≡ length (answer_to_rest line) }
    ensures text_after { text.new ≡ pasted text.old 0 (answer_to_rest line) }
{
    if 0 < line.count {
        return replay_reply_words::put_bad(text);
    }
    0
}
