// The line that is printed for each answer to a line of a capture.
#![tactic(auto)]

ghost use Rattle.std.specs.Prelude.{◌≡◌, ◌∷◌};
ghost use Rattle.laws.specs.Usual.{[], length};
ghost use Rattle.copying.specs.Pasted.{pasted};
ghost use Rattle.frame_refusals.specs.Refusals.{number_of};
ghost use Rattle.text.specs.Lines.{line_of};
ghost use Rattle.decode_answers.specs.Answers.{field_numbers, frame_word, refused_word, bad_word, text_of};

use decode_line::Answer;
use frame::{Fields, Refusal};

fn field_numbers(fields: Fields) -> [u32; 12]
    ensures { result ≡ field_numbers fields }
{
    let one = fields.areas.one;
    let two = fields.areas.two;
    [
        fields.length,
        u32::from(fields.source),
        u32::from(fields.destination),
        u32::from(u16::from(fields.code)),
        u32::from(one.address),
        u32::from(one.size),
        u32::from(two.address),
        u32::from(two.size),
        u32::from(fields.block),
        u32::from(fields.blocks),
        u32::from(fields.size),
        u32::from(fields.watch.0),
    ]
}

fn put_frame(fields: Fields, output: &mut [u8; 160]) -> usize
    ensures value { result ≡ length (line_of frame_word (field_numbers fields)) }
    ensures output_after { output.new ≡ pasted output.old 0 (line_of frame_word (field_numbers fields)) }
{
    let numbers = field_numbers(fields);
    text::put_line(b"frame", &numbers, output)
}

fn put_refused(refusal: Refusal, output: &mut [u8; 160]) -> usize
    ensures value { result ≡ length (line_of refused_word (number_of refusal ∷ [])) }
    ensures output_after { output.new ≡ pasted output.old 0 (line_of refused_word (number_of refusal ∷ [])) }
{
    let numbers = [u32::from(frame_refusals::number_of(refusal))];
    text::put_line(b"refused", &numbers, output)
}

fn put_bad(output: &mut [u8; 160]) -> usize
    ensures value { result ≡ length (line_of bad_word []) }
    ensures output_after { output.new ≡ pasted output.old 0 (line_of bad_word []) }
{
    text::put_line(b"bad", &[], output)
}

// Writes the line in front of the output, and answers its length.
pub fn put_answer(answer: Answer, output: &mut [u8; 160]) -> usize
    ensures value { result ≡ length (text_of answer) }
    ensures output_after { output.new ≡ pasted output.old 0 (text_of answer) }
{
    match answer {
        // Not in one pattern, `Heard(Ok(fields))`: tried, and what it says of the answer did not rewrite the goal of `returns-in-Heard-Ok`.
        Answer::Heard(read) => match read {
            Ok(fields) => put_frame(fields, output),
            Err(refusal) => put_refused(refusal, output),
        },
        Answer::Bad => put_bad(output),
    }
}
