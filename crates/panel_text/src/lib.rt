// The panel's figure as text.
#![tactic(auto)]

ghost use Rattle.std.specs.Prelude.{◌≡◌, ◌≤◌};
ghost use Rattle.panel.specs.Panel.{over_text, tenths_text, gap_text, in_six, shown};

use panel::{Figure, Text};
use units::Ticks;

fn over_text() -> Text
    ensures { result ≡ in_six over_text }
{
    Text {
        octets: [b'O', b'V', b'E', b'R', 0, 0],
        length: 4,
    }
}

// The text of a gap that is not over, in a buffer with zeros behind it.
// The six octets come from a longer buffer, since `put_decimal` asks for room for any number.
fn tenths_text(gap: Ticks) -> Text
    requires { gap.0 ≤ 65535 }
    ensures { result ≡ in_six (tenths_text gap) }
{
    let mut buffer = [0u8; 16];
    let point = text::put_decimal(gap.0 / 10, &mut buffer, 0);
    buffer[point] = b'.';
    let length = text::put_decimal(gap.0 % 10, &mut buffer, point + 1);
    Text {
        octets: [
            buffer[0], buffer[1], buffer[2], buffer[3], buffer[4], buffer[5],
        ],
        length,
    }
}

fn gap_text(gap: Ticks) -> Text
    ensures { result ≡ in_six (gap_text gap) }
{
    if panel::is_over(gap) {
        over_text()
    } else {
        tenths_text(gap)
    }
}

pub fn text_of(figure: Figure) -> Text
    ensures { result ≡ shown figure }
{
    match figure {
        Figure::Nothing => Text {
            octets: [b'-', b'-', 0, 0, 0, 0],
            length: 2,
        },
        Figure::Over => over_text(),
        Figure::Gap(gap) => gap_text(gap),
    }
}
