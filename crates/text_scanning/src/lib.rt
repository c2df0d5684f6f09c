// What it is to take a text octet by octet, up to its next line feed. The definitions stand in specs/.
#![tactic(auto)]

ghost use Rattle.std.specs.Prelude.{◌≡◌};
ghost use Rattle.laws.specs.Usual.{List, ℕ, length, drop};
ghost use Rattle.text_scanning.specs.Scanning.{scan_of, buffer_of};
ghost use Rattle.text_scanning.specs.Made.{made};

// What has come of a line: it takes the octets of the line one by one, and stores them in a lent buffer.
pub trait Gathers {
    // what has come after one more octet, in a buffer of so many, and the buffer then
    ghost pushed: { ℕ → Self → ℕ → Self };

    ghost stored: { Self → List ℕ → ℕ → List ℕ };

    fn push(&mut self, octet: u8, buffer: &mut [u8])
        ensures self_after { self.new ≡ pushed (length buffer.old) self.old octet }
        ensures buffer_after { buffer.new ≡ stored self.old buffer.old octet };
}

// What a part of a text did to a line: what has come of the line, the place in the text behind it, and whether the line has ended. A flag and no
// Option: the line and the place count either way.
#[derive(Clone, Copy)]
pub struct Scanned<L> {
    pub line: L,
    pub next: usize,
    pub ended: bool,
}

// The octets of a text from place `from` on, up to its next line feed or its end.
pub fn scan<L: Gathers>(line: L, text: &[u8], from: usize, buffer: &mut [u8]) -> Scanned<L>
    ensures value { result ≡ scan_of (L.pushed (length buffer.old)) made line from (drop from text.now) }
    ensures buffer_after { buffer.new ≡ buffer_of (L.pushed (length buffer.old)) L.stored line buffer.old (drop from text.now) }
{
    let mut line = line;
    for place in from..text.len() {
        let octet = text[place];
        if octet == b'\n' {
            return Scanned {
                line,
                next: place + 1,
                ended: true,
            };
        }
        line.push(octet, buffer);
    }
    Scanned {
        line,
        next: from.max(text.len()),
        ended: false,
    }
}
