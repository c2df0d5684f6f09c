// A text that comes octet by octet to a program that answers it line by line. What the lines do stands in specs/; here are only the reading
// and the writing.
#![tactic(auto)]

ghost use Rattle.std.specs.Prelude.{◌≡◌, ◌<◌, length, take, IsNone, IsSome, IsOk, OnOk, MatchOption, Err, false};
ghost use Rattle.std.specs.Io.{ReadsAtMost};
ghost use Rattle.std.specs.Io.KnownBytes.{ReadConsumes, Consumes, IsAtEnd};
ghost use Rattle.text_feeding.specs.Counts.{Counts};

use std::io::{self, ErrorKind, Read, Stdin, Stdout, Write};

// Where a program reads and writes, and the last error there.
#[derive(Drop)]
pub struct Streams {
    pub input: Stdin,
    pub output: Stdout,
    pub failed: Option<io::Error>,
}

// Reads once, and again where a signal broke in.
fn read_once<R: Read>(reader: &mut R, part: &mut [u8]) -> io::Result<usize>
    ensures bound { ReadsAtMost result part.new }
    ensures bytes { ReadConsumes (R.remaining reader.old) (R.remaining reader.new) result part.new }
{
    for _ in 0..u64::MAX {
        match reader.read(part) {
            Ok(got) => return Ok(got),
            Err(error) if error.kind() == ErrorKind::Interrupted => {}
            Err(error) => return Err(error),
        }
    }
    Err(io::Error::from(ErrorKind::Interrupted))
}

// Reads until the buffer is full, the input ends or it cannot be read: how many octets came to its front, and how the reading ended.
pub fn read_full<R: Read>(reader: &mut R, buffer: &mut [u8]) -> (usize, io::Result<()>)
    ensures count { Counts result.0 buffer.new }
    ensures octets { Consumes (R.remaining reader.old) (R.remaining reader.new) (take result.0 buffer.new) }
    ensures whole { OnOk result.1 (result.0 < length buffer.new → IsAtEnd (R.remaining reader.new)) }
{
    let mut done = 0;
    // No `for`: how many octets come at a time the reading tells.
    while done < buffer.len() {
        match read_once(reader, &mut buffer[done..]) {
            Ok(0) => return (done, Ok(())),
            Ok(got) => done += got,
            Err(error) => return (done, Err(error)),
        }
    }
    (done, Ok(()))
}

impl Streams {
    pub fn new(input: Stdin, output: Stdout) -> Streams
        ensures { IsNone result.failed }
    {
        Streams {
            input,
            output,
            failed: None,
        }
    }

    // Reads the input once: how many octets came to the front of the part, none at the end of the input or where it cannot be read. Which
    // octets come no contract can say.
    pub fn read_some(&mut self, part: &mut [u8]) -> usize
        ensures count { Counts result part.new }
        ensures kept { IsSome self.old.failed → IsSome self.new.failed }
        ensures refused { IsNone self.old.failed → IsSome self.new.failed → result ≡ 0 }
    {
        let got = read_once(&mut self.input, part);
        if let Err(error) = got {
            self.failed = Some(error);
        }
        got.unwrap_or(0)
    }

    // Writes all of the text, and says whether all of it was taken.
    pub fn write(&mut self, text: &[u8]) -> bool
        ensures kept { IsSome self.old.failed → IsSome self.new.failed }
        ensures refused { result ≡ false → IsSome self.new.failed }
    {
        match self.output.write_all(text) {
            Ok(()) => true,
            Err(error) => {
                self.failed = Some(error);
                false
            }
        }
    }

    // What a program ends with.
    pub fn end(self) -> io::Result<()>
        ensures { MatchOption self.failed (IsOk result) (λ error. result ≡ Err error) }
    {
        match self.failed {
            Some(error) => Err(error),
            None => Ok(()),
        }
    }
}
