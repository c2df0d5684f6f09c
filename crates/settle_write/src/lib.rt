// Hands what `settle` prints to a writer, part by part.
#![tactic(auto)]

ghost use Rattle.std.specs.Prelude.{◌≡◌, OnOk};
ghost use Rattle.std.specs.Io.KnownBytes.{Appends};
ghost use Rattle.settle_rest.specs.Rest.{rest_of};

use settle_rest::Printing;
use std::io::{self, Write};

// Fills a buffer and writes its front until nothing is left to print, or until it is not taken.
pub fn write_rest<W: Write>(mut printing: Printing, output: &mut W) -> io::Result<()>
    ensures { OnOk result (Appends (W.contents output.old) (W.contents output.new) (rest_of printing)) }
{
    let mut buffer = [0u8; 65536];
    // No `for`: what is still to be printed tells when nothing is.
    while !printing.is_over() {
        let filled = settle_print::fill(printing, &mut buffer);
        output.write_all(&buffer[..filled.length])?;
        printing = filled.printing;
    }
    Ok(())
}
