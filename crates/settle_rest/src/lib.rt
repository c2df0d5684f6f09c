// What `settle` has still to print.
#![tactic(auto)]

ghost use Rattle.std.specs.Prelude.{◌≡◌};
ghost use Rattle.settle_rest.specs.Rest.{printing_of, is_over};

use settle_input::BadLine;
use settle_run::Running;

// What is still to be printed: `bad,` and a line's number; or the column names and a run; or of a run the steps that it still makes, then
// the totals; or nothing.
#[derive(Clone, Copy)]
pub enum Printing {
    Bad(u32),
    Header(Running),
    Run(Running),
    Over,
}

// All that is printed for an input.
#[tactic(auto, unfolding(crate::specs::Rest::printing_of))]
pub fn begin(input: &[u8]) -> Printing
    ensures { result ≡ printing_of input.now }
{
    match settle_input::read_ring(input) {
        Ok(ring) => Printing::Header(settle_run::begin(ring)),
        Err(BadLine(number)) => Printing::Bad(number),
    }
}

impl Printing {
    pub fn is_over(&self) -> bool
        ensures { result ≡ is_over self.now }
    {
        matches!(self, Printing::Over)
    }
}
