// What `settle` has still to print, with only the last steps of its run.
#![tactic(auto)]

ghost use Rattle.std.specs.Prelude.{◌≡◌};
ghost use Rattle.settle_rest.specs.Rest.{last_of, shortened};
ghost use Rattle.settle_run.specs.Counted.{running_after};

use settle_rest::Printing;
use settle_run::Running;

// A run after so many steps.
fn skip(mut running: Running, steps: u64) -> Running
    ensures { result ≡ running_after steps running }
{
    for _ in 0..steps {
        settle_steps::step(&mut running);
    }
    running
}

// A run with only its last steps, at most so many.
fn last_of(running: Running, shown: u64) -> Running
    ensures { result ≡ last_of shown running }
{
    let settled = settle_steps::settle(running.ring);
    let steps = settled.passes as u64 + settled.silences as u64;
    skip(running, steps.saturating_sub(shown))
}

// The same with only the last steps of its run, at most so many.
pub fn shorten(printing: Printing, shown: u64) -> Printing
    ensures { result ≡ shortened shown printing }
{
    match printing {
        Printing::Header(running) => Printing::Header(last_of(running, shown)),
        Printing::Run(running) => Printing::Run(last_of(running, shown)),
        Printing::Bad(_) | Printing::Over => printing,
    }
}
