// What joining notes of a cyclic frame beside its source: the end of a round, the token detection wait and the token's destination.
#![tactic(auto)]

ghost use Rattle.std.specs.Prelude.{◌≡◌, ◌+◌};
ghost use Rattle.laws.specs.Usual.{cond, min};
ghost use Rattle.frame.specs.Codes.{is_token};
ghost use Rattle.station.specs.Rules.Starting.{ends_round};
ghost use Rattle.station.specs.Rules.State.{no_ticks};

use frame::Fields;
use units::Ticks;

fn ends_round(frame: Fields) -> bool
    ensures { result ≡ ends_round frame }
{
    frame::is_token(frame.code) && frame.destination <= frame.source
}

pub fn rounds_after(rounds: u8, frame: Fields) -> u8
    ensures { result ≡ cond (ends_round frame) (min 3 (rounds + 1)) rounds }
{
    if !ends_round(frame) {
        return rounds;
    }
    rounds.saturating_add(1).min(3)
}

// The token detection wait starts afresh at a token frame.
pub fn elapsed_after(elapsed: Ticks, frame: Fields) -> Ticks
    ensures { result ≡ cond (is_token frame.code) no_ticks elapsed }
{
    if frame::is_token(frame.code) {
        Ticks(0)
    } else {
        elapsed
    }
}

// A token destination is noted.
pub fn destination_after(view: u8, frame: Fields) -> u8
    ensures { result ≡ cond (is_token frame.code) frame.destination view }
{
    if frame::is_token(frame.code) {
        frame.destination
    } else {
        view
    }
}
