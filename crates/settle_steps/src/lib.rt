// One step of the run that `settle` makes, and the whole with both counts.
#![tactic(auto)]

ghost use Rattle.std.specs.Prelude.{◌≡◌};
ghost use Rattle.laws.specs.Usual.{length};
ghost use Rattle.settle_moves.specs.Moves.{moved};
ghost use Rattle.settle_views.specs.Views.{ring_with, stations_of};
ghost use Rattle.settle_run.specs.Run.{event_in, settled_of, Bounded};
ghost use Rattle.settle_run.specs.Running.{numbers_after, stepped_with, next_step, onward};

use settle_run::{Kind, Running, Settled, Stepped, begin};
use settle_views::Ring;

// One step of the views and their numbers, made in place.
fn step_in(views: &mut [u8; 256], numbers: &mut [u16; 256]) -> Stepped
    ensures value { result ≡ stepped_with (ring_with views.old) numbers.old }
    ensures views_after { ring_with views.new ≡ moved (ring_with views.old) (event_in (ring_with views.old)) }
    ensures numbers_after { numbers.new ≡ numbers_after (ring_with views.old) numbers.old }
{
    let Some(holder) = settle_views::smallest_holder(views) else {
        let moves = settle_next::silence_views(views);
        return Stepped {
            kind: Kind::Silence,
            views: settle_counts::silence_counts(numbers, &moves),
        };
    };
    let to = settle_next::next_after(views, holder);
    settle_moves::pass_views(views, holder, to);
    Stepped {
        kind: Kind::Pass { from: holder, to },
        views: settle_counts::pass_counts(numbers, holder, to),
    }
}

// The next step of a run, made in place.
pub fn step(running: &mut Running) -> Stepped
    ensures value { result ≡ next_step running.old }
    ensures running_after { running.new ≡ onward running.old }
{
    let stepped = step_in(&mut running.ring.views, &mut running.numbers);
    running.settled.add(stepped);
    running.left = running.left.saturating_sub(1);
    stepped
}

pub fn settle(ring: Ring) -> Settled
    ensures value { result ≡ settled_of ring }
    ensures bounded { Bounded (length (stations_of ring)) result }
{
    let mut running = begin(ring);
    // No `for`: the run itself tells when it has ended.
    while !running.has_ended() {
        step(&mut running);
    }
    running.settled
}
