// Next, and what a silence does to the views of a ring, in place.
#![tactic(auto)]

ghost use Rattle.std.specs.Prelude.{◌≡◌, ◌≤◌};
ghost use Rattle.laws.specs.Usual.{drop};
ghost use Rattle.settling.specs.Ring.{next, silence};
ghost use Rattle.settle_views.specs.Views.{ring_with, stations_of};
ghost use Rattle.settle_moves.specs.Moves.{first_listed, moved, moves_in_silence};

// The first listed number that is not below `from`.
fn first_listed(views: &[u8; 256], from: usize) -> Option<u8>
    requires { from ≤ 256 }
    ensures { result ≡ first_listed from (drop from views.now) }
{
    views[from..]
        .iter()
        .position(|view| *view != 0)
        .map(|place| (from + place) as u8)
}

pub fn next_after(views: &[u8; 256], number: u8) -> u8
    ensures { result ≡ next (stations_of (ring_with views.now)) number }
{
    let above = first_listed(views, number as usize + 1);
    above.or_else(|| first_listed(views, 0)).unwrap_or(number)
}

// Where each view goes in a silence, found from the largest to the smallest: to the first listed number above it, else to the smallest,
// and to itself where no number is listed.
fn silence_moves(views: &[u8; 256]) -> [u8; 256]
    ensures { result ≡ moves_in_silence views.now }
{
    let mut moves = [0u8; 256];
    let mut above = first_listed(views, 0);
    for view in (1..256usize).rev() {
        moves[view] = above.unwrap_or(view as u8);
        if views[view] != 0 {
            above = Some(view as u8);
        }
    }
    moves
}

fn move_views(views: &mut [u8], moves: &[u8; 256])
    requires { moves.now ≡ moves_in_silence views.old }
    ensures { ring_with views.new ≡ moved (ring_with views.old) silence }
{
    for view in views {
        *view = moves[*view as usize];
    }
}

// A silence, and where each view goes in it. The next of every view is found once, and not again for each station.
pub fn silence_views(views: &mut [u8; 256]) -> [u8; 256]
    ensures value { result ≡ moves_in_silence views.old }
    ensures views_after { ring_with views.new ≡ moved (ring_with views.old) silence }
{
    let moves = silence_moves(views);
    move_views(views, &moves);
    moves
}
