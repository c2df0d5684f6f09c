// What a pass does to the views of a ring, in place.
#![tactic(auto)]

ghost use Rattle.std.specs.Prelude.{◌≡◌};
ghost use Rattle.laws.specs.Usual.{map};
ghost use Rattle.settle_moves.specs.Moves.{passed_view};

// The view of a listed station after a token frame from one station to the next.
fn passed_view(view: u8, from: u8, to: u8) -> u8
    ensures { result ≡ passed_view view from to }
{
    if view == 0 {
        return 0;
    }
    if view == from {
        return to;
    }
    view.min(to)
}

pub fn pass_views(views: &mut [u8], from: u8, to: u8)
    ensures { views.new ≡ map (λ view. passed_view view from to) views.old }
{
    for view in views {
        *view = passed_view(*view, from, to);
    }
}
