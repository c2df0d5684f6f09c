// What the panel shows as numbers, for C.
#![tactic(auto)]

ghost use Rattle.std.specs.Prelude.{◌≡◌};
ghost use Rattle.boundary_figure.specs.Figures.{gap_kind, kind_of, gap_ticks, ticks_of, figure_numbers};

use panel::Figure;
use units::Ticks;

// What the panel shows, and its text: numbers and an array with its length, as C has them (`flnet_figure`).
#[repr(C)]
#[derive(Clone, Copy)]
pub struct Shown {
    pub kind: u8,
    pub ticks: u16,
    pub octets: [u8; 6],
    pub length: usize,
}

// The kind of a gap: over above 65,535 ticks.
fn gap_kind(gap: Ticks) -> u8
    ensures { result ≡ gap_kind gap }
{
    if panel::is_over(gap) { 1 } else { 2 }
}

fn kind_of(figure: Figure) -> u8
    ensures { result ≡ kind_of figure }
{
    match figure {
        Figure::Nothing => 0,
        Figure::Over => 1,
        Figure::Gap(gap) => gap_kind(gap),
    }
}

// The ticks of a gap that is not over.
fn gap_ticks(gap: Ticks) -> u16
    ensures { result ≡ gap_ticks gap }
{
    if panel::is_over(gap) { 0 } else { gap.0 as u16 }
}

fn ticks_of(figure: Figure) -> u16
    ensures { result ≡ ticks_of figure }
{
    match figure {
        Figure::Nothing => 0,
        Figure::Over => 0,
        Figure::Gap(gap) => gap_ticks(gap),
    }
}

pub fn figure_shown(figure: Figure) -> Shown
    ensures { result ≡ figure_numbers figure }
{
    let text = panel_text::text_of(figure);
    let octets = text.octets;
    Shown {
        kind: kind_of(figure),
        ticks: ticks_of(figure),
        octets,
        length: text.length,
    }
}
