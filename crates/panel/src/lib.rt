// The front panel's figure: the ticks from one taking of the token to the next.
#![tactic(auto)]

ghost use Rattle.std.specs.Prelude.{◌≡◌};
ghost use Rattle.panel.specs.Panel.{blank, counted, ticked, after_taking, is_over, figure_of};

use units::Ticks;

// The takings since we began to participate (2 stands for more), the ticks since the last one, and the last finished gap.
#[repr(C)]
#[derive(Clone, Copy, PartialEq, Eq, Default)]
pub struct Panel {
    pub takings: u8,
    pub running: Ticks,
    pub gap: Ticks,
}

#[derive(Clone, Copy, PartialEq, Eq)]
pub enum Figure {
    // "--"
    Nothing,
    // above 65,535 ticks
    Over,
    Gap(Ticks),
}

// What is shown, in ASCII: the first `length` octets, and zeros behind them. An array with a length, since it is handed on by value, without a heap.
#[derive(Clone, Copy)]
pub struct Text {
    pub octets: [u8; 6],
    pub length: usize,
}

pub fn blank() -> Panel
    ensures { result ≡ blank }
{
    Panel::default()
}

fn count(ticks: Ticks) -> Ticks
    ensures { result.0 ≡ counted ticks.0 }
{
    Ticks(ticks.0.saturating_add(1).min(65536))
}

pub fn tick(panel: Panel) -> Panel
    ensures { result ≡ ticked panel }
{
    Panel {
        running: count(panel.running),
        ..panel
    }
}

pub fn take(panel: Panel) -> Panel
    ensures { result ≡ after_taking panel }
{
    Panel {
        takings: panel.takings.saturating_add(1).min(2),
        running: Ticks(0),
        gap: panel.running,
    }
}

pub fn is_over(gap: Ticks) -> bool
    ensures { result ≡ is_over gap }
{
    65535 < gap.0
}

pub fn figure_of(panel: Panel) -> Figure
    ensures { result ≡ figure_of panel }
{
    let gap = panel.gap;
    if panel.takings < 2 {
        Figure::Nothing
    } else if is_over(gap) {
        Figure::Over
    } else {
        Figure::Gap(gap)
    }
}
