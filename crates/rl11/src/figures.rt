// The worked figures of addresses, check words, drives and registers.
ghost use Rattle.std.specs.Prelude.{◌≡◌, length};
ghost use Rattle.rl11.specs.Figures.{controller_figures, ControllerFiguresHold};

/// How many worked figures are shown to follow from the definitions.
pub fn worked_figures() -> usize
    ensures count { result ≡ length controller_figures }
    ensures hold { ControllerFiguresHold }
{
    17
}
