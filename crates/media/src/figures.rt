// The worked figures of addresses and check words.
ghost use Rattle.std.specs.Prelude.{◌≡◌, length};
ghost use Rattle.media.specs.Figures.{figures, FiguresHold};

/// How many worked figures are shown to follow from the definitions.
pub fn worked_figures() -> usize
    ensures count { result ≡ length figures }
    ensures hold { FiguresHold }
{
    11
}
