// The controller without its shelf and its memory, with what it always keeps.
ghost use Rattle.std.specs.Prelude.{◌≡◌, ◌<◌, true};
ghost use Rattle.rl11.specs.Keeps.{all_coupled, packs_apart};

use crate::state::State;

/// The state, in which a drive has a pack exactly outside state 0, no two drives have the same pack, and the angle is that of a sector.
#[derive(Drop)]
pub struct Core {
    pub(crate) state: State,
    ghost coupled: { all_coupled state.drives ≡ true },
    ghost apart: { packs_apart state.drives ≡ true },
    ghost turning: { state.angle < 40 },
}
