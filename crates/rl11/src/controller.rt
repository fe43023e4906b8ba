// The controller: made over a shelf and a memory, and taken apart again.
ghost use Rattle.std.specs.Prelude.{◌≡◌, map, Ok, Err, MatchResult};
ghost use Rattle.media.specs.Kinds.{kind_of};
ghost use Rattle.rl11.specs.Machine.{drive_kind_reply, kinds_reply};
ghost use Rattle.rl11.specs.State.{fresh_state};

use crate::keeping::Core;
use crate::state::{State, UNITS};
use exchanges::refusals::MakeRefusal;
use media::kinds::Kind;
use media::memory::BusMemory;
use media::shelf::Shelf;

/// An RL11 controller with four units, a shelf of packs and a bus memory.
#[derive(Drop)]
pub struct Controller<S, M> {
    pub(crate) core: Core,
    pub(crate) shelf: S,
    pub(crate) memory: M,
}

/// A controller that was not made: why, and the shelf and the memory as they were given.
#[derive(Drop)]
pub struct Unmade<S, M> {
    pub refusal: MakeRefusal,
    pub shelf: S,
    pub memory: M,
}

// The clauses of a controller's calls compare machines, by `machine_of` and the meanings of shelf and memory. A model in its place would hide the shelf and the memory themselves, which `into_parts` gives back.
impl<S: Shelf, M: BusMemory> Controller<S, M> {
    /// A fresh controller, with drives of the kinds with these numbers: 1 for an RL01, 2 for an RL02, 0 for none. Any other number is refused, and the shelf and the memory are handed back.
    // Kinds as numbers, since a number that is no kind's is refused.
    pub fn new(kinds: [u8; UNITS], shelf: S, memory: M) -> Result<Controller<S, M>, Unmade<S, M>>
        ensures { MatchResult result
            (λ made. (kinds_reply kinds ≡ Ok tt) × (made.core.state ≡ fresh_state (map kind_of kinds)) × (made.shelf ≡ shelf) × (made.memory ≡ memory))
            (λ unmade. (kinds_reply kinds ≡ Err unmade.refusal) × (unmade.shelf ≡ shelf) × (unmade.memory ≡ memory)) }
    {
        match kinds.try_map(drive_kind) {
            Ok(kinds) => Ok(Controller::fresh(kinds, shelf, memory)),
            Err(refusal) => Err(Unmade {
                refusal,
                shelf,
                memory,
            }),
        }
    }

    /// A fresh controller, with drives of these kinds, which cannot be refused.
    pub fn fresh(kinds: [Option<Kind>; UNITS], shelf: S, memory: M) -> Controller<S, M>
        ensures state { result.core.state ≡ fresh_state kinds }
        ensures shelf { result.shelf ≡ shelf }
        ensures memory { result.memory ≡ memory }
    {
        Controller {
            core: Core {
                state: State::fresh(kinds),
            },
            shelf,
            memory,
        }
    }

    /// The shelf and the memory.
    pub fn into_parts(self) -> (S, M)
        ensures shelf { result.0 ≡ self.shelf }
        ensures memory { result.1 ≡ self.memory }
    {
        let Controller {
            core: _,
            shelf,
            memory,
        } = self;
        (shelf, memory)
    }
}

// What a number says of a unit: 0 that it has no drive, 1 and 2 the kind of its drive, and any other number is refused.
fn drive_kind(number: u8) -> Result<Option<Kind>, MakeRefusal>
    ensures { result ≡ drive_kind_reply number }
{
    match number {
        0 => Ok(None),
        _ => Kind::try_from(number)
            .map(Some)
            .map_err(|_| MakeRefusal::NoSuchKind),
    }
}
