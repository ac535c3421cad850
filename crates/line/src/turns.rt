//! Active services in their turn.
ghost use Rattle.line.specs.Turns.{turn_before, turn_at};
ghost use Rattle.std.proofs.Common.{rules};

use crate::services::{Services, State};
use urgency::{Candidates, Urgent};

// An active service, waiting for its turn. Its fields stand in the order in which they decide.
#[derive(Clone, Copy, PartialEq, Eq, PartialOrd, Ord)]
pub(crate) struct Turn {
    pub(crate) deadline: u64,
    pub(crate) number: u32,
}

impl Urgent for Turn {
    ghost before = { turn_before };

    ghost connected = { Prim.search rules };

    ghost asymmetric = { Prim.search rules };

    ghost transitive = { Prim.search rules };

    fn is_before(&self, other: &Turn) -> bool {
        self < other
    }
}

impl Candidates for Services {
    type Item = Turn;

    ghost at = { turn_at };

    fn candidate(&self, place: u32) -> Option<Turn> {
        let held = self.record_at(place)?;
        match held.state {
            State::Active => Some(Turn {
                deadline: held.deadline,
                number: place,
            }),
            State::Empty | State::ShortWait(_) | State::LongWait(_) => None,
        }
    }
}
