//! What became of a call, in words and number.
ghost use Rattle.std.specs.Prelude.{Some};
ghost use Rattle.block.specs.Outcomes.{outcome_words};

use line::Refusal;
use std::fmt;

// An answer as it is printed.
#[derive(Clone, Copy)]
pub(crate) struct Outcome(pub(crate) Result<(), Refusal>);

impl fmt::Display for Outcome {
    ghost output = { λ outcome. Some (outcome_words outcome.0) };

    fn fmt<W: fmt::Write>(&self, f: &mut fmt::Formatter<W>) -> fmt::Result {
        match self.0 {
            Ok(()) => f.write_str("done"),
            Err(refusal) => write!(f, "refused {}, {refusal}", refusal.number()),
        }
    }
}
