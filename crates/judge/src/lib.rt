//! Judges: each says from a meter's latest result how far its next job may be stretched.
//! A stretch of 1 marks an important job; a larger one lets the job's service wait that many periods.
#![tactic(auto)]

ghost use Rattle.std.specs.Prelude.{◌≡◌};
ghost use Rattle.judge.specs.Meanings.{Meaning, InRange};

mod judges;

pub use judges::{Graded, Plain, Slope, Threshold};

/// What a line needs of a judge: a fixed function, and that its value is a stretch.
pub trait Judge {
    // The function; it may depend on the judge's own fields.
    ghost meaning: { Self → Meaning };

    // The four numbers travel in this one method alone, so no struct carries them.
    /// The stretch of the next job of a point with this threshold, after the result `latest` and, unless it was the first, the result
    /// `before` it.
    fn stretch(&self, latest: i32, before: Option<i32>, threshold: i32, max_stretch: u32) -> u32
        ensures value { result ≡ meaning self.now latest before threshold max_stretch }
        // A & says this already; the project wants each call to say what it leaves.
        ensures kept { self.exit.now ≡ self.entry.now };

    // Its value lies in 1..=max_stretch, for every largest stretch from 1 to 16.
    ghost range: { (judge : Self) → InRange (meaning judge) };
}
