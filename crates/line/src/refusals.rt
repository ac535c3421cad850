//! Why a call is refused. Where several refusals apply, the one of smallest number is returned.
ghost use Rattle.std.specs.Prelude.{◌≡◌, Some};
ghost use Rattle.line.specs.Refusals.{number_of, words_of};

use std::error::Error;
use std::fmt;

/// The fifteen refusals, with their numbers.
#[derive(Clone, Copy, PartialEq, Eq, Debug)]
pub enum Refusal {
    /// The service number is above 31.
    NoSuchService = 1,
    /// The point number is above 255.
    NoSuchPoint = 2,
    /// The number to be reserved is reserved.
    ServiceTaken = 3,
    /// The period is 0 or does not divide 3600.
    BadPeriod = 4,
    /// The budget is 0 or above the period.
    BadBudget = 5,
    /// The largest stretch is 0 or above 16.
    BadStretch = 6,
    /// The shares would pass 3600.
    LineFull = 7,
    /// The service is not reserved.
    ServiceUnknown = 8,
    /// The point to be enrolled is enrolled.
    PointTaken = 9,
    /// The point is not enrolled.
    PointUnknown = 10,
    /// The point's job still waits.
    StillWaiting = 11,
    /// A slot was told ended with nobody active.
    SilentWire = 12,
    /// The clock is at its end.
    ClockSpent = 13,
    /// A line of a script has none of the forms.
    BadLine = 14,
    /// A script is too long, or a buffer too short.
    WrongSize = 15,
}

impl Refusal {
    /// Its number in the table of refusals.
    pub fn number(self) -> u32
        ensures { result ≡ number_of self }
    {
        self as u32
    }

    /// Its words, as they are printed.
    pub fn words(self) -> &'static str
        ensures { result.now ≡ words_of self }
    {
        match self {
            Refusal::NoSuchService => "no such service",
            Refusal::NoSuchPoint => "no such point",
            Refusal::ServiceTaken => "service taken",
            Refusal::BadPeriod => "bad period",
            Refusal::BadBudget => "bad budget",
            Refusal::BadStretch => "bad stretch",
            Refusal::LineFull => "line full",
            Refusal::ServiceUnknown => "service unknown",
            Refusal::PointTaken => "point taken",
            Refusal::PointUnknown => "point unknown",
            Refusal::StillWaiting => "still waiting",
            Refusal::SilentWire => "silent wire",
            Refusal::ClockSpent => "clock spent",
            Refusal::BadLine => "bad line",
            Refusal::WrongSize => "wrong size",
        }
    }
}

impl fmt::Display for Refusal {
    ghost output = { λ refusal. Some (words_of refusal) };

    fn fmt<W: fmt::Write>(&self, f: &mut fmt::Formatter<W>) -> fmt::Result {
        f.write_str(self.words())
    }
}

impl Error for Refusal {}
