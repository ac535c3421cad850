//! The shared line: a judge, and a schedule within its bounds.
ghost use Rattle.line.specs.Sound.{Sound};

use crate::schedule::Schedule;
use judge::Judge;

/// A line shared by up to 32 services and 256 points.
#[derive(Drop)]
pub struct Line<J: Judge> {
    pub(crate) judge: J,
    pub(crate) schedule: Schedule,
    // What every line keeps, whatever is called on it.
    ghost sound: { Sound schedule },
}
