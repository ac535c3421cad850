//! Waiting jobs, and the head of a service.
ghost use Rattle.line.specs.Jobs.{job_before, job_at};
ghost use Rattle.std.proofs.Common.{rules};

use crate::points::Points;
use urgency::{Candidates, Urgent};

// The job of a point that waits. Its fields stand in the order in which they decide.
#[derive(Clone, Copy, PartialEq, Eq, PartialOrd, Ord)]
pub(crate) struct Job {
    pub(crate) stretch: u32,
    // Its place in the order of requests.
    pub(crate) order: u64,
    pub(crate) point: u32,
}

impl Urgent for Job {
    ghost before = { job_before };

    ghost connected = { Prim.search rules };

    ghost asymmetric = { Prim.search rules };

    ghost transitive = { Prim.search rules };

    // No two waiting jobs have one order, so the point never decides; it only makes the order tell any two jobs apart.
    fn is_before(&self, other: &Job) -> bool {
        self < other
    }
}

// The waiting jobs of one service, by their points.
#[derive(Clone, Copy)]
pub(crate) struct Jobs<'a> {
    pub(crate) points: &'a Points,
    pub(crate) service: u32,
}

impl<'a> Candidates for Jobs<'a> {
    type Item = Job;

    ghost at = { λ jobs. job_at jobs.points.now jobs.service };

    fn candidate(&self, place: u32) -> Option<Job> {
        let held = self.points.record_at(place)?;
        if held.service != self.service {
            return None;
        }
        let order = held.job?;
        Some(Job {
            stretch: held.stretch,
            order,
            point: place,
        })
    }
}
