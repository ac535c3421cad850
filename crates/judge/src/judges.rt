//! The four judges.
ghost use Rattle.std.specs.Prelude.{◌≡◌};
ghost use Rattle.judge.specs.Meanings.{always_important, from_threshold, by_slope, by_grades};
ghost use Rattle.std.proofs.Common.{rules};

use crate::Judge;

/// Finds every job important.
#[derive(Clone, Copy)]
pub struct Plain;

impl Judge for Plain {
    ghost meaning = { λ _. always_important };

    ghost range = { Prim.search rules };

    fn stretch(
        &self,
        _result: i32,
        _before: Option<i32>,
        _threshold: i32,
        _max_stretch: u32,
    ) -> u32 {
        1
    }
}

/// Finds a job important if the result is at or above the threshold.
#[derive(Clone, Copy)]
pub struct Threshold;

impl Judge for Threshold {
    ghost meaning = { λ _. from_threshold };

    ghost range = { Prim.search rules };

    fn stretch(&self, latest: i32, _before: Option<i32>, threshold: i32, max_stretch: u32) -> u32 {
        if latest >= threshold { 1 } else { max_stretch }
    }
}

/// Finds a job important if the result moved by the threshold or more.
#[derive(Clone, Copy)]
pub struct Slope;

impl Judge for Slope {
    ghost meaning = { λ _. by_slope };

    ghost range = { Prim.search rules };

    fn stretch(&self, latest: i32, before: Option<i32>, threshold: i32, max_stretch: u32) -> u32 {
        let Some(earlier) = before else {
            return 1;
        };
        // The distance of two results may pass the signed range.
        let moved = latest.abs_diff(earlier) as i64;
        let least = threshold as i64;
        if moved >= least { 1 } else { max_stretch }
    }
}

/// Stretches a job further the more its result falls short of the threshold: 2 within the first width, 3 within the second.
#[derive(Clone, Copy)]
pub struct Graded {
    width: u16,
}

impl Graded {
    /// A width of 0 counts as 1.
    pub fn new(width: u16) -> Graded
        ensures { result.width ≡ width }
    {
        Graded { width }
    }
}

impl Judge for Graded {
    ghost meaning = { λ judge. by_grades judge.width };

    ghost range = { Prim.search rules };

    fn stretch(&self, latest: i32, _before: Option<i32>, threshold: i32, max_stretch: u32) -> u32 {
        if latest >= threshold {
            return 1;
        }
        let width = self.width.max(1);
        let short = threshold.abs_diff(latest);
        let grade = 2 + (short as u64 - 1) / width as u64;
        grade.min(max_stretch as u64) as u32
    }
}
