//! A fifth judge, made outside the crate of judges: the interface is open, and its range is owed here too.
ghost use Rattle.std.specs.Prelude.{min, max};
ghost use Rattle.std.proofs.Common.{rules};

use crate::plans::plan;
use judge::Judge;
use line::Line;

// Stretches every job alike, as far as its service allows.
#[derive(Clone, Copy)]
struct Steady {
    stretch: u32,
}

impl Judge for Steady {
    ghost meaning = { λ judge _ _ _ most. max 1 (min judge.stretch most) };

    ghost range = { Prim.search rules };

    fn stretch(
        &self,
        _result: i32,
        _before: Option<i32>,
        _threshold: i32,
        max_stretch: u32,
    ) -> u32 {
        let allowed = self.stretch.min(max_stretch);
        allowed.max(1)
    }
}

#[test]
fn a_judge_from_outside_is_served(rt: HostRuntime) {
    let twice = Steady { stretch: 2 };
    assert_eq!(rt; twice.stretch(0, None, 0, 1), 1);
    assert_eq!(rt; twice.stretch(0, None, 0, 16), 2);
    assert_eq!(rt; Steady { stretch: 0 }.stretch(0, None, 0, 16), 1);
    let mut line = Line::new(twice);
    assert_eq!(rt; line.reserve(0, plan(1, 10, 16)), Ok(()));
    assert_eq!(rt; line.enrol(0, 0, 7), Ok(()));
}
