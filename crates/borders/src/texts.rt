//! What is printed: every refusal with its number, and the states.
use line::{Refusal, State};
use std::test::Fail;

const TABLE: [(Refusal, u32, &str); 15] = [
    (Refusal::NoSuchService, 1, "no such service"),
    (Refusal::NoSuchPoint, 2, "no such point"),
    (Refusal::ServiceTaken, 3, "service taken"),
    (Refusal::BadPeriod, 4, "bad period"),
    (Refusal::BadBudget, 5, "bad budget"),
    (Refusal::BadStretch, 6, "bad stretch"),
    (Refusal::LineFull, 7, "line full"),
    (Refusal::ServiceUnknown, 8, "service unknown"),
    (Refusal::PointTaken, 9, "point taken"),
    (Refusal::PointUnknown, 10, "point unknown"),
    (Refusal::StillWaiting, 11, "still waiting"),
    (Refusal::SilentWire, 12, "silent wire"),
    (Refusal::ClockSpent, 13, "clock spent"),
    (Refusal::BadLine, 14, "bad line"),
    (Refusal::WrongSize, 15, "wrong size"),
];

#[test]
fn each_refusal_has_its_number_and_words(rt: HostRuntime) -> Result<(), Fail> {
    for (refusal, number, words) in TABLE {
        assert_eq!(rt; refusal.number(), number);
        let printed = refusal.to_string(rt.alloc())?;
        assert_eq!(rt; printed.as_str(), words);
    }
    Ok(())
}

const STATES: [(State, &str); 4] = [
    (State::Empty, "empty"),
    (State::Active, "active"),
    (State::ShortWait(22), "short wait to 22"),
    (State::LongWait(4000057600), "long wait to 4000057600"),
];

#[test]
fn a_wait_is_printed_with_its_wake_moment(rt: HostRuntime) -> Result<(), Fail> {
    for (state, words) in STATES {
        let printed = state.to_string(rt.alloc())?;
        assert_eq!(rt; printed.as_str(), words);
    }
    Ok(())
}
