//! The line: what is admitted and what is refused, which refusal comes first, and what it leaves.
use crate::plans::plan;
use judge::{Graded, Plain, Slope};
use line::{Line, PointRecord, Refusal, Service, State};

#[test]
fn a_period_divides_the_hour(rt: HostRuntime) {
    let mut line = Line::new(Plain);
    assert_eq!(rt; line.reserve(0, plan(1, 16, 1)), Ok(()));
    assert_eq!(rt; line.reserve(1, plan(1, 7, 1)), Err(Refusal::BadPeriod));
    assert_eq!(rt; line.reserve(1, plan(1, 0, 1)), Err(Refusal::BadPeriod));
    assert_eq!(rt; line.reserve(1, plan(1, 7200, 1)), Err(Refusal::BadPeriod));
    assert_eq!(rt;
        line.reserve(1, plan(1, u32::MAX, 1)),
        Err(Refusal::BadPeriod)
    );
    assert_eq!(rt; line.reserve(1, plan(1, 3600, 1)), Ok(()));
    assert_eq!(rt; line.shares(), 226);
}

#[test]
fn a_budget_fits_its_period(rt: HostRuntime) {
    let mut line = Line::new(Plain);
    assert_eq!(rt; line.reserve(0, plan(11, 10, 1)), Err(Refusal::BadBudget));
    assert_eq!(rt; line.reserve(0, plan(0, 10, 1)), Err(Refusal::BadBudget));
    assert_eq!(rt;
        line.reserve(0, plan(u32::MAX, 10, 1)),
        Err(Refusal::BadBudget)
    );
    assert_eq!(rt; line.shares(), 0);
    assert_eq!(rt; line.reserve(0, plan(10, 10, 1)), Ok(()));
    assert_eq!(rt; line.shares(), 3600);
}

#[test]
fn a_stretch_is_one_to_sixteen(rt: HostRuntime) {
    let mut line = Line::new(Plain);
    assert_eq!(rt; line.reserve(0, plan(1, 10, 17)), Err(Refusal::BadStretch));
    assert_eq!(rt; line.reserve(0, plan(1, 10, 0)), Err(Refusal::BadStretch));
    assert_eq!(rt; line.reserve(0, plan(1, 10, 16)), Ok(()));
}

#[test]
fn a_line_fills_up(rt: HostRuntime) {
    let mut line = Line::new(Plain);
    assert_eq!(rt; line.reserve(0, plan(5, 10, 1)), Ok(()));
    assert_eq!(rt; line.reserve(31, plan(5, 10, 1)), Ok(()));
    assert_eq!(rt; line.reserve(2, plan(1, 3600, 1)), Err(Refusal::LineFull));
    assert_eq!(rt; line.shares(), 3600);
}

#[test]
fn the_smallest_refusal_of_a_reservation_is_returned(rt: HostRuntime) {
    let mut line = Line::new(Plain);
    assert_eq!(rt; line.reserve(0, plan(10, 10, 1)), Ok(()));
    assert_eq!(rt;
        line.reserve(32, plan(0, 0, 0)),
        Err(Refusal::NoSuchService)
    );
    assert_eq!(rt;
        line.reserve(u32::MAX, plan(1, 10, 1)),
        Err(Refusal::NoSuchService)
    );
    assert_eq!(rt; line.reserve(0, plan(0, 0, 0)), Err(Refusal::ServiceTaken));
    assert_eq!(rt; line.reserve(1, plan(0, 0, 0)), Err(Refusal::BadPeriod));
    assert_eq!(rt; line.reserve(1, plan(0, 10, 0)), Err(Refusal::BadBudget));
    assert_eq!(rt; line.reserve(1, plan(10, 10, 0)), Err(Refusal::BadStretch));
    assert_eq!(rt; line.reserve(1, plan(10, 10, 1)), Err(Refusal::LineFull));
}

#[test]
fn the_smallest_refusal_of_an_enrolment_is_returned(rt: HostRuntime) {
    let mut line = Line::new(Plain);
    assert_eq!(rt; line.reserve(0, plan(1, 10, 1)), Ok(()));
    assert_eq!(rt; line.enrol(0, 0, 5), Ok(()));
    assert_eq!(rt; line.enrol(256, 32, 5), Err(Refusal::NoSuchService));
    assert_eq!(rt; line.enrol(256, 1, 5), Err(Refusal::NoSuchPoint));
    assert_eq!(rt; line.enrol(u32::MAX, 0, 5), Err(Refusal::NoSuchPoint));
    assert_eq!(rt; line.enrol(0, 1, 5), Err(Refusal::ServiceUnknown));
    assert_eq!(rt; line.enrol(0, 0, 5), Err(Refusal::PointTaken));
    assert_eq!(rt; line.enrol(255, 0, i32::MIN), Ok(()));
}

#[test]
fn a_new_service_has_nothing_yet(rt: HostRuntime) {
    let mut line = Line::new(Slope);
    assert_eq!(rt; line.service(31), Err(Refusal::ServiceUnknown));
    assert_eq!(rt; line.service(32), Err(Refusal::NoSuchService));
    assert_eq!(rt; line.reserve(31, plan(2, 10, 3)), Ok(()));
    let new = Service {
        reservation: plan(2, 10, 3),
        remaining: 0,
        deadline: 0,
        served: 0,
        state: State::Empty,
    };
    assert_eq!(rt; line.service(31), Ok(new));
    // A refusal leaves the record and the shares.
    assert_eq!(rt; line.reserve(31, plan(3, 6, 1)), Err(Refusal::ServiceTaken));
    assert_eq!(rt; line.service(31), Ok(new));
    assert_eq!(rt; line.shares(), 720);
    assert_eq!(rt; line.clock(), 0);
    assert_eq!(rt; line.unused(), 0);
}

#[test]
fn a_new_point_has_no_result(rt: HostRuntime) {
    let mut line = Line::new(Graded::new(10));
    assert_eq!(rt; line.reserve(3, plan(2, 10, 3)), Ok(()));
    assert_eq!(rt; line.point(255), Err(Refusal::PointUnknown));
    assert_eq!(rt; line.point(256), Err(Refusal::NoSuchPoint));
    assert_eq!(rt; line.enrol(255, 3, -40), Ok(()));
    let new = PointRecord {
        service: 3,
        threshold: -40,
        result: None,
        stretch: 1,
        waiting: false,
    };
    assert_eq!(rt; line.point(255), Ok(new));
    // A refusal leaves the record.
    assert_eq!(rt; line.enrol(255, 3, 40), Err(Refusal::PointTaken));
    assert_eq!(rt; line.point(255), Ok(new));
}
