//! Requests: what is refused, what a request changes, and whom the next slot runs.
use crate::plans::plan;
use judge::{Plain, Slope};
use line::{Line, PointRecord, Refusal, Service, State};

#[test]
fn a_request_is_refused(rt: HostRuntime) {
    let mut line = Line::new(Plain);
    assert_eq!(rt; line.request(256), Err(Refusal::NoSuchPoint));
    assert_eq!(rt; line.request(u32::MAX), Err(Refusal::NoSuchPoint));
    assert_eq!(rt; line.request(255), Err(Refusal::PointUnknown));
    assert_eq!(rt; line.reserve(0, plan(1, 10, 1)), Ok(()));
    assert_eq!(rt; line.enrol(255, 0, 0), Ok(()));
    assert_eq!(rt; line.request(255), Ok(()));
    assert_eq!(rt; line.request(255), Err(Refusal::StillWaiting));
    assert_eq!(rt; line.who(), Some((0, 255)));
}

#[test]
fn a_request_replenishes_a_new_service(rt: HostRuntime) {
    let mut line = Line::new(Slope);
    assert_eq!(rt; line.reserve(31, plan(2, 10, 3)), Ok(()));
    assert_eq!(rt; line.enrol(7, 31, -40), Ok(()));
    assert_eq!(rt; line.enrol(8, 31, -40), Ok(()));
    assert_eq!(rt; line.who(), None);
    assert_eq!(rt; line.request(7), Ok(()));
    let active = Service {
        reservation: plan(2, 10, 3),
        remaining: 2,
        deadline: 10,
        served: 0,
        state: State::Active,
    };
    assert_eq!(rt; line.service(31), Ok(active));
    let waiting = PointRecord {
        service: 31,
        threshold: -40,
        result: None,
        stretch: 1,
        waiting: true,
    };
    assert_eq!(rt; line.point(7), Ok(waiting));
    let idle = PointRecord {
        waiting: false,
        ..waiting
    };
    assert_eq!(rt; line.point(8), Ok(idle));
    // The second job only joins.
    assert_eq!(rt; line.request(8), Ok(()));
    assert_eq!(rt; line.service(31), Ok(active));
    assert_eq!(rt; line.point(8), Ok(waiting));
    assert_eq!(rt; line.clock(), 0);
}

#[test]
fn the_first_deadline_runs_next(rt: HostRuntime) {
    let mut line = Line::new(Plain);
    assert_eq!(rt; line.reserve(0, plan(1, 100, 1)), Ok(()));
    assert_eq!(rt; line.reserve(1, plan(1, 60, 1)), Ok(()));
    assert_eq!(rt; line.reserve(2, plan(1, 60, 1)), Ok(()));
    assert_eq!(rt; line.enrol(0, 0, 0), Ok(()));
    assert_eq!(rt; line.enrol(1, 1, 0), Ok(()));
    assert_eq!(rt; line.enrol(2, 2, 0), Ok(()));
    assert_eq!(rt; line.request(0), Ok(()));
    assert_eq!(rt; line.who(), Some((0, 0)));
    assert_eq!(rt; line.request(2), Ok(()));
    assert_eq!(rt; line.who(), Some((2, 2)));
    // Of equal deadlines, that of the smaller number.
    assert_eq!(rt; line.request(1), Ok(()));
    assert_eq!(rt; line.who(), Some((1, 1)));
}

#[test]
fn the_head_was_requested_first(rt: HostRuntime) {
    let mut line = Line::new(Plain);
    assert_eq!(rt; line.reserve(5, plan(1, 60, 16)), Ok(()));
    assert_eq!(rt; line.enrol(3, 5, 0), Ok(()));
    assert_eq!(rt; line.enrol(200, 5, 0), Ok(()));
    assert_eq!(rt; line.enrol(100, 5, 0), Ok(()));
    assert_eq!(rt; line.request(200), Ok(()));
    assert_eq!(rt; line.request(3), Ok(()));
    assert_eq!(rt; line.request(100), Ok(()));
    assert_eq!(rt; line.who(), Some((5, 200)));
}
