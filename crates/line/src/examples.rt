//! Worked examples of one service and one event, run.
use crate::events::Event;
use crate::services::{Reservation, Service, State};

const TENS: Service = Service {
    reservation: Reservation {
        budget: 10,
        period: 100,
        max_stretch: 16,
    },
    remaining: 9,
    deadline: 100,
    served: 0,
    state: State::Empty,
};

const TWOS: Service = Service {
    reservation: Reservation {
        budget: 2,
        period: 10,
        max_stretch: 16,
    },
    remaining: 0,
    deadline: 10,
    served: 0,
    state: State::Empty,
};

#[test]
fn what_is_left_is_resumed_or_replenished(rt: HostRuntime) {
    let mut service = TENS;
    service.on(Event::Request(1), 9);
    let resumed = Service {
        state: State::Active,
        ..TENS
    };
    assert_eq!(rt; service, resumed);
    let mut service = TENS;
    service.on(Event::Request(1), 10);
    let replenished = Service {
        remaining: 10,
        deadline: 110,
        state: State::Active,
        ..TENS
    };
    assert_eq!(rt; service, replenished);
}

#[test]
fn no_stretch_enters_the_test(rt: HostRuntime) {
    let little = Service {
        remaining: 1,
        ..TENS
    };
    let mut service = little;
    service.on(Event::Request(16), 10);
    let resumed = Service {
        state: State::Active,
        ..little
    };
    assert_eq!(rt; service, resumed);
}

#[test]
fn nothing_left_waits_to_the_deadline(rt: HostRuntime) {
    let mut service = TWOS;
    service.on(Event::Request(1), 9);
    assert_eq!(rt; service.state, State::ShortWait(10));
    let mut service = TWOS;
    service.on(Event::Request(3), 9);
    assert_eq!(rt; service.state, State::LongWait(40));
    let mut service = TWOS;
    service.on(Event::Request(1), 10);
    let important = Service {
        remaining: 2,
        deadline: 20,
        state: State::Active,
        ..TWOS
    };
    assert_eq!(rt; service, important);
    let mut service = TWOS;
    service.on(Event::Request(3), 10);
    let stretched = Service {
        deadline: 40,
        ..important
    };
    assert_eq!(rt; service, stretched);
}

#[test]
fn an_important_request_shortens_a_long_wait(rt: HostRuntime) {
    let long = Service {
        state: State::LongWait(40),
        ..TWOS
    };
    let mut service = long;
    service.on(Event::Request(1), 12);
    assert_eq!(rt; service.state, State::ShortWait(22));
    let mut service = long;
    service.on(Event::Request(1), 35);
    assert_eq!(rt; service.state, State::ShortWait(40));
    let mut service = long;
    service.on(Event::Request(2), 12);
    assert_eq!(rt; service, long);
}

#[test]
fn an_exhausted_service_waits_and_wakes(rt: HostRuntime) {
    let spent = Service {
        state: State::Active,
        ..TWOS
    };
    let mut service = spent;
    service.on(Event::Exhaustion(1), 8);
    assert_eq!(rt; service.state, State::ShortWait(10));
    service.on(Event::WakeUp(1), 10);
    let awake = Service {
        remaining: 2,
        deadline: 20,
        ..spent
    };
    assert_eq!(rt; service, awake);
    let mut service = spent;
    service.on(Event::Exhaustion(3), 8);
    assert_eq!(rt; service.state, State::LongWait(40));
    service.on(Event::WakeUp(3), 40);
    let awake = Service {
        remaining: 2,
        deadline: 70,
        ..spent
    };
    assert_eq!(rt; service, awake);
}
