//! The plan of the block: five services, and the meters of twelve flats with their boilers, alarms, tariff clock and heat.
//! Then the requests at the quarter mark. Some calls are wrong, each in another way.

use line::Reservation;

#[derive(Clone, Copy)]
pub(crate) struct Enrolment {
    pub(crate) point: u32,
    pub(crate) service: u32,
    pub(crate) threshold: i32,
}

// Each with the number of its service, which says where the reservation goes and is no part of it.
pub(crate) const RESERVATIONS: [(u32, Reservation); 10] = [
    // Quarter-hour reads of the flats' meters.
    (
        0,
        Reservation {
            budget: 120,
            period: 900,
            max_stretch: 4,
        },
    ),
    // Relay commands to the boilers.
    (
        1,
        Reservation {
            budget: 2,
            period: 10,
            max_stretch: 1,
        },
    ),
    // Alarm points in the cellar.
    (
        2,
        Reservation {
            budget: 1,
            period: 5,
            max_stretch: 16,
        },
    ),
    // Tariff download.
    (
        3,
        Reservation {
            budget: 300,
            period: 3600,
            max_stretch: 8,
        },
    ),
    // Service 0 is taken.
    (
        0,
        Reservation {
            budget: 60,
            period: 900,
            max_stretch: 4,
        },
    ),
    // 7 does not divide 3600.
    (
        4,
        Reservation {
            budget: 1,
            period: 7,
            max_stretch: 1,
        },
    ),
    // 11 slots do not fit into 10.
    (
        4,
        Reservation {
            budget: 11,
            period: 10,
            max_stretch: 1,
        },
    ),
    // No job is stretched 17 times.
    (
        4,
        Reservation {
            budget: 1,
            period: 10,
            max_stretch: 17,
        },
    ),
    // Half of the line is more than is left.
    (
        4,
        Reservation {
            budget: 1,
            period: 2,
            max_stretch: 1,
        },
    ),
    // Heat meters, with all that is left.
    (
        4,
        Reservation {
            budget: 23,
            period: 60,
            max_stretch: 2,
        },
    ),
];

pub(crate) const ENROLMENTS: [Enrolment; 24] = [
    // The flats, important from 500 watt-hours in the quarter.
    Enrolment {
        point: 0,
        service: 0,
        threshold: 500,
    },
    Enrolment {
        point: 1,
        service: 0,
        threshold: 500,
    },
    Enrolment {
        point: 2,
        service: 0,
        threshold: 500,
    },
    Enrolment {
        point: 3,
        service: 0,
        threshold: 500,
    },
    Enrolment {
        point: 4,
        service: 0,
        threshold: 500,
    },
    Enrolment {
        point: 5,
        service: 0,
        threshold: 500,
    },
    Enrolment {
        point: 6,
        service: 0,
        threshold: 500,
    },
    Enrolment {
        point: 7,
        service: 0,
        threshold: 500,
    },
    Enrolment {
        point: 8,
        service: 0,
        threshold: 500,
    },
    Enrolment {
        point: 9,
        service: 0,
        threshold: 500,
    },
    Enrolment {
        point: 10,
        service: 0,
        threshold: 800,
    },
    Enrolment {
        point: 11,
        service: 0,
        threshold: 800,
    },
    // The boilers' relays.
    Enrolment {
        point: 40,
        service: 1,
        threshold: 0,
    },
    Enrolment {
        point: 41,
        service: 1,
        threshold: 0,
    },
    // Cellar water, the door, and the frost alarm at -5 degrees.
    Enrolment {
        point: 50,
        service: 2,
        threshold: 1,
    },
    Enrolment {
        point: 51,
        service: 2,
        threshold: 1,
    },
    Enrolment {
        point: 52,
        service: 2,
        threshold: -5,
    },
    // The tariff clock.
    Enrolment {
        point: 255,
        service: 3,
        threshold: 2147483647,
    },
    // Heat, important from 20 degrees.
    Enrolment {
        point: 60,
        service: 4,
        threshold: 20,
    },
    Enrolment {
        point: 61,
        service: 4,
        threshold: 20,
    },
    // There is no point 256.
    Enrolment {
        point: 256,
        service: 0,
        threshold: 500,
    },
    // There is no service 32 either, which is the smaller refusal of the two.
    Enrolment {
        point: 256,
        service: 32,
        threshold: 500,
    },
    // Nobody reserved service 9.
    Enrolment {
        point: 12,
        service: 9,
        threshold: 500,
    },
    // Point 0 is taken.
    Enrolment {
        point: 0,
        service: 1,
        threshold: 0,
    },
];

// A point that nobody enrolled.
pub(crate) const STRANGER: u32 = 12;

// The points in the order of their requests; each kind is more urgent than those before it.
pub(crate) const REQUESTS: [u32; 16] = [
    // The tariff clock.
    255,
    // Four of the flats, the newest first.
    11, 0, 1, 7,
    // Heat.
    61, 60,
    // The boilers' relays.
    41, 40,
    // The alarms, the frost first.
    52, 50, 51,
    // The frost alarm and the tariff clock wait already.
    52, 255,
    // Nobody enrolled this one.
    STRANGER,
    // There is no point 256.
    256,
];
