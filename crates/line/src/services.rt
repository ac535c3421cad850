//! Services: each reserves a budget of slots in every period of the line.
ghost use Rattle.std.specs.Prelude.{◌≡◌, ◌*◌, ◌^◌, ◌≤◌, Some};
ghost use Rattle.line.specs.Bounds.{full_share, service_places};
ghost use Rattle.line.specs.Services.{new_service, share_of, shares_of, state_words};

use crate::tables::Table;
use std::fmt;

/// The share of a whole line: the slots of an hour, one a second.
pub const FULL_SHARE: u32 = 3600;

/// Services are numbered 0 to 31.
pub const SERVICES: usize = 32;

/// No service stretches its jobs further.
pub const STRETCH_LIMIT: u32 = 16;

/// What a service does at the moment. A wake moment is the clock at which its budget is replenished.
#[derive(Clone, Copy, PartialEq, Eq, Debug)]
pub enum State {
    /// No job waits.
    Empty,
    /// A job waits, and the service has budget left to run it.
    Active,
    /// Out of budget with an important job at its head, up to the wake moment.
    ShortWait(u64),
    /// Out of budget with a stretched job at its head, up to the wake moment.
    LongWait(u64),
}

impl fmt::Display for State {
    ghost output = { λ state. Some (state_words state) };

    fn fmt<W: fmt::Write>(&self, f: &mut fmt::Formatter<W>) -> fmt::Result {
        match *self {
            State::Empty => write!(f, "empty"),
            State::Active => write!(f, "active"),
            State::ShortWait(wake) => write!(f, "short wait to {wake}"),
            State::LongWait(wake) => write!(f, "long wait to {wake}"),
        }
    }
}

/// What a service reserves of the line.
#[derive(Clone, Copy, PartialEq, Eq, Debug)]
pub struct Reservation {
    /// Slots in every period; a budget of 0, or above the period, is refused.
    pub budget: u32,
    /// A divisor of 3600, or it is refused.
    pub period: u32,
    /// The largest stretch of the service's jobs; any but 1 to 16 is refused.
    pub max_stretch: u32,
}

impl Reservation {
    // The slots of an hour that it comes to; none where the period is 0.
    #[tactic(auto, using(crate::proofs::Shares::share_bound), unfolding(crate::specs::Services::share_of))]
    pub(crate) fn share(self) -> u64
        ensures value { result ≡ share_of self }
        ensures whole { self.budget ≤ self.period → result ≤ full_share }
        ensures bound { result ≤ 2 ^ 32 * full_share }
    {
        let periods = FULL_SHARE.checked_div(self.period).unwrap_or(0);
        self.budget as u64 * periods as u64
    }
}

/// The record of one service.
#[derive(Clone, Copy, PartialEq, Eq, Debug)]
pub struct Service {
    /// What it has reserved.
    pub reservation: Reservation,
    /// Slots left of the budget.
    pub remaining: u32,
    /// The moment by which the budget is to be had; it may lie past the clock's end.
    pub deadline: u64,
    /// Slots had since the reservation.
    pub served: u64,
    /// What it does at the moment.
    pub state: State,
}

impl Service {
    // A service as it is reserved at this clock.
    pub(crate) fn new(reservation: Reservation, clock: u64) -> Service
        ensures { result ≡ new_service reservation clock }
    {
        Service {
            reservation,
            remaining: 0,
            deadline: clock,
            served: 0,
            state: State::Empty,
        }
    }
}

// The table of services, by number.
pub(crate) type Services = Table<Service, SERVICES>;

impl Services {
    // The shares of all services, added up.
    pub(crate) fn shares(&self) -> u64
        ensures value { result ≡ shares_of self.now }
        ensures bound { result ≤ 2 ^ 32 * full_share * service_places }
    {
        let mut sum = 0;
        // A loop, as the project asks for here.
        for held in &self.records {
            if let Some(service) = held {
                sum += service.reservation.share();
            }
        }
        sum
    }
}
