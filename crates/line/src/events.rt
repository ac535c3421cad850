//! What happens to a service: with its state it gives the next one.
//! That moments are small stands in the contracts: the project keeps the records plain, without an invariant.
ghost use Rattle.std.specs.Prelude.{◌≡◌, ◌+◌, ◌*◌, ◌^◌, ◌<◌, ◌≤◌, length};
ghost use Rattle.std.specs.Option.{ForSome};
ghost use Rattle.line.specs.Bounds.{clock_end, deadline_end};
ghost use Rattle.line.specs.Events.{InTime, with_event, replenished, in_state, wait_of, started, starts_anew, after_event};
ghost use Rattle.line.specs.Tables.{record_at};

use crate::services::{Reservation, Service, Services, State};

// An event at a service, with the stretch of the job that comes, or of the head.
#[derive(Clone, Copy)]
pub(crate) enum Event {
    // A job joins those waiting.
    Request(u32),
    // The last of the budget is used, and a job still waits.
    Exhaustion(u32),
    // The wake moment has come.
    WakeUp(u32),
}

impl Reservation {
    // The length of so many periods, which leaves room for a moment before it.
    fn periods(self, stretch: u32) -> u64
        ensures value { result ≡ stretch * self.period }
        ensures bound { result + 2 ^ 32 < 2 ^ 64 }
    {
        stretch as u64 * self.period as u64
    }
}

impl Service {
    // The service's own state and the event together give its next state: one match, as the project asks for here.
    // The clock stays beside the event: of the four steps below two want the stretch or the clock alone.
    pub(crate) fn on(&mut self, event: Event, clock: u64)
        requires { InTime self.old clock }
        ensures { self.new ≡ after_event self.old event clock }
    {
        match (self.state, event) {
            (State::Empty, Event::Request(stretch)) => self.start(stretch, clock),
            (State::LongWait(wake), Event::Request(1)) => {
                self.state = State::ShortWait(wake.min(clock + self.reservation.period as u64));
            }
            (State::Active, Event::Exhaustion(stretch)) => self.wait(stretch),
            (State::ShortWait(_) | State::LongWait(_), Event::WakeUp(stretch)) => {
                self.replenish(stretch, clock)
            }
            (State::Active | State::ShortWait(_) | State::LongWait(_), Event::Request(_))
            | (State::Empty | State::ShortWait(_) | State::LongWait(_), Event::Exhaustion(_))
            | (State::Empty | State::Active, Event::WakeUp(_)) => {}
        }
    }

    // A job comes to an empty service.
    fn start(&mut self, stretch: u32, clock: u64)
        requires { InTime self.old clock }
        ensures { self.new ≡ started self.old stretch clock }
    {
        if self.starts_anew(clock) {
            self.replenish(stretch, clock)
        } else if self.remaining > 0 {
            self.state = State::Active;
        } else {
            self.wait(stretch)
        }
    }

    // Whether a job that comes now finds the deadline past, or left of the budget at least the share of the time to it.
    fn starts_anew(&self, clock: u64) -> bool
        requires { self.now.deadline ≤ deadline_end }
        ensures { result ≡ starts_anew self.now clock }
    {
        if self.deadline <= clock {
            return true;
        }
        let ahead = (self.deadline - clock) as u32;
        let Reservation { budget, period, .. } = self.reservation;
        budget as u64 * ahead as u64 <= self.remaining as u64 * period as u64
    }

    fn replenish(&mut self, stretch: u32, clock: u64)
        requires { clock ≤ clock_end }
        ensures { self.new ≡ replenished self.old stretch clock }
    {
        self.remaining = self.reservation.budget;
        self.deadline = clock + self.reservation.periods(stretch);
        self.state = State::Active;
    }

    // Out of budget, up to the deadline or, with a stretched head, so many periods longer.
    fn wait(&mut self, stretch: u32)
        requires { self.old.deadline ≤ deadline_end }
        ensures { self.new ≡ in_state self.old (wait_of self.old stretch) }
    {
        self.state = if stretch == 1 {
            State::ShortWait(self.deadline)
        } else {
            State::LongWait(self.deadline + self.reservation.periods(stretch))
        };
    }
}

impl Services {
    // An event at one service, whose record is lent and changed in its place. The clock stays beside the event, as above.
    pub(crate) fn on(&mut self, number: u32, event: Event, clock: u64)
        requires inside { number < length self.old.records }
        requires room { ForSome (record_at self.old number) (λ service. InTime service clock) }
        ensures { self.new ≡ with_event self.old number event clock }
    {
        // An index is plainer than `get_mut`, which would pass over a number past the end and wants a proof by hand.
        if let Some(service) = &mut self.records[number as usize] {
            service.on(event, clock)
        }
    }
}
