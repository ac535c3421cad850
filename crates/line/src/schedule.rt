//! All that a line keeps but its judge. The line around it holds the facts that every call keeps.
//! A look-up is given the refusal of a number past its table, so that a call shows its refusals in their order.
//! A service's number stays beside what it reserves, since it says where the one value goes; a point's service and threshold stay two
//! arguments, since whether it can be enrolled is a question of the service alone.
ghost use Rattle.std.specs.Prelude.{◌≡◌};
ghost use Rattle.line.specs.Calls.{fresh, reserve_answer, after_reserve, enrol_answer, after_enrol, request_answer, after_request, who_answer, service_answer, point_answer};
ghost use Rattle.line.specs.Sound.{Sound};

use crate::events::Event;
use crate::jobs::Jobs;
use crate::points::{POINTS, Point, PointRecord, Points};
use crate::refusals::Refusal;
use crate::services::{FULL_SHARE, Reservation, SERVICES, STRETCH_LIMIT, Service, Services};
use crate::tables::Table;
use urgency::most_urgent;

#[derive(Drop)]
pub(crate) struct Schedule {
    // Slots so far, at most 4,000,000,000.
    pub(crate) clock: u64,
    // Slots in which no service ran.
    pub(crate) unused: u64,
    // Requests so far, which number the jobs in their order.
    pub(crate) requests: u64,
    pub(crate) services: Services,
    pub(crate) points: Points,
}

impl Schedule {
    pub(crate) fn new() -> Schedule
        ensures { result ≡ fresh }
    {
        Schedule {
            clock: 0,
            unused: 0,
            requests: 0,
            services: Table::new(),
            points: Table::new(),
        }
    }

    // Whether a service can be reserved, or the first refusal that applies.
    fn may_reserve(&self, number: u32, asked: Reservation) -> Result<(), Refusal>
        ensures { result ≡ reserve_answer self.now number asked }
    {
        let taken = self.services.place(number, Refusal::NoSuchService)?;
        if taken.is_some() {
            return Err(Refusal::ServiceTaken);
        }
        let Reservation {
            budget,
            period,
            max_stretch,
        } = asked;
        if period == 0 || FULL_SHARE % period != 0 {
            return Err(Refusal::BadPeriod);
        }
        if budget == 0 || budget > period {
            return Err(Refusal::BadBudget);
        }
        if max_stretch == 0 || max_stretch > STRETCH_LIMIT {
            return Err(Refusal::BadStretch);
        }
        if self.services.shares() + asked.share() > FULL_SHARE as u64 {
            return Err(Refusal::LineFull);
        }
        Ok(())
    }

    pub(crate) fn reserve(&mut self, number: u32, asked: Reservation) -> Result<(), Refusal>
        ensures answer { result ≡ reserve_answer self.old number asked }
        ensures after { self.new ≡ after_reserve self.old number asked }
    {
        self.may_reserve(number, asked)?;
        self.services.put(number, Service::new(asked, self.clock));
        Ok(())
    }

    // Whether a point can be enrolled, or the first refusal that applies.
    fn may_enrol(&self, point: u32, service: u32) -> Result<(), Refusal>
        ensures { result ≡ enrol_answer self.now point service }
    {
        let known = self.services.place(service, Refusal::NoSuchService)?;
        let taken = self.points.place(point, Refusal::NoSuchPoint)?;
        if known.is_none() {
            return Err(Refusal::ServiceUnknown);
        }
        if taken.is_some() {
            return Err(Refusal::PointTaken);
        }
        Ok(())
    }

    pub(crate) fn enrol(&mut self, point: u32, service: u32, threshold: i32) -> Result<(), Refusal>
        ensures answer { result ≡ enrol_answer self.old point service }
        ensures after { self.new ≡ after_enrol self.old point service threshold }
    {
        self.may_enrol(point, service)?;
        self.points.put(point, Point::new(service, threshold));
        Ok(())
    }

    // What every line keeps is asked for here: the project wants the struct within the line plain, without an invariant.
    #[tactic(auto, using(crate::proofs::Requested::requests_bound, crate::proofs::Requested::service_inside, crate::proofs::Requested::request_room))]
    pub(crate) fn request(&mut self, number: u32) -> Result<(), Refusal>
        requires { Sound self.old }
        ensures answer { result ≡ request_answer self.old number }
        ensures after { self.new ≡ after_request self.old number }
    {
        let found = self.points.place(number, Refusal::NoSuchPoint)?;
        let point = found.ok_or(Refusal::PointUnknown)?;
        if point.job.is_some() {
            return Err(Refusal::StillWaiting);
        }
        self.points.put(number, point.asking(self.requests));
        self.requests += 1;
        self.services
            .on(point.service, Event::Request(point.stretch), self.clock);
        Ok(())
    }

    pub(crate) fn who(&self) -> Option<(u32, u32)>
        ensures { result ≡ who_answer self.now }
    {
        let turn = most_urgent(&self.services, SERVICES as u32)?;
        let jobs = Jobs {
            points: &self.points,
            service: turn.number,
        };
        let head = most_urgent(&jobs, POINTS as u32)?;
        Some((turn.number, head.point))
    }

    pub(crate) fn service(&self, number: u32) -> Result<Service, Refusal>
        ensures { result ≡ service_answer self.now number }
    {
        let found = self.services.place(number, Refusal::NoSuchService)?;
        found.ok_or(Refusal::ServiceUnknown)
    }

    pub(crate) fn point(&self, number: u32) -> Result<PointRecord, Refusal>
        ensures { result ≡ point_answer self.now number }
    {
        let found = self.points.place(number, Refusal::NoSuchPoint)?;
        found.map(PointRecord::from).ok_or(Refusal::PointUnknown)
    }
}
