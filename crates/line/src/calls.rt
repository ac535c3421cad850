//! The calls on a line. Each is served in every state and for every number, or refused with the line left as it was.
//! The clause `same` of a question says what its & says already, and `judge` and `refused` stand on each call that changes a line: the
//! project wants each call to say what it leaves.
ghost use Rattle.std.specs.Prelude.{◌≡◌, ◌≤◌, OnOk, OnErr};
ghost use Rattle.std.specs.Result.{result_err};
ghost use Rattle.line.specs.Borders.{Borders};
ghost use Rattle.line.specs.Bounds.{full_share, clock_end};
ghost use Rattle.line.specs.Calls.{fresh, reserve_answer, after_reserve, enrol_answer, after_enrol, request_answer, after_request, who_answer, service_answer, point_answer, reserve_rows, enrol_rows, request_rows, service_rows, point_rows};
ghost use Rattle.line.specs.Laws.{Reserves, Enrols, Requests, Named, Stands, Belongs, Stretched};
ghost use Rattle.line.specs.Refusals.{Smallest};
ghost use Rattle.line.specs.Services.{shares_of};

use crate::lines::Line;
use crate::points::PointRecord;
use crate::refusals::Refusal;
use crate::schedule::Schedule;
use crate::services::{Reservation, Service};
use judge::Judge;

impl<J: Judge> Line<J> {
    /// A line at clock 0 with no unused slot, no service and no point.
    #[tactic(auto, using(crate::proofs::Bordered::borders, crate::proofs::Soundness::fresh_sound))]
    pub fn new(judge: J) -> Line<J>
        ensures after { result.schedule ≡ fresh }
        ensures judge { result.judge ≡ judge }
        ensures borders { Borders }
    {
        Line {
            judge,
            schedule: Schedule::new(),
        }
    }

    // The number stays beside what is asked: it says where the one value goes, and is no part of it.
    /// Adds a service, which reserves what is asked: a budget of slots in every period, with jobs stretched up to so many times.
    #[tactic(auto, using(crate::proofs::Told::reserve_told, crate::proofs::Told::reserve_smallest))]
    pub fn reserve(&mut self, number: u32, asked: Reservation) -> Result<(), Refusal>
        ensures answer { result ≡ reserve_answer self.old.schedule number asked }
        ensures after { self.new.schedule ≡ after_reserve self.old.schedule number asked }
        ensures judge { self.new.judge ≡ self.old.judge }
        ensures refused { OnErr result (self.new.schedule ≡ self.old.schedule) }
        ensures told { OnOk result (Reserves self.old.schedule self.new.schedule number asked) }
        ensures smallest { Smallest (reserve_rows self.old.schedule number asked) (result_err result) }
    {
        self.schedule.reserve(number, asked)
    }

    // Service and threshold are two arguments: whether a point can be enrolled is a question of the service alone.
    /// Adds a point, one meter, to a service.
    #[tactic(auto, using(crate::proofs::Soundness::enrol_sound, crate::proofs::Told::enrol_smallest))]
    pub fn enrol(&mut self, point: u32, service: u32, threshold: i32) -> Result<(), Refusal>
        ensures answer { result ≡ enrol_answer self.old.schedule point service }
        ensures after { self.new.schedule ≡ after_enrol self.old.schedule point service threshold }
        ensures judge { self.new.judge ≡ self.old.judge }
        ensures refused { OnErr result (self.new.schedule ≡ self.old.schedule) }
        ensures told { OnOk result (Enrols self.old.schedule self.new.schedule point service threshold) }
        ensures smallest { Smallest (enrol_rows self.old.schedule point service) (result_err result) }
    {
        self.schedule.enrol(point, service, threshold)
    }

    /// Adds a job of this point to those waiting, with the stretch that the point has now.
    #[tactic(auto, using(crate::proofs::Told::request_told, crate::proofs::Told::request_smallest))]
    pub fn request(&mut self, point: u32) -> Result<(), Refusal>
        ensures answer { result ≡ request_answer self.old.schedule point }
        ensures after { self.new.schedule ≡ after_request self.old.schedule point }
        ensures judge { self.new.judge ≡ self.old.judge }
        ensures refused { OnErr result (self.new.schedule ≡ self.old.schedule) }
        ensures told { OnOk result (Requests self.old.schedule self.new.schedule point) }
        ensures smallest { Smallest (request_rows self.old.schedule point) (result_err result) }
    {
        self.schedule.request(point)
    }

    /// The service and the point that the next slot runs, or nobody.
    #[tactic(auto, using(crate::proofs::Named::named))]
    pub fn who(&self) -> Option<(u32, u32)>
        ensures answer { result ≡ who_answer self.now.schedule }
        ensures same { self.exit.now ≡ self.entry.now }
        ensures first { Named self.now.schedule result }
    {
        self.schedule.who()
    }

    /// The record of a service.
    #[tactic(auto, using(crate::proofs::Standing::stands))]
    pub fn service(&self, number: u32) -> Result<Service, Refusal>
        ensures answer { result ≡ service_answer self.now.schedule number }
        ensures same { self.exit.now ≡ self.entry.now }
        ensures stands { Stands self.now.schedule number result }
        ensures smallest { Smallest (service_rows self.now.schedule number) (result_err result) }
    {
        self.schedule.service(number)
    }

    /// The record of a point.
    #[tactic(auto, using(crate::proofs::Told::point_belongs, crate::proofs::Told::point_stretched))]
    pub fn point(&self, number: u32) -> Result<PointRecord, Refusal>
        ensures answer { result ≡ point_answer self.now.schedule number }
        ensures same { self.exit.now ≡ self.entry.now }
        ensures belongs { Belongs self.now.schedule result }
        ensures stretched { Stretched self.now.schedule result }
        ensures smallest { Smallest (point_rows self.now.schedule number) (result_err result) }
    {
        self.schedule.point(number)
    }

    /// The slots so far.
    pub fn clock(&self) -> u64
        ensures answer { result ≡ self.now.schedule.clock }
        ensures same { self.exit.now ≡ self.entry.now }
        ensures bound { result ≤ clock_end }
    {
        self.schedule.clock
    }

    /// The slots in which no service ran.
    pub fn unused(&self) -> u64
        ensures answer { result ≡ self.now.schedule.unused }
        ensures same { self.exit.now ≡ self.entry.now }
    {
        self.schedule.unused
    }

    /// The sum of the shares of all services.
    pub fn shares(&self) -> u32
        ensures answer { result ≡ shares_of self.now.schedule.services }
        ensures same { self.exit.now ≡ self.entry.now }
        ensures bound { result ≤ full_share }
    {
        self.schedule.services.shares() as u32
    }
}
