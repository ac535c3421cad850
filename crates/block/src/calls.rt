//! Each call on the line of the block, printed with its outcome.
// That a question leaves the block as it was is said though its & says it too: the project wants each call to say what it leaves.
ghost use Rattle.std.specs.Prelude.{◌≡◌};
ghost use Rattle.line.specs.Calls.{after_reserve, after_enrol, after_request, fresh};

use crate::outcomes::Outcome;
use crate::plan::Enrolment;
use judge::Judge;
use line::{FULL_SHARE, Line, POINTS, PointRecord, Reservation, SERVICES, Service, State};
use std::io;

// The line of a block, and where its calls are printed.
#[derive(Drop)]
pub(crate) struct Block<'a, R: Print, J: Judge> {
    rt: &'a R,
    line: Line<J>,
}

impl<'a, R: Print, J: Judge> Block<'a, R, J> {
    pub(crate) fn new(rt: &'a R, judge: J) -> Block<'a, R, J>
        ensures after { result.line.schedule ≡ fresh }
        ensures judge { result.line.judge ≡ judge }
    {
        Block {
            rt,
            line: Line::new(judge),
        }
    }

    // The number stays beside what is asked: it says where the one value goes, and is no part of it.
    pub(crate) fn reserve(&mut self, number: u32, asked: Reservation) -> io::Result<()>
        ensures after { self.new.line.schedule ≡ after_reserve self.old.line.schedule number asked }
        ensures judge { self.new.line.judge ≡ self.old.line.judge }
        ensures printer { self.new.rt.now ≡ self.old.rt.now }
    {
        let outcome = Outcome(self.line.reserve(number, asked));
        let Reservation {
            budget,
            period,
            max_stretch,
        } = asked;
        println!(self.rt;
            "reserve {number}: {budget} in {period}, stretch up to {max_stretch}: {outcome}"
        )
    }

    pub(crate) fn enrol(&mut self, asked: Enrolment) -> io::Result<()>
        ensures after { self.new.line.schedule ≡ after_enrol self.old.line.schedule asked.point asked.service asked.threshold }
        ensures judge { self.new.line.judge ≡ self.old.line.judge }
        ensures printer { self.new.rt.now ≡ self.old.rt.now }
    {
        let Enrolment {
            point,
            service,
            threshold,
        } = asked;
        let outcome = Outcome(self.line.enrol(point, service, threshold));
        println!(self.rt; "enrol {point}: service {service}, threshold {threshold}: {outcome}")
    }

    pub(crate) fn request(&mut self, point: u32) -> io::Result<()>
        ensures after { self.new.line.schedule ≡ after_request self.old.line.schedule point }
        ensures judge { self.new.line.judge ≡ self.old.line.judge }
        ensures printer { self.new.rt.now ≡ self.old.rt.now }
    {
        let outcome = Outcome(self.line.request(point));
        println!(self.rt; "request {point}: {outcome}")
    }

    pub(crate) fn ask_who(&self) -> io::Result<()>
        ensures { self.exit.now ≡ self.entry.now }
    {
        match self.line.who() {
            Some((service, point)) => println!(self.rt;
                "next slot: service {service}, point {point}"
            ),
            None => println!(self.rt; "next slot: nobody"),
        }
    }

    // Why the next slot is this service's and this point's: the deadlines of all active services, and the service's waiting jobs.
    pub(crate) fn tell_why(&self) -> io::Result<()>
        ensures { self.exit.now ≡ self.entry.now }
    {
        let Some((first, head)) = self.line.who() else {
            return println!(self.rt; "no service is active");
        };
        println!(self.rt; "service {first} has the first deadline:")?;
        self.tell_turns()?;
        println!(self.rt; "point {head} was requested first of the smallest stretch:")?;
        self.tell_jobs(first)
    }

    fn tell_turns(&self) -> io::Result<()>
        ensures { self.exit.now ≡ self.entry.now }
    {
        let turns = (0..SERVICES as u32).filter_map(|number| match self.line.service(number) {
            Ok(
                Service {
                    deadline,
                    state: State::Active,
                    ..
                },
            ) => Some((number, deadline)),
            _ => None,
        });
        for (number, deadline) in turns {
            println!(self.rt; "  service {number} has deadline {deadline}")?;
        }
        Ok(())
    }

    fn tell_jobs(&self, of: u32) -> io::Result<()>
        ensures { self.exit.now ≡ self.entry.now }
    {
        let jobs = (0..POINTS as u32).filter_map(|number| match self.line.point(number) {
            Ok(
                PointRecord {
                    service,
                    stretch,
                    waiting: true,
                    ..
                },
            ) if service == of => Some((number, stretch)),
            _ => None,
        });
        for (number, stretch) in jobs {
            println!(self.rt; "  point {number} waits with stretch {stretch}")?;
        }
        Ok(())
    }

    // The sums, and every record that there is.
    pub(crate) fn ask_all(&self) -> io::Result<()>
        ensures { self.exit.now ≡ self.entry.now }
    {
        let clock = self.line.clock();
        let unused = self.line.unused();
        let shares = self.line.shares();
        println!(self.rt; "clock {clock}, unused {unused}, shares {shares} of {FULL_SHARE}")?;
        let services = (0..SERVICES as u32).filter_map(|number| Some((
            number,
            self.line.service(number).ok()?,
        )));
        for (number, service) in services {
            self.tell_service(number, service)?;
        }
        let points = (0..POINTS as u32).filter_map(|number| Some((
            number,
            self.line.point(number).ok()?,
        )));
        for (number, point) in points {
            self.tell_point(number, point)?;
        }
        Ok(())
    }

    fn tell_service(&self, number: u32, service: Service) -> io::Result<()>
        ensures { self.exit.now ≡ self.entry.now }
    {
        let Reservation {
            budget,
            period,
            max_stretch,
        } = service.reservation;
        println!(self.rt;
            "service {number}: {budget} in {period}, stretch up to {max_stretch}, remaining {}, deadline {}, served {}, {}",
            service.remaining, service.deadline, service.served, service.state
        )
    }

    fn tell_point(&self, number: u32, point: PointRecord) -> io::Result<()>
        ensures { self.exit.now ≡ self.entry.now }
    {
        let PointRecord {
            service,
            threshold,
            stretch,
            ..
        } = point;
        let waiting = if point.waiting { "waiting" } else { "idle" };
        match point.result {
            Some(result) => println!(self.rt;
                "point {number}: service {service}, threshold {threshold}, result {result}, stretch {stretch}, {waiting}"
            ),
            None => println!(self.rt;
                "point {number}: service {service}, threshold {threshold}, no result, stretch {stretch}, {waiting}"
            ),
        }
    }

    pub(crate) fn ask_point(&self, number: u32) -> io::Result<()>
        ensures { self.exit.now ≡ self.entry.now }
    {
        match self.line.point(number) {
            Ok(point) => self.tell_point(number, point),
            Err(refusal) => println!(self.rt; "point {number}: {}", Outcome(Err(refusal))),
        }
    }
}
