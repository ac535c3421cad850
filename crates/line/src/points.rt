//! Points: one meter each, enrolled with a service.
ghost use Rattle.std.specs.Prelude.{◌≡◌};
ghost use Rattle.line.specs.Points.{new_point, asking as with_job, point_record};

use crate::tables::Table;

/// Points are numbered 0 to 255.
pub const POINTS: usize = 256;

// What a line keeps of a point.
#[derive(Clone, Copy)]
pub(crate) struct Point {
    pub(crate) service: u32,
    pub(crate) threshold: i32,
    // Of its latest job; none until its first job has ended.
    pub(crate) result: Option<i32>,
    // The stretch of its next job, and of the job that waits.
    pub(crate) stretch: u32,
    // The place of its waiting job in the order of requests.
    pub(crate) job: Option<u64>,
}

/// What the question tells of a point.
#[derive(Clone, Copy, PartialEq, Eq, Debug)]
pub struct PointRecord {
    /// The service that it belongs to.
    pub service: u32,
    /// The number by which its judge decides.
    pub threshold: i32,
    /// Of its latest job; none until its first job has ended.
    pub result: Option<i32>,
    /// The stretch of its next job.
    pub stretch: u32,
    /// Whether its job waits.
    pub waiting: bool,
}

impl Point {
    // A point as it is enrolled. Service and threshold are two arguments, as in the call that enrols it.
    pub(crate) fn new(service: u32, threshold: i32) -> Point
        ensures { result ≡ new_point service threshold }
    {
        Point {
            service,
            threshold,
            result: None,
            stretch: 1,
            job: None,
        }
    }

    // The point with its job in this place in the order of requests.
    pub(crate) fn asking(self, order: u64) -> Point
        ensures { result ≡ with_job self order }
    {
        Point {
            job: Some(order),
            ..self
        }
    }
}

impl From<Point> for PointRecord {
    ghost from_gives = { λ point told. told ≡ point_record point };

    fn from(point: Point) -> PointRecord {
        PointRecord {
            service: point.service,
            threshold: point.threshold,
            result: point.result,
            stretch: point.stretch,
            waiting: point.job.is_some(),
        }
    }
}

// The table of points, by number.
pub(crate) type Points = Table<Point, POINTS>;
