//! The shared line of a block's meters.
//! `Line` takes reservations of services, enrolments of points and requests of jobs, refuses what does not fit, names whom the next
//! slot runs, and answers questions.
#![tactic(auto)]

mod calls;
mod events;
#[cfg(test)]
mod examples;
mod jobs;
mod lines;
mod points;
mod refusals;
mod schedule;
mod services;
mod tables;
mod turns;

pub use lines::Line;
pub use points::{POINTS, PointRecord};
pub use refusals::Refusal;
pub use services::{FULL_SHARE, Reservation, SERVICES, STRETCH_LIMIT, Service, State};
