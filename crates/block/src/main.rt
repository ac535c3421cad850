//! Plays one housing block: admits its plan to the line, requests jobs of every service, and prints each call with its outcome
//! and whom the next slot would run, then why, the sum of shares and every record.
#![tactic(auto)]

mod calls;
mod outcomes;
mod plan;

use calls::Block;
use judge::Threshold;
use plan::{ENROLMENTS, REQUESTS, RESERVATIONS, STRANGER};
use std::io;

fn main(rt: HostRuntime) -> io::Result<()> {
    let mut block = Block::new(&rt, Threshold);
    for (number, asked) in RESERVATIONS {
        block.reserve(number, asked)?;
    }
    for asked in ENROLMENTS {
        block.enrol(asked)?;
    }
    block.ask_who()?;
    for point in REQUESTS {
        block.request(point)?;
        block.ask_who()?;
    }
    block.tell_why()?;
    block.ask_all()?;
    block.ask_point(STRANGER)
}
