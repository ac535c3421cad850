//! Tests of the judges, the search for the most urgent and the line at their borders, through public calls alone.
#![tactic(auto)]

#[cfg(test)]
mod judges;
#[cfg(test)]
mod lines;
#[cfg(test)]
mod plans;
#[cfg(test)]
mod requests;
#[cfg(test)]
mod steady;
#[cfg(test)]
mod texts;
#[cfg(test)]
mod urgent;
