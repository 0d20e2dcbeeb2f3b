//! Tests of the records and of the listing of a log.

#![tactic(auto)]

#[cfg(test)]
mod listings;
#[cfg(test)]
mod reading;
#[cfg(test)]
mod writing;
