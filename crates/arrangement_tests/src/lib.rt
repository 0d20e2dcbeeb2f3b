//! Tests of arrangements: by numbers, by pairings, by a pair laid over another, and with their classes beside them.

#![tactic(auto)]

#[cfg(test)]
mod assigned;
#[cfg(test)]
mod classed;
#[cfg(test)]
mod groups;
#[cfg(test)]
mod joined;
#[cfg(test)]
mod paired_limits;
#[cfg(test)]
mod paired_names;
#[cfg(test)]
mod paired_why;
