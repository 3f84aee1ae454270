//! Tests of listings, of the log, of the core's steps and of sessions: outside values, and calls that succeed.
#![tactic(auto)]

#[cfg(test)]
mod answer;
#[cfg(test)]
mod compounds;
#[cfg(test)]
mod log;
#[cfg(test)]
mod meeting;
#[cfg(test)]
mod session;
#[cfg(test)]
mod steps;
