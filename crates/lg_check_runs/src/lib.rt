//! Tests of whole runs: pages and documents, looks, what is refused, cut texts, limits and faults; and of streams and a folder that tell
//! what comes to them and what they hold.
#![tactic(auto)]

#[cfg(test)]
mod run;
#[cfg(test)]
mod told;
