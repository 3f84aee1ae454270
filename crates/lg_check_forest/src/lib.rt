//! Tests of prunings, of the packed forest and of the ranked listing: what is known, and what a slow body that is the definition gives.
#![tactic(auto)]

#[cfg(test)]
mod fewest;
#[cfg(test)]
mod forest;
#[cfg(test)]
mod memo;
#[cfg(test)]
mod narrowed;
#[cfg(test)]
mod problems;
#[cfg(test)]
mod pruned;
#[cfg(test)]
mod ranked;
#[cfg(test)]
mod reached;
#[cfg(test)]
mod sharpened;
#[cfg(test)]
mod workers;
