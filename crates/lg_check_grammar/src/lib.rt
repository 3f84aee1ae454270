//! Tests of the grammar, the slow lister and post-processing: outside values, and calls that succeed.
#![tactic(auto)]

#[cfg(test)]
mod gram;
#[cfg(test)]
mod linkages;
#[cfg(test)]
mod pp;
#[cfg(test)]
mod rules;
