//! Tests of the dictionary and of its edits: outside values, and calls that succeed.
#![tactic(auto)]

#[cfg(test)]
mod dict;
#[cfg(test)]
mod edit;
