//! Tests of tokens, of idioms and of disjuncts: outside values, and calls that succeed.
#![tactic(auto)]

#[cfg(test)]
mod disj;
#[cfg(test)]
mod idiom;
#[cfg(test)]
mod token;
