//! Tests of the crates that read and write texts, and of what they stand on: outside values, and calls that succeed.
#![tactic(auto)]

#[cfg(test)]
mod base;
#[cfg(test)]
mod diagram;
#[cfg(test)]
mod dictread;
#[cfg(test)]
mod expr;
#[cfg(test)]
mod knowread;
#[cfg(test)]
mod lex;
#[cfg(test)]
mod script;
#[cfg(test)]
mod text;
