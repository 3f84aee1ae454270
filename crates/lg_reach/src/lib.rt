//! Formulas without the choices whose links would end where no partner can stand.
//!
//! The links of a list end one behind the other, so that a connector's links are longer than those of the connectors before it. A walk through a
//! formula from near to far carries how long the next link is at least, and looks for the nearest word that has a partner from there on, which has
//! to reach back as far. What one walk learns the next one uses.
#![tactic(auto)]

mod formulas;
mod known;
mod nearest;
mod rounds;
mod site;
mod walk;
mod words;

pub use rounds::within_reach;
