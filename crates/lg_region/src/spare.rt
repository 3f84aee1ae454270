//! Vectors that are used again.
use crate::group::{Group, Right};
use crate::opening::Beginning;
use std::alloc::Global;
use std::marker::Model;

/// Vectors that a walk through regions is done with, to be used again: it needs some for each region that it is in, and these lie as deep
/// as they are needed. What they have is of no meaning.
///
/// Contracts see nothing of them.
#[derive(Drop)]
pub struct Spare {
    groups: Vec<Vec<Group>>,
    begins: Vec<Vec<Beginning>>,
    rights: Vec<Vec<Right>>,
}

impl Model for Spare {
    ghost Value = { Unit {0} };

    ghost view = { λ s. tt };
}

impl Spare {
    /// No vectors. No memory.
    pub fn new(alloc: Global) -> Spare {
        Spare {
            groups: Vec::new(alloc),
            begins: Vec::new(alloc),
            rights: Vec::new(alloc),
        }
    }

    /// A vector for groups. No memory.
    pub fn take_groups(&mut self, alloc: Global) -> Vec<Group> {
        self.groups.pop().unwrap_or(Vec::new(alloc))
    }

    /// Keeps the vector, where there is memory for it.
    pub fn keep_groups(&mut self, groups: Vec<Group>) {
        let _kept = self.groups.push(groups);
    }

    /// A vector for beginnings. No memory.
    pub fn take_begins(&mut self, alloc: Global) -> Vec<Beginning> {
        self.begins.pop().unwrap_or(Vec::new(alloc))
    }

    /// Keeps the vector, where there is memory for it.
    pub fn keep_begins(&mut self, begins: Vec<Beginning>) {
        let _kept = self.begins.push(begins);
    }

    /// A vector for disjuncts with their ways on. No memory.
    pub fn take_rights(&mut self, alloc: Global) -> Vec<Right> {
        self.rights.pop().unwrap_or(Vec::new(alloc))
    }

    /// Keeps the vector, where there is memory for it.
    pub fn keep_rights(&mut self, rights: Vec<Right>) {
        let _kept = self.rights.push(rights);
    }
}
