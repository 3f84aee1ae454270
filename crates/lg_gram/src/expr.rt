//! Expressions of connectors.
ghost use Rattle.std.specs.Prelude.{◌≡◌, IfOk};
ghost use Rattle.lg_gram.specs.Trees.{tree_of, trees_in, expr_items};

use crate::connector::Connector;
use lg_base::{Cost, NoMemory};
use std::alloc::Global;

/// An expression of a dictionary. `{e}` is `Or` of `Empty` and `e`.
///
/// Contracts see its tree, since where an expression lies in memory is no part of it.
#[cycle(expr)]
#[derive(Debug, Drop)]
pub enum Expr {
    /// `()`
    Empty,
    Conn(Connector),
    /// Members joined by `&`.
    And(Exprs),
    /// Members joined by `or`.
    Or(Exprs),
    /// An expression in square brackets, with their cost.
    Priced(Box<Expr>, Cost),
}

/// A list of expressions.
#[cycle(expr)]
#[derive(Debug, Drop)]
pub struct Exprs {
    items: Vec<Expr>,
}

impl Exprs {
    /// The list of these expressions.
    pub fn of(items: Vec<Expr>) -> Exprs
        ensures { expr_items result ≡ items.items }
    {
        Exprs { items }
    }

    /// The expressions.
    pub fn items(&self) -> &[Expr]
        ensures { result.now ≡ expr_items self.now }
    {
        self.items.as_slice()
    }

    /// The expressions, as a vector.
    pub fn into_items(self) -> Vec<Expr>
        ensures { result.items ≡ expr_items self }
    {
        let Exprs { items } = self;
        items
    }
}

impl Expr {
    /// A copy: an expression of the same tree.
    #[cycle(copy)]
    pub fn copied(&self, alloc: Global) -> Result<Expr, NoMemory>
        ensures { IfOk result (λ copy. tree_of copy ≡ tree_of self.now) }
    {
        match self {
            Expr::Empty => Ok(Expr::Empty),
            Expr::Conn(c) => Ok(Expr::Conn(*c)),
            Expr::And(members) => Ok(Expr::And(members.copied(alloc)?)),
            Expr::Or(members) => Ok(Expr::Or(members.copied(alloc)?)),
            Expr::Priced(inner, cost) => {
                let inside = inner.copied(alloc)?;
                Ok(Expr::Priced(Box::new(alloc, inside)?, *cost))
            }
        }
    }
}

impl Exprs {
    /// A copy: expressions of the same trees.
    #[cycle(copy)]
    pub fn copied(&self, alloc: Global) -> Result<Exprs, NoMemory>
        ensures { IfOk result (λ copy. trees_in (expr_items copy) ≡ trees_in (expr_items self.now)) }
    {
        let mut copies = Vec::with_capacity(alloc, self.items().len())?;
        for member in self.items() {
            copies.push(member.copied(alloc)?)?;
        }
        Ok(Exprs::of(copies))
    }
}
