//! Formulas: what a dictionary gives each word.
ghost use Rattle.std.specs.Prelude.{◌≡◌, ◌≤◌, MatchOption, IfOk};
ghost use Rattle.lg_gram.specs.Limits.{FORMULA_CHOICES};
ghost use Rattle.lg_gram.specs.Trees.{tree_of};
ghost use Rattle.lg_gram.specs.Measures.{node_count, choice_count, side_count};
ghost use Rattle.lg_gram.specs.Measured.{HasSizes};
ghost use Rattle.lg_gram.specs.Formulas.{IsFormula};

use crate::expr::Expr;
use crate::sizes::{Sizes, are_prices_small, depth, sizes_of};
use lg_base::NoMemory;
use std::alloc::Global;
use std::marker::Model;
use std::sync::Arc;

// The limits of a formula.
pub(crate) const NODES: u64 = 1_000_000;

pub(crate) const CHOICES: u64 = 1_000_000;

pub(crate) const SIDE: u32 = 255;

const DEPTH: u32 = 602;

/// An expression within the limits: at most 1,000,000 nodes, 1,000,000 choices and 255 connectors on a side, no leaf
/// more than 602 steps below the root, and no bracket's cost more than 10,000,000 thousandths from zero.
///
/// Formulas may share their expression, so that as many words as have it hold it once.
#[derive(Debug, Drop)]
pub struct Formula {
    body: Body,
    sizes: Sizes,
}

/// Where the expression of a formula is held.
#[derive(Debug, Drop)]
enum Body {
    /// By this formula alone.
    Own(Expr),
    /// By every formula that shares it.
    Shared(Arc<Expr>),
}

impl Model for Formula {
    ghost use Rattle.lg_gram.specs.declared.expr.Expr.{Expr as Seen};
    ghost use Rattle.std.specs.Prelude.{◌≡◌};
    ghost use Rattle.lg_gram.specs.Trees.{tree_of};
    ghost use Rattle.lg_gram.specs.Measured.{HasSizes};
    ghost use Rattle.lg_gram.specs.Formulas.{IsFormula};
    ghost use Rattle.lg_gram.specs.Bodies.{held_in};

    ghost Value = { Seen };

    ghost use Rattle.lg_gram.specs.contracts.expr.Expr as e;
    ghost use Rattle.std.specs.Coded.{codes};

    ghost coded = { Prim.hlevel (codes, e.the_row.coded) };

    ghost view = { λ f. held_in f.body };

    ghost invariant = { λ f. IsFormula (tree_of (held_in f.body)) × HasSizes (tree_of (held_in f.body)) f.sizes };
}

impl Formula {
    /// The formula of an expression. None where the expression passes a limit.
    pub fn of(expr: Expr) -> Option<Formula>
        ensures { MatchOption result (IsFormula (tree_of expr) → ⊥) (λ f. (f ≡ expr) × IsFormula (tree_of expr)) }
    {
        let sizes = sizes_of(&expr);
        let fits = sizes.nodes <= NODES
            && sizes.choices <= CHOICES
            && sizes.longest_side() <= SIDE
            && depth(&expr) <= DEPTH
            && are_prices_small(&expr);
        if fits {
            let body = Body::Own(expr);
            Some(Formula { body, sizes })
        } else {
            None
        }
    }

    /// The formula of an expression that is known to be within the limits.
    pub fn of_small(expr: Expr) -> Formula
        requires { IsFormula (tree_of expr) }
        ensures { result ≡ expr }
    {
        let sizes = sizes_of(&expr);
        Formula::of_measured(expr, sizes)
    }

    // The formula of an expression that is known to be within the limits, and of which these are the sizes.
    pub(crate) fn of_measured(expr: Expr, sizes: Sizes) -> Formula
        requires small { IsFormula (tree_of expr) }
        requires sizes { HasSizes (tree_of expr) sizes }
        ensures { result ≡ expr }
    {
        let body = Body::Own(expr);
        Formula { body, sizes }
    }

    /// The expression.
    pub fn expr(&self) -> &Expr
        ensures value { result.now ≡ self.now }
        ensures limits { IsFormula (tree_of self.now) }
    {
        match &self.body {
            Body::Own(expr) => expr,
            Body::Shared(expr) => expr,
        }
    }

    /// How many nodes the expression has. The time is constant.
    pub fn nodes(&self) -> u64
        ensures { result ≡ node_count (tree_of self.now) }
    {
        self.sizes.nodes
    }

    /// How many choices the expression has. The time is constant.
    pub fn choices(&self) -> u64
        ensures value { result ≡ choice_count (tree_of self.now) }
        ensures few { result ≤ FORMULA_CHOICES }
    {
        self.sizes.choices
    }

    /// How many connectors the expression has on a side, `true` the right, where it has the most. The time is constant.
    pub fn side(&self, right: bool) -> u32
        ensures { result ≡ side_count right (tree_of self.now) }
    {
        self.sizes.side(right)
    }

    // The sizes of the expression.
    pub(crate) fn sizes(&self) -> Sizes
        ensures { HasSizes (tree_of self.now) result }
    {
        self.sizes
    }

    /// The same formula, whose copies share its expression with it and take a constant time.
    pub fn shared(self, alloc: Global) -> Result<Formula, NoMemory>
        ensures { IfOk result (λ shared. shared ≡ self) }
    {
        let sizes = self.sizes;
        let shared = match self.body {
            Body::Own(expr) => Arc::new(alloc, expr)?,
            Body::Shared(expr) => expr,
        };
        Ok(Formula {
            body: Body::Shared(shared),
            sizes,
        })
    }

    /// A copy: a formula of the same tree.
    pub fn copied(&self, alloc: Global) -> Result<Formula, NoMemory>
        ensures { IfOk result (λ copy. tree_of copy ≡ tree_of self.now) }
    {
        let body = match &self.body {
            Body::Own(expr) => Body::Own(expr.copied(alloc)?),
            Body::Shared(expr) => Body::Shared(Arc::try_clone(expr)?),
        };
        Ok(Formula {
            body,
            sizes: self.sizes,
        })
    }
}
