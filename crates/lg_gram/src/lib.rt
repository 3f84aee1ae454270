//! The grammar's own values: connectors, formulas, disjuncts, problems and linkages, with their measures and orders.
#![tactic(auto)]

pub mod connector;
pub mod disjunct;
pub mod edit;
pub mod entry;
pub mod expr;
pub mod formula;
pub mod label;
pub mod law;
pub mod linkage;
pub mod listing;
pub mod macros;
pub mod measures;
pub mod order;
pub mod ordered;
pub mod problem;
pub mod reply;
pub mod shared;
pub mod sizes;

pub use connector::{Connector, link_label, matches};
pub use disjunct::{Chosen, Disjunct, Disjuncts, Positions, side};
pub use edit::EditRefusal;
pub use entry::{Entry, Item, ItemKind, Items, RawEntry, RawExpr, RawExprs};
pub use expr::{Expr, Exprs};
pub use formula::Formula;
pub use label::{Label, capitals};
pub use linkage::{Link, Linkage, Links};
pub use listing::{Bound, Page, PageItem, PageItems, Stats, Token, Tokens, Violation};
pub use macros::Macros;
pub use measures::{Excess, filled_formula, first_excess};
pub use ordered::in_order;
pub use problem::Problem;
pub use reply::{CommandKind, Place, Places, Replies, Reply};
pub use shared::{Connectors, Word};
pub use sizes::{choices, longest_side, nodes};
