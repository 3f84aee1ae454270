//! What the statements of a knowledge text say, gathered one by one.

ghost use Rattle.std.specs.Prelude.{◌≡◌, IfOk};
ghost use Rattle.lg_knowread.specs.Statements.{starts, ignores};
ghost use Rattle.lg_knowread.specs.Automaton.{nothing, with_statement, ruled};

use crate::knowledge::{Knowledge, Patterns, Rule, Rules, Start, Starts};
use lg_base::NoMemory;
use std::alloc::Global;

impl Knowledge {
    /// Of no statement.
    pub(crate) fn new(alloc: Global) -> Knowledge
        ensures { result ≡ nothing }
    {
        Knowledge {
            starts: Starts::of(Vec::new(alloc)),
            ignored: Patterns::of(Vec::new(alloc)),
            rules: Rules::of(Vec::new(alloc)),
        }
    }

    /// With domains of this kind, which links start that match one of the patterns.
    pub(crate) fn with_starts(self, kind: u8, patterns: Patterns) -> Result<Knowledge, NoMemory>
        ensures { IfOk result (λ k. k ≡ with_statement self (starts kind patterns)) }
    {
        let mut starts = self.starts.into_items();
        for pattern in patterns.into_items() {
            starts.push(Start { kind, pattern })?;
        }
        Ok(Knowledge {
            starts: Starts::of(starts),
            ignored: self.ignored,
            rules: self.rules,
        })
    }

    /// With more links that are ignored.
    pub(crate) fn with_ignored(self, patterns: Patterns) -> Result<Knowledge, NoMemory>
        ensures { IfOk result (λ k. k ≡ with_statement self (ignores patterns)) }
    {
        let mut ignored = self.ignored.into_items();
        ignored.append(&mut patterns.into_items())?;
        Ok(Knowledge {
            starts: self.starts,
            ignored: Patterns::of(ignored),
            rules: self.rules,
        })
    }

    /// With one more rule.
    pub(crate) fn with_rule(self, rule: Rule) -> Result<Knowledge, NoMemory>
        ensures { IfOk result (λ k. k ≡ with_statement self (ruled rule)) }
    {
        let mut rules = self.rules.into_items();
        rules.push(rule)?;
        Ok(Knowledge {
            starts: self.starts,
            ignored: self.ignored,
            rules: Rules::of(rules),
        })
    }
}
