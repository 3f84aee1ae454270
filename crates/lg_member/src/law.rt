//! Laws of members, each the contract of a function without a body.
ghost use Rattle.lg_member.specs.Laws.{MembersGoByRounds, RowsAreProblems};

/// Of the members of a problem those that a test keeps, by position, are a problem: each disjunct stands in it where a member that is
/// left has it. The function does nothing: a caller whose proof needs the fact calls it.
pub fn rows_are_problems()
    ensures { RowsAreProblems }
{}

/// Members that are left after one round and then another are left after both as one, and all are left after none.
pub fn members_go_by_rounds()
    ensures { MembersGoByRounds }
{}
