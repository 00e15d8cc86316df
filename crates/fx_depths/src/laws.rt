//! Laws of the definitions, each the contract of a function that does nothing.
ghost use Rattle.fx_depths.specs.Shallow.{GroupsAreShallow, QueriesAreShallow, ServicesAreShallow};

/// At most 65 brackets are open at once in what is printed of an accepted query, one more than in the text.
pub fn queries_are_shallow()
    ensures { QueriesAreShallow }
{}

/// The same of its group alone.
pub fn groups_are_shallow()
    ensures { GroupsAreShallow }
{}

/// At most 64 brackets are open at once in what is printed of the group of each SERVICE of an accepted query.
pub fn services_are_shallow()
    ensures { ServicesAreShallow }
{}
