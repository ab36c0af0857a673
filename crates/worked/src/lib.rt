// Worked cases of the definitions, as one theorem.
#![tactic(auto)]

ghost use Rattle.worked.specs.Worked.{WorkedCases};

/// The worked cases hold of the definitions that the contracts of the other crates cite.
pub fn worked_cases()
    ensures { WorkedCases }
{}
