use eager_rules::{Counts, Outcome};

/// What a run of a kernel gives, and what it counted.
#[derive(Debug, PartialEq, Eq, Drop)]
pub struct Ran {
    pub outcome: Outcome,
    pub counts: Counts,
}
