use pm_base::{List, Name, Program, Value};

/// What a scenario says, with names in place of numbers.
#[derive(Debug, Drop)]
pub struct PlanParts {
    /// The last time at which a step may be done.
    pub horizon: u64,
    /// How many accesses from one neighbour move a variable there; 0 for never.
    pub move_after: u64,
    pub clps: List<ClpPart>,
    pub classes: List<ClassPart>,
    pub agents: List<AgentPart>,
}

/// A communication process, and the name of the one above it in the tree.
#[derive(Debug, Drop)]
pub struct ClpPart {
    pub name: Name,
    pub parent: Option<Name>,
}

/// A class with its variables.
#[derive(Debug, Drop)]
pub struct ClassPart {
    pub name: Name,
    pub vars: List<VarPart>,
}

/// A variable, the name of the communication process that keeps it at first, and its first value.
#[derive(Debug, Drop)]
pub struct VarPart {
    pub name: Name,
    pub at: Name,
    pub value: Value,
}

/// An agent, the name of the communication process that it is at, the time of its first step, and its rule.
#[derive(Debug, Drop)]
pub struct AgentPart {
    pub name: Name,
    pub home: Name,
    pub start: u64,
    pub program: Program,
}
