use pm_base::{Layout, List, Name, Program, Value};

/// A scenario with its names numbered. Communication processes, classes, variables and agents are numbered from 0 in
/// the order of the scenario, variables through all classes.
#[derive(Debug, Drop)]
pub struct Plan {
    /// The last time at which a step may be done.
    pub horizon: u64,
    /// How many accesses from one neighbour move a variable there; 0 for never.
    pub move_after: u64,
    pub clps: List<ClpRow>,
    pub layout: Layout,
    /// The names of the layout's classes.
    pub classes: List<Name>,
    pub vars: List<VarRow>,
    pub agents: List<AgentRow>,
}

/// A communication process, and the process above it in the tree.
#[derive(Debug, Drop)]
pub struct ClpRow {
    pub name: Name,
    pub parent: Option<u32>,
}

/// A variable, the communication process that keeps it at first, and its first value.
#[derive(Debug, Drop)]
pub struct VarRow {
    pub name: Name,
    pub at: u32,
    pub value: Value,
}

/// An agent, the communication process that it is at, the time of its first step, and its rule.
#[derive(Debug, Drop)]
pub struct AgentRow {
    pub name: Name,
    pub home: u32,
    pub start: u64,
    pub program: Program,
}

/// What a limit or a name of a plan is about.
#[derive(Clone, Copy, Debug, PartialEq, Eq)]
pub enum Kind {
    Clp,
    Class,
    Var,
    Agent,
    Time,
}
