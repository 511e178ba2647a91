use pm_base::{Entry, List, Num, Query, Stamp, Value};

/// A hit that a sense was given for a variable, with the hit's turn.
#[derive(Clone, Copy, Debug, PartialEq, Eq)]
pub struct KeptHit {
    pub var: u32,
    pub turn: u64,
    pub hit: Option<Value>,
}

/// A sense of a kept step: the number under which it asked, what it asked for, whether all its hits came, and the hits
/// that it was given, in order of variable.
#[derive(Debug, Drop)]
pub struct KeptSense {
    pub num: Num,
    pub query: Query,
    pub complete: bool,
    pub hits: List<KeptHit>,
}

/// How a kept step ended: its entry, the numbers of its writes in order, the registers after it, and its wait.
#[derive(Debug, Drop)]
pub struct KeptAct {
    pub entry: Entry,
    pub nums: List<Num>,
    pub regs: List<i64>,
    pub wait: u64,
}

/// A step that may still be rolled back: its senses in order, and how it ended, where it has.
#[derive(Debug, Drop)]
pub struct KeptStep {
    pub stamp: Stamp,
    pub senses: List<KeptSense>,
    pub act: Option<KeptAct>,
}
