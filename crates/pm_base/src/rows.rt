use crate::{Change, Hit, List, Num, Stamp, Value, Window, Write};

/// A write as it was received.
#[derive(Clone, Copy, Debug, PartialEq, Eq)]
pub struct PutRow {
    pub num: Num,
    pub stamp: Stamp,
    pub change: Change,
}

/// The withdrawal of the write of that number (its anti-message).
#[derive(Clone, Copy, Debug, PartialEq, Eq)]
pub struct CutRow {
    pub num: Num,
    pub stamp: Stamp,
}

/// A read as it was received, with the hit that it was last given and that hit's turn. A turn counts the hits that
/// the read was given; at turn 0 it was given none.
#[derive(Clone, Copy, Debug, PartialEq, Eq)]
pub struct ReadRow {
    pub num: Num,
    pub stamp: Stamp,
    pub window: Window,
    pub turn: u64,
    pub hit: Option<Value>,
}

/// A hit that a read is given for a variable.
#[derive(Clone, Copy, Debug, PartialEq, Eq)]
pub struct GiveRow {
    pub num: Num,
    pub stamp: Stamp,
    pub var: u32,
    pub turn: u64,
    pub hit: Option<Value>,
}

/// The record of one variable as plain lists.
#[derive(Debug, Drop)]
pub struct Parts {
    pub base: Value,
    pub puts: List<PutRow>,
    pub cuts: List<CutRow>,
    pub reads: List<ReadRow>,
}

/// What a step sensed and wrote: the answers of its senses in order, and its writes in order of variable number.
#[derive(Debug, Drop)]
pub struct Entry {
    pub stamp: Stamp,
    pub answers: List<List<Hit>>,
    pub writes: List<Write>,
}

/// How a step ends: its writes in order of variable number, the agent's registers after it, and how long the agent
/// waits until its next step, at least 1.
#[derive(Debug, Drop)]
pub struct Act {
    pub writes: List<Write>,
    pub regs: List<i64>,
    pub wait: u64,
}
