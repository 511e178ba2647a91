use pm_base::{Layout, Program};

/// What an agent is made of: its number, the time at which it first acts, the last time at which it may act, its rule,
/// and the classes that the rule speaks of.
#[derive(Clone, Copy, Debug)]
pub struct AlpParts<'a> {
    pub agent: u32,
    pub start: u64,
    pub horizon: u64,
    pub program: &'a Program,
    pub layout: &'a Layout,
}
