/// A sense's place among the kept steps: its step, counted from the first kept one, and its place in the step, both
/// from 0 on.
#[derive(Clone, Copy, Debug, PartialEq, Eq)]
pub struct Spot {
    pub step: usize,
    pub sense: usize,
}
