/// What is called before each turn of a worker, while that worker holds the process. It answers nothing and can change
/// nothing of who calls it. A test makes workers wait here, so that it chooses the order of their turns.
pub trait Gate {
    fn at(&self, worker: u32, process: u32);
}

/// A gate that does nothing.
#[derive(Clone, Copy, Debug)]
pub struct FreeGate;

impl Gate for FreeGate {
    fn at(&self, _worker: u32, _process: u32) {}
}
