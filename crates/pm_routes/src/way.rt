/// Which way a variable is: it is here, or behind the tree port of that number.
#[derive(Clone, Copy, Debug, PartialEq, Eq)]
pub enum Way {
    Here,
    Port(u32),
}
