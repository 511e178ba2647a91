use crate::{Boxed, List, Name};

/// An operator between two numbers. Results are brought back to the ends of 64 bits.
#[derive(Clone, Copy, Debug, PartialEq, Eq)]
pub enum Op {
    Add,
    Sub,
    Mul,
    Div,
    Rem,
    Min,
    Max,
    Less,
    AtMost,
    Equal,
    Differ,
}

/// What is taken of an answer: the number of its hits, the first hit's place in its class, the first hit's value, or
/// the sums of the values.
#[derive(Clone, Copy, Debug, PartialEq, Eq)]
pub enum Field {
    N,
    I,
    X,
    Y,
    Sx,
    Sy,
}

/// An expression of a rule.
#[derive(Debug, Drop)]
pub enum Expr {
    Num(i64),
    Now,
    Me,
    Reg(u32),
    Part {
        sense: u32,
        field: Field,
    },
    Bin {
        op: Op,
        left: Boxed<Expr>,
        right: Boxed<Expr>,
    },
}

/// A variable, by its number or by its place in a class.
#[derive(Debug, Drop)]
pub enum Place {
    Var { var: u32 },
    Member { class: u32, at: Expr },
}

/// A statement of a rule's body.
#[derive(Debug, Drop)]
pub enum Stmt {
    Let {
        reg: u32,
        value: Expr,
    },
    If {
        test: Expr,
        first: List<Stmt>,
        second: List<Stmt>,
    },
    Set {
        place: Place,
        x: Expr,
        y: Expr,
    },
    Add {
        place: Place,
        x: Expr,
        y: Expr,
    },
    Wait {
        value: Expr,
    },
}

/// What a sense asks for: one variable, or the members of a class inside a window.
#[derive(Debug, Drop)]
pub enum Sense {
    Read {
        place: Place,
    },
    Scan {
        class: u32,
        x0: Expr,
        x1: Expr,
        y0: Expr,
        y1: Expr,
    },
}

/// A register with its first value.
#[derive(Debug, Drop)]
pub struct RegRow {
    pub name: Name,
    pub start: i64,
}

/// A sense with its name.
#[derive(Debug, Drop)]
pub struct SenseRow {
    pub name: Name,
    pub sense: Sense,
}

/// The rule of an agent: its registers, its senses in order, and what it does with their answers.
#[derive(Debug, Drop)]
pub struct Program {
    pub regs: List<RegRow>,
    pub senses: List<SenseRow>,
    pub body: List<Stmt>,
}
