use pm_base::{Expr, Name, Sense, Stmt};

/// What a line says.
#[derive(Debug, Drop)]
pub enum Said {
    /// `reg NAME NUMBER`
    Reg { name: Name, start: i64 },
    /// `read NAME = ..` or `scan NAME = ..`
    Sense { name: Name, sense: Sense },
    /// `let`, `set`, `add` or `wait`
    Does(Stmt),
    /// `if EXPR`
    If(Expr),
    Else,
    End,
}
