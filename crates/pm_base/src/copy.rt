ghost use Rattle.std.specs.Prelude.{◌≡◌, IfOk};

use crate::{Boxed, Expr, List, Memory, Place, Program, RegRow, Sense, SenseRow, Stmt};
use std::alloc::Global;

#[cycle(copy_expr)]
fn copy_expr(alloc: Global, e: &Expr) -> Result<Expr, Memory>
    ensures { IfOk result (λ r. r ≡ e.now) }
{
    match e {
        Expr::Num(n) => Ok(Expr::Num(*n)),
        Expr::Now => Ok(Expr::Now),
        Expr::Me => Ok(Expr::Me),
        Expr::Reg(r) => Ok(Expr::Reg(*r)),
        Expr::Part { sense, field } => Ok(Expr::Part {
            sense: *sense,
            field: *field,
        }),
        Expr::Bin { op, left, right } => {
            let left = copy_expr(alloc, left.get())?;
            let right = copy_expr(alloc, right.get())?;
            Ok(Expr::Bin {
                op: *op,
                left: Boxed::new(alloc, left)?,
                right: Boxed::new(alloc, right)?,
            })
        }
    }
}

fn copy_place(alloc: Global, p: &Place) -> Result<Place, Memory>
    ensures { IfOk result (λ r. r ≡ p.now) }
{
    match p {
        Place::Var { var } => Ok(Place::Var { var: *var }),
        Place::Member { class, at } => Ok(Place::Member {
            class: *class,
            at: copy_expr(alloc, at)?,
        }),
    }
}

fn copy_sense(alloc: Global, s: &Sense) -> Result<Sense, Memory>
    ensures { IfOk result (λ r. r ≡ s.now) }
{
    match s {
        Sense::Read { place } => Ok(Sense::Read {
            place: copy_place(alloc, place)?,
        }),
        Sense::Scan {
            class,
            x0,
            x1,
            y0,
            y1,
        } => Ok(Sense::Scan {
            class: *class,
            x0: copy_expr(alloc, x0)?,
            x1: copy_expr(alloc, x1)?,
            y0: copy_expr(alloc, y0)?,
            y1: copy_expr(alloc, y1)?,
        }),
    }
}

#[cycle(copy_stmts)]
fn copy_stmt(alloc: Global, s: &Stmt) -> Result<Stmt, Memory>
    ensures { IfOk result (λ r. r ≡ s.now) }
{
    match s {
        Stmt::Let { reg, value } => Ok(Stmt::Let {
            reg: *reg,
            value: copy_expr(alloc, value)?,
        }),
        Stmt::If {
            test,
            first,
            second,
        } => Ok(Stmt::If {
            test: copy_expr(alloc, test)?,
            first: copy_stmts(alloc, first.as_slice())?,
            second: copy_stmts(alloc, second.as_slice())?,
        }),
        Stmt::Set { place, x, y } => Ok(Stmt::Set {
            place: copy_place(alloc, place)?,
            x: copy_expr(alloc, x)?,
            y: copy_expr(alloc, y)?,
        }),
        Stmt::Add { place, x, y } => Ok(Stmt::Add {
            place: copy_place(alloc, place)?,
            x: copy_expr(alloc, x)?,
            y: copy_expr(alloc, y)?,
        }),
        Stmt::Wait { value } => Ok(Stmt::Wait {
            value: copy_expr(alloc, value)?,
        }),
    }
}

#[cycle(copy_stmts)]
fn copy_stmts(alloc: Global, stmts: &[Stmt]) -> Result<List<Stmt>, Memory>
    ensures { IfOk result (λ r. r ≡ stmts.now) }
{
    let mut out = List::new(alloc);
    for s in stmts {
        out.push(copy_stmt(alloc, s)?)?;
    }
    Ok(out)
}

fn copy_regs(alloc: Global, rows: &[RegRow]) -> Result<List<RegRow>, Memory>
    ensures { IfOk result (λ r. r ≡ rows.now) }
{
    let mut out = List::new(alloc);
    for row in rows {
        out.push(RegRow {
            name: row.name.copy(alloc)?,
            start: row.start,
        })?;
    }
    Ok(out)
}

fn copy_senses(alloc: Global, rows: &[SenseRow]) -> Result<List<SenseRow>, Memory>
    ensures { IfOk result (λ r. r ≡ rows.now) }
{
    let mut out = List::new(alloc);
    for row in rows {
        out.push(SenseRow {
            name: row.name.copy(alloc)?,
            sense: copy_sense(alloc, &row.sense)?,
        })?;
    }
    Ok(out)
}

impl Program {
    /// An equal tree in memory of its own.
    pub fn copy(&self, alloc: Global) -> Result<Program, Memory>
        ensures { IfOk result (λ p. p ≡ self.now) }
    {
        Ok(Program {
            regs: copy_regs(alloc, self.regs.as_slice())?,
            senses: copy_senses(alloc, self.senses.as_slice())?,
            body: copy_stmts(alloc, self.body.as_slice())?,
        })
    }
}
