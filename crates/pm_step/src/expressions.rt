ghost use Rattle.std.specs.Prelude.{◌≡◌, ◌<◌, ◌^◌, pos, get_or, []};
ghost use Rattle.pm_step.specs.Expressions.{part, place_in_class, sum_over, seen, value};

use crate::arithmetic::compute;
use pm_base::{ClassRow, Expr, Field, Hit, Layout, List, Stamp};

/// What an expression sees beside the registers.
#[derive(Drop)]
pub struct Scene<'a> {
    pub layout: &'a Layout,
    pub stamp: Stamp,
    pub answers: &'a List<List<Hit>>,
}

/// The value of an expression. A register or an answer that isn't there reads as 0 or as an answer without hits.
pub fn value(scene: &Scene<'_>, regs: &List<i64>, e: &Expr) -> i64
    requires { scene.now.stamp.time < 2 ^ 63 }
    ensures { result ≡ value (seen scene.now regs.now) e.now }
{
    match e {
        Expr::Num(n) => *n,
        Expr::Now => scene.stamp.time as i64,
        Expr::Me => scene.stamp.agent as i64,
        Expr::Reg(reg) => register(regs, *reg),
        Expr::Part { sense, field } => answer(scene, *sense, *field),
        Expr::Bin { op, left, right } => {
            let a = value(scene, regs, left.get());
            let b = value(scene, regs, right.get());
            compute(*op, a, b)
        }
    }
}

fn register(regs: &List<i64>, reg: u32) -> i64
    ensures { result ≡ get_or regs.now reg (pos 0) }
{
    match regs.get(reg as usize) {
        Some(x) => *x,
        None => 0,
    }
}

fn answer(scene: &Scene<'_>, sense: u32, field: Field) -> i64
    ensures { result ≡ part scene.now.layout.now.classes field (get_or scene.now.answers.now sense []) }
{
    let classes = scene.layout.classes.as_slice();
    match scene.answers.get(sense as usize) {
        Some(hits) => part(classes, field, hits.as_slice()),
        None => part(classes, field, &[]),
    }
}

fn part(classes: &[ClassRow], field: Field, hits: &[Hit]) -> i64
    ensures { result ≡ part classes.now field hits.now }
{
    match field {
        Field::N => hits.len() as i64,
        Field::I => match hits.first() {
            Some(h) => place_in_class(classes, h.var) as i64,
            None => -1,
        },
        Field::X => match hits.first() {
            Some(h) => h.value.x,
            None => 0,
        },
        Field::Y => match hits.first() {
            Some(h) => h.value.y,
            None => 0,
        },
        Field::Sx => sum_x(hits),
        Field::Sy => sum_y(hits),
    }
}

fn place_in_class(classes: &[ClassRow], var: u32) -> u32
    ensures { result ≡ place_in_class classes.now var }
{
    for c in classes {
        if (var as u64) < c.first as u64 + c.count as u64 {
            return var.saturating_sub(c.first);
        }
    }
    0
}

fn sum_x(hits: &[Hit]) -> i64
    ensures { result ≡ sum_over (λ h. h.value.x) hits.now }
{
    let mut sum = 0i64;
    for h in hits {
        sum = sum.saturating_add(h.value.x);
    }
    sum
}

fn sum_y(hits: &[Hit]) -> i64
    ensures { result ≡ sum_over (λ h. h.value.y) hits.now }
{
    let mut sum = 0i64;
    for h in hits {
        sum = sum.saturating_add(h.value.y);
    }
    sum
}
