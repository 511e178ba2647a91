ghost use Rattle.std.specs.Prelude.{◌≡◌};
ghost use Rattle.pm_base.specs.declared.program.Op.TheVariants.{Div, Rem};
ghost use Rattle.pm_step.specs.Arithmetic.{compute, truth_of};

use pm_base::Op;

/// The value of an operator between two numbers.
pub fn compute(op: Op, a: i64, b: i64) -> i64
    ensures { result ≡ compute op a b }
{
    match op {
        Op::Add => a.saturating_add(b),
        Op::Sub => a.saturating_sub(b),
        Op::Mul => a.saturating_mul(b),
        Op::Div => quotient(a, b),
        Op::Rem => remainder(a, b),
        Op::Min => a.min(b),
        Op::Max => a.max(b),
        Op::Less => truth(a < b),
        Op::AtMost => truth(a <= b),
        Op::Equal => truth(a == b),
        Op::Differ => truth(a != b),
    }
}

fn quotient(a: i64, b: i64) -> i64
    ensures { result ≡ compute Div a b }
{
    if b == 0 {
        0
    } else if b == -1 {
        // the least number has no negative: its quotient is the greatest
        0i64.saturating_sub(a)
    } else {
        a / b
    }
}

fn remainder(a: i64, b: i64) -> i64
    ensures { result ≡ compute Rem a b }
{
    if b == 0 { 0 } else { a.wrapping_rem(b) }
}

fn truth(holds: bool) -> i64
    ensures { result ≡ truth_of holds }
{
    if holds { 1 } else { 0 }
}
