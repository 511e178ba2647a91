ghost use Rattle.std.specs.Prelude.{◌≡◌, ◌<◌, ◌≤◌, ◌^◌, IfOk, OnOk, [], length, drop};
ghost use Rattle.pm_base.specs.Layouts.{IsLayout};
ghost use Rattle.pm_step.specs.Writes.{begins_with, place_of};
ghost use Rattle.pm_step.specs.Expressions.{seen, sight};
ghost use Rattle.pm_step.specs.Steps.{act_of, does, does_all, no_deeds, pair, query_of, step, variable, with_change};
ghost use Rattle.pm_step.specs.Steps.{written, IsRising};

use crate::expressions::{Scene, value};
use crate::{Act, Deeds, Next};
use pm_base::{
    Change, Expr, Hit, Layout, List, Memory, Place, Program, Query, Sense, Stamp, Stmt, Value,
    Window, Write,
};
use std::alloc::Global;

fn variable(scene: &Scene<'_>, regs: &List<i64>, place: &Place) -> u32
    requires time { scene.now.stamp.time < 2 ^ 63 }
    requires layout { IsLayout scene.now.layout.now }
    ensures { result ≡ variable (seen scene.now regs.now) place.now }
{
    match place {
        Place::Var { var } => *var,
        Place::Member { class, at } => {
            let e = value(scene, regs, at);
            scene.layout.class_row(*class).member(e)
        }
    }
}

fn query_of(scene: &Scene<'_>, regs: &List<i64>, sense: &Sense) -> Query
    requires time { scene.now.stamp.time < 2 ^ 63 }
    requires layout { IsLayout scene.now.layout.now }
    ensures { result ≡ query_of (seen scene.now regs.now) sense.now }
{
    match sense {
        Sense::Read { place } => Query::One {
            var: variable(scene, regs, place),
        },
        Sense::Scan {
            class,
            x0,
            x1,
            y0,
            y1,
        } => Query::Class {
            class: *class,
            window: Window {
                x0: value(scene, regs, x0),
                x1: value(scene, regs, x1),
                y0: value(scene, regs, y0),
                y1: value(scene, regs, y1),
            },
        },
    }
}

fn pair(scene: &Scene<'_>, regs: &List<i64>, x: &Expr, y: &Expr) -> Value
    requires { scene.now.stamp.time < 2 ^ 63 }
    ensures { result ≡ pair (seen scene.now regs.now) x.now y.now }
{
    Value {
        x: value(scene, regs, x),
        y: value(scene, regs, y),
    }
}

// How many writes come before those to this variable.
fn place_of(writes: &[Write], var: u32) -> usize
    requires { IsRising writes.now }
    ensures bound { result ≤ length writes.now }
    ensures place { result ≡ place_of var writes.now }
{
    writes.partition_point(|w| w.var < var)
}

fn is_at(writes: &[Write], at: usize, var: u32) -> bool
    ensures { result ≡ begins_with var (drop at writes.now) }
{
    match writes.get(at) {
        Some(w) => w.var == var,
        None => false,
    }
}

fn write(writes: &mut List<Write>, write: Write) -> Result<(), Memory>
    requires { IsRising writes.old }
    ensures { OnOk result (writes.new ≡ written writes.old write) }
{
    let at = place_of(writes.as_slice(), write.var);
    if is_at(writes.as_slice(), at, write.var) {
        writes.set(at, write);
        Ok(())
    } else {
        writes.insert(at, write)
    }
}

fn change(scene: &Scene<'_>, place: &Place, change: Change, deeds: &mut Deeds) -> Result<(), Memory>
    requires time { scene.now.stamp.time < 2 ^ 63 }
    requires layout { IsLayout scene.now.layout.now }
    requires rising { IsRising deeds.old.writes }
    ensures { OnOk result (deeds.new ≡ with_change (seen scene.now []) place.now change deeds.old) }
{
    let var = variable(scene, &deeds.regs, place);
    write(&mut deeds.writes, Write { var, change })
}

#[cycle(does)]
fn does(scene: &Scene<'_>, stmt: &Stmt, deeds: &mut Deeds) -> Result<(), Memory>
    requires time { scene.now.stamp.time < 2 ^ 63 }
    requires layout { IsLayout scene.now.layout.now }
    requires rising { IsRising deeds.old.writes }
    ensures { OnOk result (deeds.new ≡ does (seen scene.now []) stmt.now deeds.old) }
{
    match stmt {
        Stmt::Let { reg, value: e } => {
            let x = value(scene, &deeds.regs, e);
            deeds.regs.set(*reg as usize, x);
            Ok(())
        }
        Stmt::If {
            test,
            first,
            second,
        } => {
            let x = value(scene, &deeds.regs, test);
            if x == 0 {
                does_all(scene, second.as_slice(), deeds)
            } else {
                does_all(scene, first.as_slice(), deeds)
            }
        }
        Stmt::Set { place, x, y } => {
            let to = Change::Set(pair(scene, &deeds.regs, x, y));
            change(scene, place, to, deeds)
        }
        Stmt::Add { place, x, y } => {
            let by = Change::Add(pair(scene, &deeds.regs, x, y));
            change(scene, place, by, deeds)
        }
        Stmt::Wait { value: e } => {
            deeds.wait = value(scene, &deeds.regs, e);
            Ok(())
        }
    }
}

#[cycle(does)]
fn does_all(scene: &Scene<'_>, stmts: &[Stmt], deeds: &mut Deeds) -> Result<(), Memory>
    requires time { scene.now.stamp.time < 2 ^ 63 }
    requires layout { IsLayout scene.now.layout.now }
    requires rising { IsRising deeds.old.writes }
    ensures { OnOk result (deeds.new ≡ does_all (seen scene.now []) stmts.now deeds.old) }
{
    for stmt in stmts {
        does(scene, stmt, deeds)?;
    }
    Ok(())
}

fn act(alloc: Global, scene: &Scene<'_>, program: &Program, regs: &List<i64>) -> Result<Act, Memory>
    requires time { scene.now.stamp.time < 2 ^ 63 }
    requires layout { IsLayout scene.now.layout.now }
    ensures { IfOk result (λ a. a ≡ act_of (does_all (seen scene.now []) program.now.body (no_deeds regs.now))) }
{
    let regs = Vec::from_slice(alloc, regs.as_slice())?;
    let mut deeds = Deeds {
        regs: List::from_vec(regs),
        writes: List::new(alloc),
        wait: 1,
    };
    does_all(scene, program.body.as_slice(), &mut deeds)?;
    let Deeds { regs, writes, wait } = deeds;
    let wait = if wait < 1 { 1 } else { wait as u64 };
    Ok(Act { writes, regs, wait })
}

/// The step of a rule at a stamp. With fewer answers than the rule has senses, the next sense is asked. With all
/// answers, the body runs: `set` and `add` find their variable, then x, then y, a later change of a variable stands in
/// place of an earlier one, and a wait below 1 counts as 1. What isn't there reads as nothing: a register as 0, an
/// answer as one without hits, a class as one without members.
#[tactic(auto, unfolding(crate::specs::Steps::step))]
pub fn next(
    alloc: Global,
    program: &Program,
    layout: &Layout,
    stamp: Stamp,
    regs: &List<i64>,
    answers: &List<List<Hit>>,
) -> Result<Next, Memory>
    requires layout { IsLayout layout.now }
    requires time { stamp.time < 2 ^ 63 }
    ensures { IfOk result (λ n. n ≡ step program.now (sight layout.now.classes stamp regs.now answers.now)) }
{
    let scene = Scene {
        layout,
        stamp,
        answers,
    };
    match program.senses.get(answers.len()) {
        Some(row) => Ok(Next::Ask(query_of(&scene, regs, &row.sense))),
        None => Ok(Next::Act(act(alloc, &scene, program, regs)?)),
    }
}
