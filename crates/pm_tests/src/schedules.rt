//! Runs of the world whose deliveries are drawn.
ghost use Rattle.pm_plan.specs.Plans.{IsValid};

use crate::rows::short_foragers;
use pm_base::{Entry, Line, List, Memory};
use pm_core::World;
use pm_plan::Plan;
use pm_plan::laws::limits_are_kept;
use pm_scenario::read;
use pm_seq::Seq;
use pm_trace::line;
use std::alloc::{AllocError, Global};
use std::test::Fail;

/// The generator of a drawn run.
#[derive(Drop)]
struct Draws {
    state: u64,
}

impl Draws {
    fn below(&mut self, bound: u32) -> u32 {
        self.state = self
            .state
            .wrapping_mul(6_364_136_223_846_793_005)
            .wrapping_add(1_442_695_040_888_963_407);
        (self.state >> 33) as u32 % bound.max(1)
    }
}

/// How many processes the foragers' plan has.
const PROCESSES: u32 = 11;

/// How many draws a run may take.
const DRAWS: u32 = 10_000_000;

/// Behind so many deliveries there is a Commit.
const EPOCH: u64 = 50;

fn add_lines(
    alloc: Global,
    plan: &Plan,
    entries: &[Entry],
    text: &mut Vec<u8>,
) -> Result<(), Memory> {
    for entry in entries {
        let bytes = line(alloc, plan, entry)?;
        text.extend_from_slice(bytes.as_slice())?;
    }
    Ok(())
}

/// The trace of the sequential run.
fn sequential(alloc: Global, plan: &Plan) -> Result<Vec<u8>, Memory>
    requires { IsValid plan.now }
{
    limits_are_kept(plan);
    let mut text = Vec::new(alloc);
    let mut run = Seq::new(alloc, plan)?;
    for _ in 0..DRAWS {
        match run.step(alloc)? {
            Some(entry) => add_lines(alloc, plan, [entry].as_slice(), &mut text)?,
            None => return Ok(text),
        }
    }
    Ok(text)
}

/// A Commit at the line, where one may stand there.
fn commit(
    alloc: Global,
    plan: &Plan,
    world: &mut World<'_>,
    line: Line,
    text: &mut Vec<u8>,
) -> Result<(), Memory> {
    if world.may_commit(line) {
        let entries = world.commit(alloc, line)?;
        add_lines(alloc, plan, entries.as_slice(), text)?;
    }
    Ok(())
}

/// A delivery over a drawn link, where there is one with a message; whether there was.
fn deliver(alloc: Global, world: &mut World<'_>, draws: &mut Draws) -> Result<bool, Memory> {
    let to = draws.below(PROCESSES);
    let from = draws.below(PROCESSES);
    if world.has_link(to, from) && world.made() < 20_000_000 {
        world.deliver(alloc, to, from)
    } else {
        Ok(false)
    }
}

/// What a run with drawn deliveries commits.
fn drawn(alloc: Global, plan: &Plan, number: u64) -> Result<Vec<u8>, Memory>
    requires { IsValid plan.now }
{
    let mut text = Vec::new(alloc);
    let mut world = World::first(alloc, plan)?;
    let mut draws = Draws { state: number };
    for _ in 0..DRAWS {
        let least = world.least();
        if least == Line::End {
            break;
        }
        if deliver(alloc, &mut world, &mut draws)? && world.made() % EPOCH == 0 {
            let least = world.least();
            commit(alloc, plan, &mut world, least, &mut text)?;
        }
    }
    commit(alloc, plan, &mut world, Line::End, &mut text)?;
    Ok(text)
}

/// Whatever the order of the deliveries, what is committed is the trace of the sequential run.
#[test]
fn drawn_schedules(rt: HostRuntime) -> Result<(), Fail> {
    let alloc = rt.alloc();
    let short = short_foragers(alloc)?;
    let bytes = short.as_bytes();
    assert!(rt; bytes.len() < 10_000);
    let plan = read(alloc, bytes).map_err(|_| AllocError)?;
    let trace = sequential(alloc, &plan).map_err(|_| AllocError)?;
    for number in 1..17 {
        let text = drawn(alloc, &plan, number).map_err(|_| AllocError)?;
        assert!(rt; text.as_slice() == trace.as_slice(), "{number}");
    }
    Ok(())
}
