ghost use Rattle.std.specs.Prelude.{◌≡◌, ◌<◌, ◌+◌, ◌++◌, IfOk, OnOk};
ghost use Rattle.pm_gen.specs.Draws.{next_state, state_after};
ghost use Rattle.pm_gen.specs.Generated.{name_of, child, cell, mark, clps, cells, marks};

use crate::draws::Draws;
use itoa::Buffer;
use pm_base::{List, Memory, Name, Value};
use pm_plan::{ClpPart, VarPart};
use std::alloc::Global;

/// A letter and a number.
#[tactic(auto, unfolding(crate::specs::Generated::name_of))]
pub fn name_of(alloc: Global, letter: &str, number: u32) -> Result<Name, Memory>
    ensures { IfOk result (λ name. name ≡ name_of letter.now number) }
{
    let mut text = String::from_str(alloc, letter)?;
    let mut digits = Buffer::new();
    text.push_str(digits.format(number))?;
    Name::make(alloc, text.as_str())
}

/// The process of that number, below one of those before it, which is drawn.
fn child(alloc: Global, draws: &mut Draws, number: u32) -> Result<ClpPart, Memory>
    requires { 0 < number }
    ensures part { IfOk result (λ part. part ≡ child draws.old.state number) }
    ensures state { OnOk result (draws.new.state ≡ next_state draws.old.state) }
{
    let parent = name_of(alloc, "p", draws.below(number))?;
    Ok(ClpPart {
        name: name_of(alloc, "p", number)?,
        parent: Some(parent),
    })
}

/// The communication processes.
#[tactic(auto, unfolding(crate::specs::Generated::clps))]
pub fn clps(alloc: Global, draws: &mut Draws) -> Result<List<ClpPart>, Memory>
    ensures parts { IfOk result (λ parts. parts ≡ clps draws.old.state) }
    ensures state { OnOk result (draws.new.state ≡ state_after draws.old.state 4) }
{
    let mut clps = List::new(alloc);
    clps.push(ClpPart {
        name: name_of(alloc, "p", 0)?,
        parent: None,
    })?;
    for k in 0..4 {
        clps.push(child(alloc, draws, k + 1)?)?;
    }
    Ok(clps)
}

/// The cell of that number: its place and its value are drawn.
#[tactic(auto, unfolding(crate::specs::Draws::state_after))]
fn cell(alloc: Global, draws: &mut Draws, number: u32) -> Result<VarPart, Memory>
    ensures part { IfOk result (λ part. part ≡ cell draws.old.state number) }
    ensures state { OnOk result (draws.new.state ≡ state_after draws.old.state 3) }
{
    let at = name_of(alloc, "p", draws.below(5))?;
    let x = i64::from(draws.below(10));
    let y = i64::from(draws.below(10));
    Ok(VarPart {
        name: name_of(alloc, "c", number)?,
        at,
        value: Value { x, y },
    })
}

/// The variables of the class of cells.
#[tactic(auto, unfolding(crate::specs::Generated::cells))]
pub fn cells(alloc: Global, draws: &mut Draws) -> Result<List<VarPart>, Memory>
    ensures parts { IfOk result (λ parts. parts ≡ cells draws.old.state) }
    ensures state { OnOk result (draws.new.state ≡ state_after draws.old.state 72) }
{
    let mut cells = List::new(alloc);
    for k in 0..24 {
        cells.push(cell(alloc, draws, k)?)?;
    }
    Ok(cells)
}

/// The mark of that number: its place is drawn.
fn mark(alloc: Global, draws: &mut Draws, number: u32) -> Result<VarPart, Memory>
    ensures part { IfOk result (λ part. part ≡ mark draws.old.state number) }
    ensures state { OnOk result (draws.new.state ≡ next_state draws.old.state) }
{
    let at = name_of(alloc, "p", draws.below(5))?;
    Ok(VarPart {
        name: name_of(alloc, "m", number)?,
        at,
        value: Value { x: 0, y: 0 },
    })
}

/// The variables of the class of marks.
#[tactic(auto, unfolding(crate::specs::Generated::marks))]
pub fn marks(alloc: Global, draws: &mut Draws) -> Result<List<VarPart>, Memory>
    ensures parts { IfOk result (λ parts. parts ≡ marks draws.old.state) }
    ensures state { OnOk result (draws.new.state ≡ state_after draws.old.state 4) }
{
    let mut marks = List::new(alloc);
    for k in 0..4 {
        marks.push(mark(alloc, draws, k)?)?;
    }
    Ok(marks)
}
