ghost use Rattle.std.specs.Prelude.{◌≡◌, [], ◌∷◌, ◌++◌, ◌+◌, ◌<◌, ◌^◌, List as Seq, ℕ};
ghost use Rattle.std.specs.Prelude.{length, map, IfOk, OnOk};
ghost use Rattle.pm_plan.specs.Directories.{KnowsNames};
ghost use Rattle.pm_base.specs.Windows.{IsPair};
ghost use Rattle.pm_plan.specs.Plans.{HavePairs, all_vars, class_rows, clp_row, var_row, agent_row, numbered};

use crate::numbers::Directory;
use crate::{AgentPart, AgentRow, ClassPart, ClpPart, ClpRow, Plan, PlanParts, VarPart, VarRow};
use pm_base::{ClassRow, Layout, List, Memory, Name};
use std::alloc::Global;

fn clp_row(clps: &Directory, part: ClpPart) -> ClpRow
    ensures { (names : Seq (Seq ℕ)) → KnowsNames clps.now names → result ≡ clp_row names part }
{
    let ClpPart { name, parent } = part;
    match parent {
        Some(above) => ClpRow {
            name,
            parent: Some(clps.clp_of(above.as_str())),
        },
        None => ClpRow { name, parent: None },
    }
}

fn var_row(clps: &Directory, part: VarPart) -> VarRow
    ensures row { (names : Seq (Seq ℕ)) → KnowsNames clps.now names → result ≡ var_row names part }
    ensures pair { IsPair result.value }
{
    let VarPart { name, at, value } = part;
    VarRow {
        name,
        at: clps.clp_of(at.as_str()),
        value,
    }
}

fn agent_row(clps: &Directory, part: AgentPart) -> AgentRow
    ensures { (names : Seq (Seq ℕ)) → KnowsNames clps.now names → result ≡ agent_row names part }
{
    let AgentPart {
        name,
        home,
        start,
        program,
    } = part;
    AgentRow {
        name,
        home: clps.clp_of(home.as_str()),
        start,
        program,
    }
}

fn clp_rows(alloc: Global, clps: &Directory, parts: List<ClpPart>) -> Result<List<ClpRow>, Memory>
    ensures { (names : Seq (Seq ℕ)) → KnowsNames clps.now names →
        IfOk result (λ rows. rows ≡ map (clp_row names) parts) }
{
    let mut rows = List::new(alloc);
    for part in parts.into_vec() {
        rows.push(clp_row(clps, part))?;
    }
    Ok(rows)
}

fn agent_rows(
    alloc: Global,
    clps: &Directory,
    parts: List<AgentPart>,
) -> Result<List<AgentRow>, Memory>
    ensures { (names : Seq (Seq ℕ)) → KnowsNames clps.now names →
        IfOk result (λ rows. rows ≡ map (agent_row names) parts) }
{
    let mut rows = List::new(alloc);
    for part in parts.into_vec() {
        rows.push(agent_row(clps, part))?;
    }
    Ok(rows)
}

/// Appends the rows of these variables.
fn push_vars(
    alloc: Global,
    clps: &Directory,
    rows: &mut List<VarRow>,
    parts: List<VarPart>,
) -> Result<(), Memory>
    ensures rows { (names : Seq (Seq ℕ)) → KnowsNames clps.now names →
        OnOk result (rows.new ≡ rows.old ++ map (var_row names) parts) }
    ensures count { OnOk result (length rows.new ≡ length rows.old + length parts) }
    ensures pairs { HavePairs rows.old → OnOk result (HavePairs rows.new) }
{
    for part in parts.into_vec() {
        rows.push(var_row(clps, part))?;
    }
    Ok(())
}

/// The classes of a plan with their names, and the variables of them all.
#[derive(Drop)]
struct Classes {
    rows: List<ClassRow>,
    names: List<Name>,
    vars: List<VarRow>,
}

impl Classes {
    /// Appends a class with its variables.
    fn push(&mut self, alloc: Global, clps: &Directory, class: ClassPart) -> Result<(), Memory>
        requires { length self.old.vars + length class.vars < 2 ^ 32 }
        ensures rows { OnOk result (self.new.rows ≡
            self.old.rows ++ (record { first = length self.old.vars; count = length class.vars }) ∷ []) }
        ensures names { OnOk result (self.new.names ≡ self.old.names ++ class.name ∷ []) }
        ensures vars { (names : Seq (Seq ℕ)) → KnowsNames clps.now names →
            OnOk result (self.new.vars ≡ self.old.vars ++ map (var_row names) class.vars) }
        ensures count { OnOk result (length self.new.vars ≡ length self.old.vars + length class.vars) }
        ensures pairs { HavePairs self.old.vars → OnOk result (HavePairs self.new.vars) }
    {
        let ClassPart { name, vars } = class;
        let row = ClassRow {
            first: self.vars.len() as u32,
            count: vars.len() as u32,
        };
        self.rows.push(row)?;
        self.names.push(name)?;
        push_vars(alloc, clps, &mut self.vars, vars)
    }
}

fn all_classes(alloc: Global, clps: &Directory, parts: List<ClassPart>) -> Result<Classes, Memory>
    requires { length (all_vars parts) < 2 ^ 32 }
    ensures rows { IfOk result (λ c. c.rows ≡ class_rows 0 parts) }
    ensures names { IfOk result (λ c. c.names ≡ map (λ p. p.name) parts) }
    ensures vars { (names : Seq (Seq ℕ)) → KnowsNames clps.now names →
        IfOk result (λ c. c.vars ≡ map (var_row names) (all_vars parts)) }
    ensures pairs { IfOk result (λ c. HavePairs c.vars) }
{
    let mut all = Classes {
        rows: List::new(alloc),
        names: List::new(alloc),
        vars: List::new(alloc),
    };
    for class in parts.into_vec() {
        all.push(alloc, clps, class)?;
    }
    Ok(all)
}

/// The rows of the parts, with their names numbered.
#[tactic(auto, unfolding(crate::specs::Plans::numbered))]
pub fn numbered(alloc: Global, parts: PlanParts) -> Result<Plan, Memory>
    requires clps { length parts.clps < 2 ^ 32 }
    requires vars { length (all_vars parts.classes) < 2 ^ 32 }
    ensures made { IfOk result (λ plan. plan ≡ numbered parts) }
    ensures pairs { IfOk result (λ plan. HavePairs plan.vars) }
{
    let directory = Directory::make(alloc, parts.clps.as_slice())?;
    let classes = all_classes(alloc, &directory, parts.classes)?;
    Ok(Plan {
        horizon: parts.horizon,
        move_after: parts.move_after,
        clps: clp_rows(alloc, &directory, parts.clps)?,
        layout: Layout {
            classes: classes.rows,
        },
        classes: classes.names,
        vars: classes.vars,
        agents: agent_rows(alloc, &directory, parts.agents)?,
    })
}
