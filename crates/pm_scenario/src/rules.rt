ghost use Rattle.std.specs.Prelude.{◌≡◌, ◌<◌, ◌^◌, ◌+◌, ◌++◌, length, map, true, IfOk, OnOk};
ghost use Rattle.std.specs.List.{list_all};
ghost use Rattle.pm_base.specs.Fits.{fits};
ghost use Rattle.pm_base.specs.Layouts.{var_count};
ghost use Rattle.pm_plan.specs.Plans.{all_vars, rules_fit};
ghost use Rattle.pm_plan.specs.declared.parts.AgentPart.{AgentPart as Agent};
ghost use Rattle.pm_rules.specs.Reading.{class_rows};
ghost use Rattle.pm_scenario.specs.Forms.{Gives};
ghost use Rattle.pm_scenario.specs.Fewness.{IsFew};
ghost use Rattle.pm_scenario.specs.Scenarios.{named_rows, var_names, agent_part, agent_parts, parts_of, with_agents};

use crate::ScenarioFault;
use crate::draft::{AgentText, Draft};
use pm_base::{ClassRow, List, Memory, Name};
use pm_plan::{AgentPart, ClassPart, PlanParts, VarPart};
use pm_rules::{Names, RuleFault, accepted_texts_are_rules, parse};
use std::alloc::Global;

/// The classes with their names.
fn named_rows(alloc: Global, classes: &[ClassPart]) -> Result<List<(Name, ClassRow)>, Memory>
    requires { length (all_vars classes.now) < 2 ^ 32 }
    ensures { IfOk result (λ rows. rows ≡ named_rows 0 classes.now) }
{
    let mut rows = List::new(alloc);
    let mut first = 0;
    for class in classes {
        let count = class.vars.len() as u32;
        rows.push((class.name.copy(alloc)?, ClassRow { first, count }))?;
        first += count;
    }
    Ok(rows)
}

/// Appends the names of these variables.
fn push_names(alloc: Global, names: &mut List<Name>, vars: &[VarPart]) -> Result<(), Memory>
    ensures { OnOk result (names.new ≡ names.old ++ map (λ v. v.name) vars.now) }
{
    for var in vars {
        names.push(var.name.copy(alloc)?)?;
    }
    Ok(())
}

/// The names of the variables, through all classes.
fn var_names(alloc: Global, classes: &[ClassPart]) -> Result<List<Name>, Memory>
    ensures { IfOk result (λ names. names ≡ var_names classes.now) }
{
    let mut names = List::new(alloc);
    for class in classes {
        push_names(alloc, &mut names, class.vars.as_slice())?;
    }
    Ok(names)
}

/// The agent of that number with its rule, in that version of the rule language.
fn agent_part(
    alloc: Global,
    names: &Names<'_>,
    version: u32,
    index: u32,
    agent: AgentText,
) -> Result<AgentPart, ScenarioFault>
    requires vars { length names.now.vars ≡ var_count (class_rows names.now) }
    ensures part { Gives result (agent_part names.now version index agent) }
    ensures fits { IfOk result (λ a. fits a.program (record { classes = class_rows names.now }) ≡ true) }
{
    let AgentText {
        name,
        home,
        start,
        rule,
    } = agent;
    accepted_texts_are_rules();
    match parse(alloc, rule.as_str(), names, version) {
        Ok(program) => Ok(AgentPart {
            name,
            home,
            start,
            program,
        }),
        Err(RuleFault::Memory) => Err(ScenarioFault::Memory),
        Err(fault) => Err(ScenarioFault::Rule {
            agent: index,
            fault,
        }),
    }
}

/// The agents with their rules, in that version of the rule language.
#[tactic(auto, using(crate::proofs::Walks::walk_laws), unfolding(crate::specs::Scenarios::agent_parts))]
fn agent_parts(
    alloc: Global,
    names: &Names<'_>,
    version: u32,
    agents: List<AgentText>,
) -> Result<List<AgentPart>, ScenarioFault>
    requires vars { length names.now.vars ≡ var_count (class_rows names.now) }
    requires few { length agents < 2 ^ 32 }
    ensures parts { Gives result (agent_parts names.now version 0 agents) }
    ensures fit { IfOk result (λ ps.
        list_all (λ (a : Agent). fits a.program (record { classes = class_rows names.now })) ps ≡ true) }
{
    let mut parts = List::new(alloc);
    let mut index = 0;
    for agent in agents.into_vec() {
        let part = agent_part(alloc, names, version, index, agent)?;
        parts.push(part)?;
        index += 1;
    }
    Ok(parts)
}

/// The parts of a plan: the rules are parsed in the order of the agents.
#[tactic(auto, unfolding(crate::specs::Scenarios::parts_of))]
pub fn parts_of(alloc: Global, draft: Draft) -> Result<PlanParts, ScenarioFault>
    requires few { IsFew draft }
    ensures parts { Gives result (parts_of draft) }
    ensures few { IfOk result (λ parts. length (all_vars parts.classes) < 2 ^ 32) }
    ensures fit { IfOk result (λ parts. rules_fit parts.classes parts.agents ≡ true) }
{
    let classes = named_rows(alloc, draft.classes.as_slice())?;
    let vars = var_names(alloc, draft.classes.as_slice())?;
    let names = Names::make(alloc, &classes, &vars)?;
    let agents = agent_parts(alloc, &names, draft.version.number(), draft.agents)?;
    Ok(PlanParts {
        horizon: draft.horizon,
        move_after: draft.move_after,
        clps: draft.clps,
        classes: draft.classes,
        agents,
    })
}
