ghost use Rattle.std.specs.Prelude.{◌≡◌, ◌<◌, ◌^◌, Ok, Some, IfOk, string_bytes};
ghost use Rattle.std.specs.List.{AllByRecursion};
ghost use Rattle.toml.specs.Parse.{parse_document};
ghost use Rattle.toml.specs.View.{items_view, table_view};
ghost use Rattle.pm_plan.specs.Plans.{IsValid};
ghost use Rattle.pm_scenario.specs.Scenarios.{plan_of};
ghost use Rattle.pm_upgrade.specs.Documents.{agent_members, items_of, root_members};
ghost use Rattle.pm_upgrade.specs.Drafts.{draft_of_plan, names_of};
ghost use Rattle.pm_upgrade.specs.Rows.{IsReadBack};

use crate::names::{class_rows, var_names};
use crate::rows::{agent_tables, class_tables, clp_tables};
use crate::tables::{put, put_count};
use pm_base::Memory;
use pm_plan::Plan;
use pm_rules::Names;
use std::alloc::Global;
use toml::value::Array;
use toml::{Table, Value};

/// The tables of the agents, and that each rule reads back.
fn agents(alloc: Global, plan: &Plan) -> Result<Array, Memory>
    requires { IsValid plan.now }
    ensures tables { IfOk result (λ v. items_view v.items ≡ items_of agent_members (draft_of_plan plan.now).agents) }
    ensures read { IfOk result (λ _. AllByRecursion (IsReadBack (names_of plan.now)) plan.now.agents) }
{
    let classes = class_rows(alloc, plan)?;
    let vars = var_names(alloc, plan)?;
    let names = Names::make(alloc, &classes, &vars)?;
    agent_tables(alloc, plan, &names)
}

/// The document of a plan.
#[tactic(auto, unfolding(crate::specs::Documents::root_members))]
fn root(alloc: Global, plan: &Plan) -> Result<Table, Memory>
    requires valid { IsValid plan.now }
    requires move_after { plan.now.move_after < 2 ^ 63 }
    ensures table { IfOk result (λ t. table_view t ≡ root_members (draft_of_plan plan.now)) }
    ensures read { IfOk result (λ _. AllByRecursion (IsReadBack (names_of plan.now)) plan.now.agents) }
{
    let mut table = Table::new(alloc);
    put_count(alloc, &mut table, "version", 2)?;
    put_count(alloc, &mut table, "horizon", plan.horizon)?;
    put_count(alloc, &mut table, "move_after", plan.move_after)?;
    let clps = clp_tables(alloc, plan)?;
    put(alloc, &mut table, "clp", Value::Array(clps))?;
    let classes = class_tables(alloc, plan)?;
    put(alloc, &mut table, "class", Value::Array(classes))?;
    let agents = agents(alloc, plan)?;
    put(alloc, &mut table, "agent", Value::Array(agents))?;
    Ok(table)
}

/// The text of a plan: a scenario of version 2 with every key, `parent` only where a process has one, and each rule in
/// its printed form. Reading it gives the plan again.
///
/// # Errors
///
/// Want of memory alone.
pub fn print_plan(alloc: Global, plan: &Plan) -> Result<String, Memory>
    requires valid { IsValid plan.now }
    requires move_after { plan.now.move_after < 2 ^ 63 }
    ensures document { IfOk result (λ s.
        parse_document (string_bytes s) ≡ Some (root_members (draft_of_plan plan.now))) }
    ensures again { IfOk result (λ s. plan_of (string_bytes s) ≡ Ok plan.now) }
{
    let table = root(alloc, plan)?;
    match toml::table_to_string(alloc, &table) {
        Ok(text) => {
            let _ = text.as_str();
            Ok(text)
        }
        Err(_) => Err(Memory),
    }
}
