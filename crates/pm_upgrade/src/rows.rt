// Tables of a document, from the rows of a plan.
ghost use Rattle.std.specs.Prelude.{◌≡◌, IfOk, drop, map, take};
ghost use Rattle.std.specs.List.{AllByRecursion};
ghost use Rattle.toml.specs.View.{items_view, table_view};
ghost use Rattle.pm_plan.specs.Numbers.{name_at};
ghost use Rattle.pm_plan.specs.Plans.{own_agent, own_classes, own_clp, own_var};
ghost use Rattle.pm_print.specs.Printing.{IsNamed};
ghost use Rattle.pm_rules.specs.Grammar.{IsTable};
ghost use Rattle.pm_upgrade.specs.Documents.{agent_members, class_members, clp_members, items_of, var_members};
ghost use Rattle.pm_upgrade.specs.Drafts.{clp_names, with_text};
ghost use Rattle.pm_upgrade.specs.Rows.{IsPrintable, IsReadBack};

use crate::tables::{put, put_count, put_number, put_text};
use pm_base::{ClassRow, Memory, Name};
use pm_plan::{AgentRow, ClpRow, Plan, VarRow};
use pm_rules::Names;
use std::alloc::Global;
use toml::value::Array;
use toml::{Table, Value};

/// The name of that communication process.
fn clp_name(plan: &Plan, clp: u32) -> &str
    ensures { result.now ≡ name_at (clp_names plan.now) clp }
{
    match plan.clps.get(clp as usize) {
        Some(row) => row.name.as_str(),
        None => "",
    }
}

fn clp_table(alloc: Global, plan: &Plan, row: &ClpRow) -> Result<Table, Memory>
    ensures { IfOk result (λ t. table_view t ≡ clp_members (own_clp (clp_names plan.now) row.now)) }
{
    let mut table = Table::new(alloc);
    put_text(alloc, &mut table, "name", row.name.as_str())?;
    let Some(parent) = row.parent else {
        return Ok(table);
    };
    put_text(alloc, &mut table, "parent", clp_name(plan, parent))?;
    Ok(table)
}

/// The tables of the communication processes.
pub fn clp_tables(alloc: Global, plan: &Plan) -> Result<Array, Memory>
    ensures { IfOk result (λ v. items_view v.items ≡
        items_of clp_members (map (own_clp (clp_names plan.now)) plan.now.clps)) }
{
    let mut tables = Vec::new(alloc);
    for row in plan.clps.as_slice() {
        tables.push(Value::Table(clp_table(alloc, plan, row)?))?;
    }
    Ok(tables)
}

fn var_table(alloc: Global, plan: &Plan, row: &VarRow) -> Result<Table, Memory>
    ensures { IfOk result (λ t. table_view t ≡ var_members (own_var (clp_names plan.now) row.now)) }
{
    let mut table = Table::new(alloc);
    put_text(alloc, &mut table, "name", row.name.as_str())?;
    put_text(alloc, &mut table, "at", clp_name(plan, row.at))?;
    put_number(alloc, &mut table, "x", row.value.x)?;
    put_number(alloc, &mut table, "y", row.value.y)?;
    Ok(table)
}

fn var_tables(alloc: Global, plan: &Plan, rows: &[VarRow]) -> Result<Array, Memory>
    ensures { IfOk result (λ v. items_view v.items ≡
        items_of var_members (map (own_var (clp_names plan.now)) rows.now)) }
{
    let mut tables = Vec::new(alloc);
    for row in rows {
        tables.push(Value::Table(var_table(alloc, plan, row)?))?;
    }
    Ok(tables)
}

/// The variables of a class.
fn members<'a>(vars: &'a [VarRow], class: &ClassRow) -> &'a [VarRow]
    ensures { result.now ≡ take class.now.count (drop class.now.first vars.now) }
{
    let first = (class.first as usize).min(vars.len());
    let rest = &vars[first..];
    let count = (class.count as usize).min(rest.len());
    &rest[..count]
}

/// The tables of a class's variables.
fn member_tables(alloc: Global, plan: &Plan, class: &ClassRow) -> Result<Array, Memory>
    ensures { IfOk result (λ v. items_view v.items ≡ items_of var_members
        (take class.now.count (drop class.now.first (map (own_var (clp_names plan.now)) plan.now.vars)))) }
{
    let vars = members(plan.vars.as_slice(), class);
    let tables = var_tables(alloc, plan, vars)?;
    Ok(tables)
}

fn class_table(alloc: Global, plan: &Plan, name: &Name, class: &ClassRow) -> Result<Table, Memory>
    ensures { IfOk result (λ t. table_view t ≡ class_members (record {
      name = name.now;
      vars = take class.now.count (drop class.now.first (map (own_var (clp_names plan.now)) plan.now.vars));
    })) }
{
    let mut table = Table::new(alloc);
    put_text(alloc, &mut table, "name", name.as_str())?;
    let tables = member_tables(alloc, plan, class)?;
    put(alloc, &mut table, "var", Value::Array(tables))?;
    Ok(table)
}

/// The tables of the classes.
pub fn class_tables(alloc: Global, plan: &Plan) -> Result<Array, Memory>
    ensures { IfOk result (λ v. items_view v.items ≡ items_of class_members
        (own_classes plan.now.classes plan.now.layout.classes (map (own_var (clp_names plan.now)) plan.now.vars))) }
{
    let mut tables = Vec::new(alloc);
    for (i, name) in plan.classes.as_slice().iter().enumerate() {
        let Some(class) = plan.layout.classes.get(i) else {
            return Ok(tables);
        };
        tables.push(Value::Table(class_table(alloc, plan, name, class)?))?;
    }
    Ok(tables)
}

fn agent_table(
    alloc: Global,
    plan: &Plan,
    names: &Names<'_>,
    row: &AgentRow,
) -> Result<Table, Memory>
    requires table { IsTable names.now }
    requires named { IsNamed names.now }
    requires ready { IsPrintable names.now row.now }
    ensures table { IfOk result (λ t. table_view t ≡
        agent_members (with_text names.now (own_agent (clp_names plan.now) row.now))) }
    ensures reads { IfOk result (λ _. IsReadBack names.now row.now) }
{
    let rule = pm_print::print(alloc, &row.program, names)?;
    let mut table = Table::new(alloc);
    put_text(alloc, &mut table, "name", row.name.as_str())?;
    put_text(alloc, &mut table, "home", clp_name(plan, row.home))?;
    put_count(alloc, &mut table, "start", row.start)?;
    put_text(alloc, &mut table, "rule", rule.as_str())?;
    Ok(table)
}

/// The tables of the agents.
pub fn agent_tables(alloc: Global, plan: &Plan, names: &Names<'_>) -> Result<Array, Memory>
    requires table { IsTable names.now }
    requires named { IsNamed names.now }
    requires ready { AllByRecursion (IsPrintable names.now) plan.now.agents }
    ensures tables { IfOk result (λ v. items_view v.items ≡ items_of agent_members
        (map (λ row. with_text names.now (own_agent (clp_names plan.now) row)) plan.now.agents)) }
    ensures read { IfOk result (λ _. AllByRecursion (IsReadBack names.now) plan.now.agents) }
{
    let mut tables = Vec::new(alloc);
    for row in plan.agents.as_slice() {
        tables.push(Value::Table(agent_table(alloc, plan, names, row)?))?;
    }
    Ok(tables)
}
