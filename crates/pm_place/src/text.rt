ghost use Rattle.std.specs.Prelude.{◌≡◌, ◌++◌, IfOk, OnOk, decimal};
ghost use Rattle.pm_model.specs.Traces.{var_name};
ghost use Rattle.pm_place.specs.Texts.{clp_name, place_line, place_lines, placing_text, total_line};

use crate::Placing;
use itoa::Buffer;
use pm_base::Memory;
use pm_plan::Plan;
use std::alloc::Global;

fn add(out: &mut Vec<u8>, text: &str) -> Result<(), Memory>
    ensures { OnOk result (out.new.items ≡ out.old.items ++ text.now) }
{
    out.extend_from_slice(text.as_bytes())?;
    Ok(())
}

fn add_number(out: &mut Vec<u8>, n: u64) -> Result<(), Memory>
    ensures { OnOk result (out.new.items ≡ out.old.items ++ decimal n) }
{
    let mut buffer = Buffer::new();
    add(out, buffer.format(n))
}

fn var_name(plan: &Plan, var: usize) -> &str
    ensures { result.now ≡ var_name plan.now var }
{
    match plan.vars.as_slice().get(var) {
        Some(row) => row.name.as_str(),
        None => "",
    }
}

fn clp_name(plan: &Plan, clp: u32) -> &str
    ensures { result.now ≡ clp_name plan.now clp }
{
    match plan.clps.as_slice().get(clp as usize) {
        Some(row) => row.name.as_str(),
        None => "",
    }
}

fn add_line(out: &mut Vec<u8>, plan: &Plan, var: usize, clp: u32, cost: u64) -> Result<(), Memory>
    ensures { OnOk result (out.new.items ≡ out.old.items ++ place_line plan.now var clp cost) }
{
    add(out, "place ")?;
    add(out, var_name(plan, var))?;
    add(out, " ")?;
    add(out, clp_name(plan, clp))?;
    add(out, " ")?;
    add_number(out, cost)?;
    add(out, "\n")
}

fn add_lines(out: &mut Vec<u8>, plan: &Plan, at: &[u32], costs: &[u64]) -> Result<(), Memory>
    ensures { OnOk result (out.new.items ≡ out.old.items ++ place_lines plan.now 0 at.now costs.now) }
{
    for (var, clp) in at.iter().enumerate() {
        let Some(cost) = costs.get(var) else {
            return Ok(());
        };
        add_line(out, plan, var, *clp, *cost)?;
    }
    Ok(())
}

fn add_total(out: &mut Vec<u8>, total: u64) -> Result<(), Memory>
    ensures { OnOk result (out.new.items ≡ out.old.items ++ total_line total) }
{
    add(out, "total ")?;
    add_number(out, total)?;
    add(out, "\n")
}

/// The text of a placing: `place VAR CLP COST` for each variable in order, and `total N`.
///
/// # Errors
///
/// Want of memory alone.
pub fn placing_text(alloc: Global, plan: &Plan, placing: &Placing) -> Result<Vec<u8>, Memory>
    ensures { IfOk result (λ v. v.items ≡ placing_text plan.now placing.now) }
{
    let mut out = Vec::new(alloc);
    add_lines(
        &mut out,
        plan,
        placing.at.as_slice(),
        placing.costs.as_slice(),
    )?;
    add_total(&mut out, placing.total)?;
    Ok(out)
}
