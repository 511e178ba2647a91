// What the names in a plan's rules stand for.
ghost use Rattle.std.specs.Prelude.{◌≡◌, IfOk, map};
ghost use Rattle.std.specs.List.{zip};

use pm_base::{ClassRow, List, Memory, Name};
use pm_plan::Plan;
use std::alloc::Global;

/// The classes with their names.
pub fn class_rows(alloc: Global, plan: &Plan) -> Result<List<(Name, ClassRow)>, Memory>
    ensures { IfOk result (λ rows. rows ≡ zip plan.now.classes plan.now.layout.classes) }
{
    let mut rows = List::new(alloc);
    for (i, name) in plan.classes.as_slice().iter().enumerate() {
        let Some(class) = plan.layout.classes.get(i) else {
            return Ok(rows);
        };
        rows.push((name.copy(alloc)?, *class))?;
    }
    Ok(rows)
}

/// The names of the variables.
pub fn var_names(alloc: Global, plan: &Plan) -> Result<List<Name>, Memory>
    ensures { IfOk result (λ names. names ≡ map (λ v. v.name) plan.now.vars) }
{
    let mut names = List::new(alloc);
    for row in plan.vars.as_slice() {
        names.push(row.name.copy(alloc)?)?;
    }
    Ok(names)
}
