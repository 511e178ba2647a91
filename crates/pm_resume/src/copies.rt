ghost use Rattle.std.specs.Prelude.{◌≡◌, IfOk};

use pm_base::{ClassRow, Layout, List, Memory, Name};
use pm_plan::ClpRow;
use std::alloc::Global;

/// Equal communication processes.
pub fn copy_clps(alloc: Global, rows: &[ClpRow]) -> Result<List<ClpRow>, Memory>
    ensures { IfOk result (λ all. all ≡ rows.now) }
{
    let mut all = List::new(alloc);
    for row in rows {
        all.push(ClpRow {
            name: row.name.copy(alloc)?,
            parent: row.parent,
        })?;
    }
    Ok(all)
}

fn copy_rows(alloc: Global, rows: &[ClassRow]) -> Result<List<ClassRow>, Memory>
    ensures { IfOk result (λ all. all ≡ rows.now) }
{
    let mut all = List::new(alloc);
    for row in rows {
        all.push(*row)?;
    }
    Ok(all)
}

/// An equal layout.
pub fn copy_layout(alloc: Global, layout: &Layout) -> Result<Layout, Memory>
    ensures { IfOk result (λ all. all ≡ layout.now) }
{
    Ok(Layout {
        classes: copy_rows(alloc, layout.classes.as_slice())?,
    })
}

/// Equal names.
pub fn copy_names(alloc: Global, names: &[Name]) -> Result<List<Name>, Memory>
    ensures { IfOk result (λ all. all ≡ names.now) }
{
    let mut all = List::new(alloc);
    for name in names {
        all.push(name.copy(alloc)?)?;
    }
    Ok(all)
}
