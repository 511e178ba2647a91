ghost use Rattle.std.specs.Prelude.{◌≡◌, [], ◌∷◌, ◌++◌, map, IfOk, OnOk};
ghost use Rattle.pm_base.specs.declared.run.Event.TheVariants as event;
ghost use Rattle.pm_history.specs.Merged.{deliver, in_order, merged, tag, tags};

use crate::histories::History;
use pm_base::{Event, Journal, List, Memory};
use std::alloc::Global;

// A receipt with its process: its clock, the process, and whose message it was. Tuples are compared in this order.
type Tagged = (u64, u32, u32);

// The receipts of one history, each with its process.
fn gather_one(tagged: &mut Vec<Tagged>, history: &History) -> Result<(), Memory>
    ensures { OnOk result (tagged.new.items ≡ tagged.old.items ++ map (tag history.now.process) history.now.heard) }
{
    let process = history.process();
    for heard in history.heard().as_slice() {
        tagged.push((heard.clock, process, heard.from))?;
    }
    Ok(())
}

// All receipts.
fn gather(alloc: Global, histories: &[History]) -> Result<Vec<Tagged>, Memory>
    ensures { IfOk result (λ r. r.items ≡ tags histories.now) }
{
    let mut tagged = Vec::new(alloc);
    for k in 0..histories.len() {
        gather_one(&mut tagged, &histories[k])?;
    }
    Ok(tagged)
}

// Puts receipts in order.
fn order(tagged: &mut Vec<Tagged>)
    ensures { tagged.new.items ≡ in_order tagged.old.items }
{
    tagged.sort_unstable();
}

// A delivery for each.
fn deliveries(alloc: Global, tagged: &[Tagged]) -> Result<Journal, Memory>
    ensures { IfOk result (λ j. j ≡ map deliver tagged.now) }
{
    let mut journal = Vec::with_capacity(alloc, tagged.len())?;
    for k in 0..tagged.len() {
        let (_, to, from) = tagged[k];
        journal.push_reserved(Event::Deliver { to, from });
    }
    Ok(List::from_vec(journal))
}

/// One delivery for each receipt of these histories, in order of their clocks, and of the processes at one clock. It
/// takes n log n steps for n receipts.
pub fn merge(alloc: Global, histories: &List<History>) -> Result<Journal, Memory>
    ensures { IfOk result (λ j. j ≡ merged histories.now) }
{
    let mut tagged = gather(alloc, histories.as_slice())?;
    order(&mut tagged);
    deliveries(alloc, tagged.as_slice())
}

/// A law of the definition, by one row: of two receipts with one clock the lower process's comes first.
pub fn worked_merge()
    ensures { merged (record { process = 1; heard = record { clock = 2; from = 1 } ∷ [] } ∷
        record { process = 0; heard = record { clock = 2; from = 1 } ∷ record { clock = 4; from = 1 } ∷ [] } ∷ [])
        ≡ event.Deliver 0 1 ∷ event.Deliver 1 1 ∷ event.Deliver 0 1 ∷ [] }
{}
