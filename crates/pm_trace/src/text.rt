ghost use Rattle.std.specs.Prelude.{◌≡◌, ◌++◌, ℤ, IfOk, OnOk, codes, decimal};
ghost use Rattle.std.specs.Fmt.{signed_decimal};
ghost use Rattle.std.specs.List.{flat_map};
ghost use Rattle.pm_model.specs.Traces.{var_name, agent_name, value_text, hit_text, hits_text, answer_text};
ghost use Rattle.pm_model.specs.Traces.{change_text, write_text, line, end_line};

use itoa::Buffer;
use pm_base::{Change, Entry, Hit, List, Memory, Value, Write};
use pm_plan::Plan;
use std::alloc::Global;

fn add(out: &mut Vec<u8>, bytes: &[u8]) -> Result<(), Memory>
    ensures { OnOk result (out.new.items ≡ out.old.items ++ bytes.now) }
{
    out.extend_from_slice(bytes)?;
    Ok(())
}

fn add_count(out: &mut Vec<u8>, n: u64) -> Result<(), Memory>
    ensures { OnOk result (out.new.items ≡ out.old.items ++ decimal n) }
{
    let mut buffer = Buffer::new();
    add(out, buffer.format(n).as_bytes())
}

fn add_number(out: &mut Vec<u8>, n: i64) -> Result<(), Memory>
    ensures { OnOk result (out.new.items ≡ out.old.items ++ signed_decimal n) }
{
    let mut buffer = Buffer::new();
    add(out, buffer.format(n).as_bytes())
}

fn add_value(out: &mut Vec<u8>, value: Value) -> Result<(), Memory>
    ensures { OnOk result (out.new.items ≡ out.old.items ++ value_text value) }
{
    add_number(out, value.x)?;
    add(out, b",")?;
    add_number(out, value.y)
}

fn var_name(plan: &Plan, var: u32) -> &str
    ensures { result.now ≡ var_name plan.now var }
{
    match plan.vars.as_slice().get(var as usize) {
        Some(row) => row.name.as_str(),
        None => "",
    }
}

fn agent_name(plan: &Plan, agent: u32) -> &str
    ensures { result.now ≡ agent_name plan.now agent }
{
    match plan.agents.as_slice().get(agent as usize) {
        Some(row) => row.name.as_str(),
        None => "",
    }
}

fn add_hit(out: &mut Vec<u8>, plan: &Plan, hit: Hit) -> Result<(), Memory>
    ensures { OnOk result (out.new.items ≡ out.old.items ++ hit_text plan.now hit) }
{
    add(out, var_name(plan, hit.var).as_bytes())?;
    add(out, b"=")?;
    add_value(out, hit.value)
}

fn add_more_hits(out: &mut Vec<u8>, plan: &Plan, hits: &[Hit]) -> Result<(), Memory>
    ensures { OnOk result (out.new.items ≡
        out.old.items ++ flat_map (λ h. codes ";" ++ hit_text plan.now h) hits.now) }
{
    for hit in hits {
        add(out, b";")?;
        add_hit(out, plan, *hit)?;
    }
    Ok(())
}

fn add_hits(out: &mut Vec<u8>, plan: &Plan, hits: &[Hit]) -> Result<(), Memory>
    ensures { OnOk result (out.new.items ≡ out.old.items ++ hits_text plan.now hits.now) }
{
    match hits {
        [] => Ok(()),
        [hit, more @ ..] => {
            add_hit(out, plan, *hit)?;
            add_more_hits(out, plan, more)
        }
    }
}

fn add_answer(out: &mut Vec<u8>, plan: &Plan, hits: &[Hit]) -> Result<(), Memory>
    ensures { OnOk result (out.new.items ≡ out.old.items ++ answer_text plan.now hits.now) }
{
    add(out, b" [")?;
    add_hits(out, plan, hits)?;
    add(out, b"]")
}

fn add_answers(out: &mut Vec<u8>, plan: &Plan, answers: &[List<Hit>]) -> Result<(), Memory>
    ensures { OnOk result (out.new.items ≡ out.old.items ++ flat_map (answer_text plan.now) answers.now) }
{
    for hits in answers {
        add_answer(out, plan, hits.as_slice())?;
    }
    Ok(())
}

fn add_change(out: &mut Vec<u8>, change: Change) -> Result<(), Memory>
    ensures { OnOk result (out.new.items ≡ out.old.items ++ change_text change) }
{
    match change {
        Change::Set(value) => {
            add(out, b":=")?;
            add_value(out, value)
        }
        Change::Add(value) => {
            add(out, b"+=")?;
            add_value(out, value)
        }
    }
}

fn add_write(out: &mut Vec<u8>, plan: &Plan, write: Write) -> Result<(), Memory>
    ensures { OnOk result (out.new.items ≡ out.old.items ++ write_text plan.now write) }
{
    add(out, b" ")?;
    add(out, var_name(plan, write.var).as_bytes())?;
    add_change(out, write.change)
}

fn add_writes(out: &mut Vec<u8>, plan: &Plan, writes: &[Write]) -> Result<(), Memory>
    ensures { OnOk result (out.new.items ≡ out.old.items ++ flat_map (write_text plan.now) writes.now) }
{
    for write in writes {
        add_write(out, plan, *write)?;
    }
    Ok(())
}

/// The line of an entry.
pub fn line(alloc: Global, plan: &Plan, entry: &Entry) -> Result<Vec<u8>, Memory>
    ensures { IfOk result (λ v. v.items ≡ line plan.now entry.now) }
{
    let mut out = Vec::new(alloc);
    add_count(&mut out, entry.stamp.time)?;
    add(&mut out, b" ")?;
    add(&mut out, agent_name(plan, entry.stamp.agent).as_bytes())?;
    add_answers(&mut out, plan, entry.answers.as_slice())?;
    add_writes(&mut out, plan, entry.writes.as_slice())?;
    add(&mut out, b"\n")?;
    Ok(out)
}

/// The line that ends a trace.
pub fn end_line(alloc: Global, steps: u64) -> Result<Vec<u8>, Memory>
    ensures { IfOk result (λ v. v.items ≡ end_line steps) }
{
    let mut out = Vec::from_slice(alloc, b"end ")?;
    add_count(&mut out, steps)?;
    add(&mut out, b"\n")?;
    Ok(out)
}
