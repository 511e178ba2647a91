// Records from plain lists, and back.
ghost use Rattle.std.specs.Prelude.{◌≡◌, ◌++◌, [], false, IfOk, OnOk, OnErr, map};
ghost use Rattle.std.specs.List.{AllByRecursion};
ghost use Rattle.std.specs.Option.{option_to_list};
ghost use Rattle.pm_periods.specs.Laid.{cut_of, puts_of, reads_of, withdrawn_of};
ghost use Rattle.pm_periods.specs.Received.{cuts_received, puts_received, reads_entered};
ghost use Rattle.pm_periods.specs.Records.{record_with, settled, with_hit, with_parts};
ghost use Rattle.pm_periods.specs.Rows.{AreDistinct, IsInOrder, add_rows, has_num, put_key, read_key};

use crate::VarRecord;
use crate::held::{Held, hit_in};
use crate::record::Withdrawal;
use crate::rows::{add, in_order};
use pm_base::{CutRow, List, Memory, Parts, PutRow, ReadRow, Value};
use std::alloc::Global;

impl VarRecord {
    /// The record as plain lists, of which `from_parts` makes the same record.
    pub fn to_parts(&self, alloc: Global) -> Result<Parts, Memory>
        ensures { IfOk result (λ parts. parts ≡ self.now.parts) }
    {
        let periods = self.periods.as_slice();
        let withdrawals = self.withdrawals.as_slice();
        Ok(Parts {
            base: periods[0].value,
            puts: List::from_vec(puts_of(alloc, periods, withdrawals)?),
            cuts: List::from_vec(cuts_of(alloc, withdrawals)?),
            reads: List::from_vec(reads_of(alloc, periods)?),
        })
    }

    /// The record as plain lists, of which `from_parts` makes the same record.
    pub fn into_parts(self, alloc: Global) -> Result<Parts, Memory>
        ensures { IfOk result (λ parts. parts ≡ self.parts) }
    {
        self.to_parts(alloc)
    }

    /// The settled record of any lists: each in order, the first row of each number, and each read with the hit that
    /// it has in this record, its turn as it was.
    pub fn from_parts(alloc: Global, var: u32, parts: &Parts) -> Result<VarRecord, Memory>
        ensures { IfOk result (λ made. made ≡ record_with var (settled parts.now)) }
    {
        let cuts = in_order(alloc, parts.cuts.as_slice())?;
        let puts = in_order(alloc, parts.puts.as_slice())?;
        let reads = in_order(alloc, parts.reads.as_slice())?;
        let mut made = VarRecord::new(alloc, var, parts.base)?;
        receive_cuts(alloc, &mut made, cuts.as_slice())?;
        receive_puts(alloc, &mut made, puts.as_slice())?;
        enter_reads(&mut made, reads.as_slice())?;
        Ok(made)
    }
}

// Receives the cuts, before there are reads.
fn receive_cuts(alloc: Global, made: &mut VarRecord, cuts: &[CutRow]) -> Result<(), Memory>
    requires { made.old.parts.reads ≡ [] }
    ensures ok { OnOk result (made.new ≡ with_parts made.old (cuts_received cuts.now made.old.parts)) }
    ensures reads { OnOk result (made.new.parts.reads ≡ []) }
{
    for cut in cuts {
        made.cut(alloc, cut.num, cut.stamp)?;
    }
    Ok(())
}

// Receives the puts, before there are reads.
fn receive_puts(alloc: Global, made: &mut VarRecord, puts: &[PutRow]) -> Result<(), Memory>
    requires { made.old.parts.reads ≡ [] }
    ensures ok { OnOk result (made.new ≡ with_parts made.old (puts_received puts.now made.old.parts)) }
    ensures reads { OnOk result (made.new.parts.reads ≡ []) }
{
    for row in puts {
        made.put(alloc, *row)?;
    }
    Ok(())
}

// The read with the hit of that value.
fn with_value(value: Value, q: &ReadRow) -> ReadRow
    ensures { result ≡ with_hit (λ _. value) q.now }
{
    ReadRow {
        num: q.num,
        stamp: q.stamp,
        window: q.window,
        turn: q.turn,
        hit: hit_in(value, &q.window),
    }
}

// Enters the reads with their turns, each with the hit that it has.
fn enter_reads(made: &mut VarRecord, reads: &[ReadRow]) -> Result<(), Memory>
    requires new { AllByRecursion (λ (q : ReadRow). has_num read_key q.num made.old.parts.reads ≡ false) reads.now }
    requires once { AreDistinct read_key reads.now }
    ensures ok { OnOk result (made.new ≡ with_parts made.old (reads_entered reads.now made.old.parts)) }
{
    for q in reads {
        let row = with_value(made.value_at(q.stamp), q);
        made.enter(row)?;
    }
    Ok(())
}

// Puts a put in its place among the others, if there is one.
fn add_if(puts: &mut Vec<PutRow>, put: &Option<PutRow>) -> Result<(), Memory>
    requires { IsInOrder put_key puts.old.items }
    ensures ok { OnOk result (puts.new.items ≡ add_rows put_key puts.old.items (option_to_list put.now)) }
{
    match put {
        Some(row) => add(puts, *row),
        None => Ok(()),
    }
}

// Puts the writes of the periods in their places.
fn add_live(puts: &mut Vec<PutRow>, periods: &[Held]) -> Result<(), Memory>
    requires { IsInOrder put_key puts.old.items }
    ensures ok { OnOk result (puts.new.items ≡ add_rows put_key puts.old.items (puts_of periods.now)) }
    ensures order { OnOk result (IsInOrder put_key puts.new.items) }
{
    for h in periods {
        add_if(puts, &h.put)?;
    }
    Ok(())
}

// Puts the withdrawn puts in their places.
fn add_withdrawn(puts: &mut Vec<PutRow>, withdrawals: &[Withdrawal]) -> Result<(), Memory>
    requires { IsInOrder put_key puts.old.items }
    ensures ok { OnOk result (puts.new.items ≡ add_rows put_key puts.old.items (withdrawn_of withdrawals.now)) }
{
    for w in withdrawals {
        add_if(puts, &w.put)?;
    }
    Ok(())
}

// The puts in the order of the record's lists.
fn puts_of(
    alloc: Global,
    periods: &[Held],
    withdrawals: &[Withdrawal],
) -> Result<Vec<PutRow>, Memory>
    ensures { IfOk result (λ puts. puts.items ≡
        add_rows put_key [] (puts_of periods.now ++ withdrawn_of withdrawals.now)) }
{
    let mut puts = Vec::new(alloc);
    add_live(&mut puts, periods)?;
    add_withdrawn(&mut puts, withdrawals)?;
    Ok(puts)
}

fn cuts_of(alloc: Global, withdrawals: &[Withdrawal]) -> Result<Vec<CutRow>, Memory>
    ensures { IfOk result (λ cuts. cuts.items ≡ map cut_of withdrawals.now) }
{
    let mut cuts = Vec::with_capacity(alloc, withdrawals.len())?;
    for w in withdrawals {
        cuts.push(w.cut)?;
    }
    Ok(cuts)
}

fn reads_of(alloc: Global, periods: &[Held]) -> Result<Vec<ReadRow>, Memory>
    ensures { IfOk result (λ reads. reads.items ≡ reads_of periods.now) }
{
    let mut reads = Vec::new(alloc);
    for h in periods {
        reads.extend_from_slice(h.reads.as_slice())?;
    }
    Ok(reads)
}
