// The records of the variables that are here.
ghost use Rattle.std.specs.Prelude.{◌≡◌, ◌+◌, ◌-◌, ◌<◌, ◌≤◌, ◌^◌, ℕ, true, false, suc, get_or, set, length, map, min};
ghost use Rattle.std.specs.Prelude.{IfOk, OnOk, OnErr, None, Some};
ghost use Rattle.std.specs.Option.{option_to_list};
ghost use Rattle.pm_clp.specs.Clps.{first_records, option_trim, put_row, rec_at, take_cut, take_put, take_watch};
ghost use Rattle.pm_clp.specs.Kept.{HaveTurnsIn, IsRecordOf, TurnsUpTo, first_each, first_kept, gives_after};
ghost use Rattle.pm_clp.specs.Kept.{kept_after, kept_watched, parts_in};
ghost use Rattle.pm_clp.specs.Kept.{periods_in, received, received_gives, trimmed_in};
ghost use Rattle.pm_clp.specs.Laid.{IsBare, in_set};
ghost use Rattle.pm_clp.specs.Sizes.{rows_in, rows_of};
ghost use Rattle.pm_periods.specs.Records.{cut_row};

use crate::var_set::VarSet;
use pm_base::{CutRow, GiveRow, Line, List, Memory, Num, Period, PutRow, Stamp, Value, Window};
use pm_periods::{VarRecord, records_are_settled};
use pm_routes::Way;
use std::alloc::Global;
use std::marker::Model;

/// The records that are here, by variable: a slot for each variable, and two sets, the variables that are here
/// and those whose record has rows. Contracts see the parts of the records, and a number that no turn is above.
#[derive(Debug, Drop)]
pub struct Records {
    each: Vec<Option<VarRecord>>,
    here: VarSet,
    busy: VarSet,
    limit: u64,
}

impl Model for Records {
    ghost use Rattle.pm_clp.specs.Kept.{Kept, kept_of};
    ghost use Rattle.pm_clp.specs.Laid.{AreLaid, in_set};

    ghost Value = { Kept };

    ghost view = { λ r. kept_of r.each.items r.limit };

    ghost invariant = { λ r. AreLaid r.each.items r.limit (in_set r.here) (in_set r.busy) };
}

impl Records {
    /// A write, to the variable's record where it is here.
    pub fn put(&mut self, alloc: Global, var: u32, row: PutRow) -> Result<List<GiveRow>, Memory>
        requires { self.old.limit < 2 ^ 62 }
        ensures ok { OnOk result (self.new ≡ kept_after (take_put var row) var self.old) }
        ensures gives { IfOk result (λ gives. gives ≡ gives_after (take_put var row) (rec_at self.old.recs var)) }
        ensures limit { self.new.limit ≡ suc self.old.limit }
    {
        self.limit += 1;
        let at = var as usize;
        if at >= self.each.len() {
            return Ok(List::new(alloc));
        }
        self.busy.add(var)?;
        put_in(&mut self.each[at], alloc, row)
    }

    /// A withdrawal, to the variable's record where it is here.
    pub fn cut(&mut self, alloc: Global, var: u32, row: CutRow) -> Result<List<GiveRow>, Memory>
        requires { self.old.limit < 2 ^ 62 }
        ensures ok { OnOk result (self.new ≡ kept_after (take_cut var row) var self.old) }
        ensures gives { IfOk result (λ gives. gives ≡ gives_after (take_cut var row) (rec_at self.old.recs var)) }
        ensures limit { self.new.limit ≡ suc self.old.limit }
    {
        self.limit += 1;
        let at = var as usize;
        if at >= self.each.len() {
            return Ok(List::new(alloc));
        }
        self.busy.add(var)?;
        cut_in(&mut self.each[at], alloc, row)
    }

    /// A read, by the variable's record where it is here.
    pub fn watch(
        &mut self,
        alloc: Global,
        var: u32,
        num: Num,
        stamp: Stamp,
        window: Window,
    ) -> Result<Option<GiveRow>, Memory>
        ensures ok { OnOk result (self.new ≡ kept_watched (take_watch var num stamp window) var self.old) }
        ensures gives { IfOk result (λ give. option_to_list give ≡
            gives_after (take_watch var num stamp window) (rec_at self.old.recs var)) }
        ensures limit { self.new.limit ≡ self.old.limit }
    {
        let at = var as usize;
        if at >= self.each.len() {
            return Ok(None);
        }
        self.busy.add(var)?;
        watch_in(&mut self.each[at], alloc, num, stamp, window)
    }
}

impl Records {
    /// The first records: those of the variables that are here.
    pub fn first(alloc: Global, ways: &[Way], values: &[Value]) -> Result<Records, Memory>
        requires few { length ways.now < 2 ^ 32 }
        requires values { length values.now ≡ length ways.now }
        ensures { IfOk result (λ r. r ≡ record { recs = first_records ways.now values.now; limit = 2 ^ 32 }) }
    {
        let each = first_slots(alloc, ways, values)?;
        let here = taken(alloc, each.as_slice())?;
        let busy = VarSet::new(alloc);
        Ok(Records {
            each,
            here,
            busy,
            limit: 1 << 32,
        })
    }

    /// The periods of the variable's record after `from`, none where it isn't here.
    pub fn periods(
        &self,
        alloc: Global,
        var: u32,
        from: Option<Stamp>,
    ) -> Result<List<Period>, Memory>
        ensures { IfOk result (λ periods. periods ≡ periods_in from (rec_at self.now.recs var)) }
    {
        match self.each.get(var as usize) {
            Some(Some(record)) => record.periods_from(alloc, from),
            _ => Ok(List::new(alloc)),
        }
    }

    /// How many puts, cuts and reads the records have, at most `u64::MAX`. It takes no memory.
    pub fn rows(&self) -> u64
        ensures { result ≡ min (rows_of self.now.recs) (2 ^ 64 - 1) }
    {
        rows_of(self.each.as_slice(), &self.busy)
    }

    /// The variable's record leaves.
    pub fn take(&mut self, var: u32) -> Option<VarRecord>
        ensures kept { self.new ≡ record { recs = set self.old.recs var None; limit = self.old.limit } }
        ensures value { parts_in result ≡ rec_at self.old.recs var }
    {
        let at = var as usize;
        if at >= self.each.len() {
            return None;
        }
        self.here.remove(var);
        self.busy.remove(var);
        self.each[at].take()
    }

    /// A record comes. After `Memory` none came.
    pub fn install(&mut self, var: u32, held: VarRecord) -> Result<(), Memory>
        requires var { held.var ≡ var }
        requires turns { TurnsUpTo (2 ^ 32) held.parts }
        ensures ok { OnOk result
            (self.new ≡ record { recs = set self.old.recs var (Some held.parts); limit = self.old.limit }) }
        ensures err { OnErr result (self.new ≡ self.old) }
    {
        let at = var as usize;
        if at >= self.each.len() {
            return Ok(());
        }
        self.here.add(var)?;
        self.busy.add(var)?;
        install_in(&mut self.each[at], held);
        Ok(())
    }

    /// The first variable from `from` on that is here and below `until`; `until` where there is none.
    pub fn next(&self, from: u32, until: u32) -> u32
        requires { from ≤ until }
        ensures from { from ≤ result }
        ensures until { result ≤ until }
        ensures skipped { (v : ℕ) → from ≤ v → v < result → rec_at self.now.recs v ≡ None }
    {
        self.here.next(from, until)
    }

    /// What is below the line is forgotten. It looks at the records that have rows alone.
    pub fn trim(&mut self, line: Line)
        ensures { self.new ≡ record { recs = map (option_trim line) self.old.recs; limit = self.old.limit } }
    {
        let end = self.each.len() as u32;
        let mut at = self.busy.next(0, end);
        while at < end {
            trim_slot(&mut self.each, &mut self.busy, at, line);
            at = self.busy.next(at + 1, end);
        }
    }
}

fn first_in(alloc: Global, var: u32, way: Way, value: Value) -> Result<Option<VarRecord>, Memory>
    ensures { IfOk result (λ kept. kept ≡ first_kept var way value) }
{
    match way {
        Way::Here => Ok(Some(VarRecord::new(alloc, var, value)?)),
        Way::Port(_) => Ok(None),
    }
}

// The rows of all slots; only busy ones have any.
fn rows_of(each: &[Option<VarRecord>], busy: &VarSet) -> u64
    requires few { length each.now < 2 ^ 32 }
    requires bare { (v : ℕ) → in_set busy.now v ≡ false → IsBare (get_or each.now v None) }
    ensures { result ≡ min (rows_of (map parts_in each.now)) (2 ^ 64 - 1) }
{
    let end = each.len() as u32;
    let mut rows: u64 = 0;
    let mut at = busy.next(0, end);
    while at < end {
        rows = rows.saturating_add(rows_in(&each[at as usize]));
        at = busy.next(at + 1, end);
    }
    rows
}

#[tactic(auto, using(crate::proofs::Counting::rows_are))]
fn rows_in(kept: &Option<VarRecord>) -> u64
    ensures { result ≡ min (rows_in (parts_in kept.now)) (2 ^ 64 - 1) }
{
    match kept {
        Some(record) => record.kept(),
        None => 0,
    }
}

// The slot of each variable at first.
fn first_slots(
    alloc: Global,
    ways: &[Way],
    values: &[Value],
) -> Result<Vec<Option<VarRecord>>, Memory>
    requires few { length ways.now < 2 ^ 32 }
    requires values { length values.now ≡ length ways.now }
    ensures { IfOk result (λ each. each.items ≡ first_each 0 ways.now values.now) }
{
    let mut each = Vec::with_capacity(alloc, ways.len())?;
    for (v, way) in ways.iter().enumerate() {
        each.push(first_in(alloc, v as u32, *way, values[v])?)?;
    }
    Ok(each)
}

// The variables of the slots that have a record.
#[tactic(auto, using(crate::proofs::Slots::taken_all))]
fn taken(alloc: Global, each: &[Option<VarRecord>]) -> Result<VarSet, Memory>
    requires { length each.now < 2 ^ 32 }
    ensures { IfOk result (λ here. (v : ℕ) → in_set here v ≡ false → get_or each.now v None ≡ None) }
{
    let mut here = VarSet::new(alloc);
    for v in 0..each.len() {
        mark(&each[v], v as u32, &mut here)?;
    }
    Ok(here)
}

// Marks the variable where its slot has a record.
fn mark(kept: &Option<VarRecord>, var: u32, here: &mut VarSet) -> Result<(), Memory>
    ensures others { OnOk result ((v : ℕ) → in_set here.new v ≡ false → in_set here.old v ≡ false) }
    ensures this { OnOk result (in_set here.new var ≡ false → kept.now ≡ None) }
{
    match kept {
        Some(_) => here.add(var),
        None => Ok(()),
    }
}

// The slot of a variable forgets what is below the line. Where it has no rows then, it isn't busy.
fn trim_slot(each: &mut Vec<Option<VarRecord>>, busy: &mut VarSet, var: u32, line: Line)
    requires { var < length each.old.items }
    ensures slot { each.new.items ≡ set each.old.items var (trimmed_in line (get_or each.old.items var None)) }
    ensures others { (v : ℕ) → (v ≡ var → ⊥) → in_set busy.new v ≡ in_set busy.old v }
    ensures bare { in_set busy.new var ≡ false → in_set busy.old var ≡ true →
        IsBare (trimmed_in line (get_or each.old.items var None)) }
{
    let slot = &mut each[var as usize];
    trim_in(slot, line);
    if is_bare(slot) {
        busy.remove(var);
    }
}

fn is_bare(kept: &Option<VarRecord>) -> bool
    ensures { result ≡ true → IsBare kept.now }
{
    match kept {
        Some(record) => record.kept() == 0,
        None => true,
    }
}

fn install_in(kept: &mut Option<VarRecord>, held: VarRecord)
    ensures { kept.new ≡ Some held }
{
    *kept = Some(held);
}

fn trim_in(kept: &mut Option<VarRecord>, line: Line)
    ensures { kept.new ≡ trimmed_in line kept.old }
{
    if let Some(record) = kept {
        record.trim(line);
    }
}

fn put_in(kept: &mut Option<VarRecord>, alloc: Global, row: PutRow) -> Result<List<GiveRow>, Memory>
    requires { HaveTurnsIn kept.old }
    ensures ok { OnOk result (kept.new ≡ received (λ v. take_put v row) kept.old) }
    ensures gives { IfOk result (λ gives. gives ≡ received_gives (λ v. take_put v row) kept.old) }
    ensures turns { (v n : ℕ) → IsRecordOf n v kept.old → IsRecordOf (suc n) v kept.new }
    ensures none { kept.old ≡ None → kept.new ≡ None }
    ensures err { OnErr result (kept.new ≡ kept.old) }
{
    match kept {
        Some(record) => record.put(alloc, row),
        None => Ok(List::new(alloc)),
    }
}

fn cut_in(kept: &mut Option<VarRecord>, alloc: Global, row: CutRow) -> Result<List<GiveRow>, Memory>
    requires { HaveTurnsIn kept.old }
    ensures ok { OnOk result (kept.new ≡ received (λ v. take_cut v row) kept.old) }
    ensures gives { IfOk result (λ gives. gives ≡ received_gives (λ v. take_cut v row) kept.old) }
    ensures turns { (v n : ℕ) → IsRecordOf n v kept.old → IsRecordOf (suc n) v kept.new }
    ensures none { kept.old ≡ None → kept.new ≡ None }
    ensures err { OnErr result (kept.new ≡ kept.old) }
{
    match kept {
        Some(record) => record.cut(alloc, row.num, row.stamp),
        None => Ok(List::new(alloc)),
    }
}

fn watch_in(
    kept: &mut Option<VarRecord>,
    alloc: Global,
    num: Num,
    stamp: Stamp,
    window: Window,
) -> Result<Option<GiveRow>, Memory>
    ensures ok { OnOk result (kept.new ≡ received (λ v. take_watch v num stamp window) kept.old) }
    ensures gives { IfOk result (λ give. option_to_list give ≡
        received_gives (λ v. take_watch v num stamp window) kept.old) }
    ensures turns { (v n : ℕ) → 1 ≤ n → IsRecordOf n v kept.old → IsRecordOf n v kept.new }
    ensures none { kept.old ≡ None → kept.new ≡ None }
    ensures err { OnErr result (kept.new ≡ kept.old) }
{
    match kept {
        Some(record) => {
            records_are_settled(record);
            record.watch(alloc, num, stamp, window)
        }
        None => Ok(None),
    }
}
