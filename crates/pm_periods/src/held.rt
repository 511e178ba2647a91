// Periods of a record: a write, what is seen after it, and the reads that see it.
ghost use Rattle.std.specs.Prelude.{◌≡◌, ◌≤◌, ◌<◌, ◌++◌, ◌∷◌, [], ◌^◌, OnOk, take, drop, length, map, true, false};
ghost use Rattle.std.specs.List.{AllByRecursion};
ghost use Rattle.pm_periods.specs.Known.{goes_before};
ghost use Rattle.pm_periods.specs.Laid.{AreLaid, AreLinked, AreOrdered, BeginAtBase, IsBehindPut, IsUpToPut, base_of};
ghost use Rattle.pm_periods.specs.Laid.{begins_below, changed, is_later, puts_of, reads_of, renewed, renewed_one, told};
ghost use Rattle.pm_periods.specs.Laid.{value_under};
ghost use Rattle.pm_base.specs.Changes.{value_eq};
ghost use Rattle.pm_periods.specs.Records.{HaveTurns, changed_of, fresh_read, hit_eq, hit_in, last_give};

use crate::rows::is_applied_before;
use pm_base::{GiveRow, Line, List, Memory, PutRow, ReadRow, Value, Window};

/// A period of a record: from one live write to the next.
#[derive(Debug, Drop)]
pub struct Held {
    /// The write that begins it; none where it is the first, which the base begins.
    pub put: Option<PutRow>,
    /// What is seen in it.
    pub value: Value,
    /// The reads made in it, in order of stamp and number.
    pub reads: List<ReadRow>,
}

impl Held {
    // What is seen in the period where this value is seen before it.
    fn after(&self, value: Value) -> Value
        ensures { result ≡ changed self.now.put value }
    {
        match &self.put {
            Some(row) => row.change.apply(value),
            None => value,
        }
    }

    // Whether its write changes the value after that one does.
    fn is_later(&self, row: &PutRow) -> bool
        ensures { result ≡ is_later row.now self.now.put }
    {
        match &self.put {
            Some(put) => is_applied_before(row, put),
            None => false,
        }
    }

    // Whether its write changes the value before that one does, or it has none.
    pub(crate) fn goes_before(&self, row: &PutRow) -> bool
        ensures { result ≡ goes_before row.now self.now.put }
    {
        match &self.put {
            Some(put) => is_applied_before(put, row),
            None => true,
        }
    }

    // Whether it begins below the line.
    fn is_below(&self, line: Line) -> bool
        ensures { result ≡ begins_below line self.now.put }
    {
        match &self.put {
            Some(put) => line.is_past(put.stamp),
            None => true,
        }
    }
}

// How many periods begin no later than this write changes the value.
pub fn place(periods: &[Held], row: &PutRow) -> usize
    requires { AreOrdered periods.now }
    ensures within { result ≤ length periods.now }
    ensures before { AllByRecursion (IsUpToPut row.now) (take result periods.now) }
    ensures after { AllByRecursion (IsBehindPut row.now) (drop result periods.now) }
{
    periods.partition_point(|h| !h.is_later(row))
}

// How many periods begin below the line: the last of them has what is seen there.
pub fn reach(periods: &[Held], line: Line) -> usize
    requires { AreOrdered periods.now }
    ensures within { result ≤ length periods.now }
    ensures before { AllByRecursion (λ (h : Held). begins_below line h.put ≡ true) (take result periods.now) }
    ensures after { AllByRecursion (λ (h : Held). begins_below line h.put ≡ false) (drop result periods.now) }
{
    periods.partition_point(|h| h.is_below(line))
}

// What is seen at the line.
pub fn value_at_line(periods: &[Held], line: Line) -> Value
    requires begins { BeginAtBase periods.now }
    requires order { AreOrdered periods.now }
    requires laid { AreLaid (base_of periods.now) periods.now }
    ensures { result ≡ value_under line (puts_of periods.now) (base_of periods.now) }
{
    periods[reach(periods, line) - 1].value
}

pub fn hit_in(value: Value, window: &Window) -> Option<Value>
    ensures { result ≡ hit_in value window.now }
{
    if value.inside(window) {
        Some(value)
    } else {
        None
    }
}

fn is_same_value(v: Value, w: Value) -> bool
    ensures { result ≡ value_eq v w }
{
    v.x == w.x && v.y == w.y
}

fn is_same_hit(a: &Option<Value>, b: &Option<Value>) -> bool
    ensures { result ≡ hit_eq a.now b.now }
{
    match (a, b) {
        (Some(v), Some(w)) => is_same_value(*v, *w),
        (None, None) => true,
        _ => false,
    }
}

pub fn give(var: u32, read: &ReadRow) -> GiveRow
    ensures { result ≡ last_give var read.now }
{
    GiveRow {
        num: read.num,
        stamp: read.stamp,
        var,
        turn: read.turn,
        hit: read.hit,
    }
}

// Gives a read the hit of that value, where it was last given another one.
pub fn refreshed(value: Value, q: &ReadRow) -> ReadRow
    requires { q.now.turn < 2 ^ 63 }
    ensures { result ≡ fresh_read (λ _. value) q.now }
{
    let hit = hit_in(value, &q.window);
    if is_same_hit(&hit, &q.hit) {
        return *q;
    }
    ReadRow {
        num: q.num,
        stamp: q.stamp,
        window: q.window,
        turn: q.turn + 1,
        hit,
    }
}

// Tells the hit of that value, where the read was last given another one.
fn tell_one(var: u32, value: Value, q: &ReadRow, gives: &mut Vec<GiveRow>) -> Result<(), Memory>
    requires { q.now.turn < 2 ^ 63 }
    ensures { OnOk result (gives.new.items ≡ gives.old.items ++ changed_of var (λ _. value) (q.now ∷ [])) }
{
    let hit = hit_in(value, &q.window);
    if is_same_hit(&hit, &q.hit) {
        return Ok(());
    }
    let turn = q.turn + 1;
    gives.push(GiveRow {
        num: q.num,
        stamp: q.stamp,
        var,
        turn,
        hit,
    })?;
    Ok(())
}

// Tells the hits of that value, of the reads that were last given another one.
pub fn tell_reads(
    var: u32,
    value: Value,
    reads: &[ReadRow],
    gives: &mut Vec<GiveRow>,
) -> Result<(), Memory>
    requires { HaveTurns reads.now }
    ensures { OnOk result (gives.new.items ≡ gives.old.items ++ changed_of var (λ _. value) reads.now) }
{
    for q in reads {
        tell_one(var, value, q, gives)?;
    }
    Ok(())
}

// Gives each read the hit of that value, where it was last given another one.
pub fn refresh(value: Value, reads: &mut [ReadRow])
    requires { HaveTurns reads.old }
    ensures { reads.new ≡ map (fresh_read (λ _. value)) reads.old }
{
    for q in reads.iter_mut() {
        *q = refreshed(value, q);
    }
}

// Tells the hits that change where that value is seen before these periods, up to the first that keeps its value.
pub fn tell(
    var: u32,
    before: Value,
    periods: &[Held],
    gives: &mut Vec<GiveRow>,
) -> Result<(), Memory>
    requires linked { AreLinked periods.now }
    requires turns { HaveTurns (reads_of periods.now) }
    ensures { OnOk result (gives.new.items ≡ gives.old.items ++ told var before periods.now) }
{
    let mut value = before;
    for h in periods {
        value = h.after(value);
        if is_same_value(value, h.value) {
            return Ok(());
        }
        tell_reads(var, value, h.reads.as_slice(), gives)?;
    }
    Ok(())
}

// Gives the period that value, and its reads the hit of it.
fn renew_one(value: Value, h: &mut Held)
    requires { HaveTurns h.old.reads }
    ensures { h.new ≡ renewed_one value h.old }
{
    h.value = value;
    refresh(value, h.reads.as_mut_slice());
}

// Has that value seen before these periods, up to the first that keeps its value.
pub fn renew(before: Value, periods: &mut [Held])
    requires linked { AreLinked periods.old }
    requires turns { HaveTurns (reads_of periods.old) }
    ensures { periods.new ≡ renewed before periods.old }
{
    let mut value = before;
    for h in periods.iter_mut() {
        value = h.after(value);
        if is_same_value(value, h.value) {
            return;
        }
        renew_one(value, h);
    }
}
