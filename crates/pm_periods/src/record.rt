ghost use Rattle.std.specs.Prelude.{◌≡◌, ◌+◌, ◌≤◌, ◌<◌, ◌++◌, ◌∷◌, [], ◌==◌, IfOk, OnOk, OnErr, OnSome, ℕ, suc};
ghost use Rattle.std.specs.Prelude.{take, drop, length, map, filter, set, true, false, cond, None, Some, if◌then◌else◌};
ghost use Rattle.std.specs.Prelude.{slice_index_or, vec_len, min, ◌^◌, ◌-◌};
ghost use Rattle.std.specs.BTreeMap.{get};
ghost use Rattle.std.specs.List.{AllByRecursion};
ghost use Rattle.std.specs.Option.{option_to_list};
ghost use Rattle.pm_base.specs.Stamps.{is_below, num_eq, stamp_lt};
ghost use Rattle.pm_periods.specs.HeldPeriods.{held_of};
ghost use Rattle.pm_base.specs.declared.stamp.Num.{Num as TheNum};
ghost use Rattle.pm_periods.specs.Known.{num_cmp, stamp_of};
ghost use Rattle.pm_periods.specs.Places.{number_place};
ghost use Rattle.pm_periods.specs.Laid.{AreLaid, AreLinked, AreOrdered, Begin, BeginAtBase, End, base_of, cut_of};
ghost use Rattle.pm_periods.specs.Laid.{is_of, puts_of, reads_of, renewed, told, with_reads, withdrawal};
ghost use Rattle.pm_periods.specs.Laid.{Entered, Trim, put_kept, trimmed_period, trimmed_withdrawal};
ghost use Rattle.pm_periods.specs.Laid.{withdrawal_key, withdrawal_stays, withdrawn_of};
ghost use Rattle.pm_periods.specs.Records.{HaveTurns, after_cut, after_put, after_watch, changed_of, cut_row};
ghost use Rattle.pm_periods.specs.Records.{empty_record, first_read, fresh_read, gives_of_cut, gives_of_put};
ghost use Rattle.pm_periods.specs.Records.{gives_of_watch, kept_of, last_give, read_stays, record_value, trimmed};
ghost use Rattle.pm_periods.specs.Records.{record_hit, with_parts, with_read};
ghost use Rattle.pm_periods.specs.Rows.{IsInOrder, add_row, put_key, has_num, read_key};

use crate::held::{
    Held, give, place, reach, refresh, refreshed, renew, tell, tell_reads, value_at_line,
};
use crate::index::{forget, forget_below, forget_cuts, knows, learn};
use crate::rows::{Row, RowKey, add, place as row_place};
use pm_base::{
    Change, CutRow, GiveRow, Line, List, Memory, Num, PutRow, ReadRow, Stamp, Value, Window,
};
use std::alloc::Global;
use std::collections::BTreeMap;
use std::marker::Model;
use std::mem;

// A received cut, with the put that it names, where that was received.
#[derive(Clone, Copy, Debug, PartialEq, Eq)]
pub struct Withdrawal {
    pub cut: CutRow,
    pub put: Option<PutRow>,
}

/// One variable's record. Contracts see it as the variable's number and the record's `Parts`. The numbers of its puts,
/// cuts and reads are found in ordered maps, which tell at what stamp the row of each stands.
#[derive(Debug, Drop)]
pub struct VarRecord {
    pub(crate) var: u32,
    pub(crate) alloc: Global,
    pub(crate) periods: Vec<Held>,
    pub(crate) withdrawals: Vec<Withdrawal>,
    pub(crate) put_stamps: BTreeMap<Num, Stamp>,
    pub(crate) cut_stamps: BTreeMap<Num, Stamp>,
    pub(crate) read_stamps: BTreeMap<Num, Stamp>,
}

impl Model for VarRecord {
    ghost use Rattle.pm_periods.specs.Records.{Record};

    ghost Value = { Record };

    ghost use Rattle.pm_periods.specs.Inner.{record_of, IsSound};

    ghost view = { record_of };

    ghost invariant = { IsSound };
}

impl VarRecord {
    /// A record that has received nothing. Later rows take memory from `alloc` too.
    pub fn new(alloc: Global, var: u32, base: Value) -> Result<VarRecord, Memory>
        ensures { IfOk result (λ made. made ≡ empty_record var base) }
    {
        let mut periods = Vec::with_capacity(alloc, 1)?;
        periods.push(Held {
            put: None,
            value: base,
            reads: List::new(alloc),
        })?;
        Ok(VarRecord {
            var,
            alloc,
            periods,
            withdrawals: Vec::new(alloc),
            put_stamps: BTreeMap::new(alloc),
            cut_stamps: BTreeMap::new(alloc),
            read_stamps: BTreeMap::new(alloc),
        })
    }

    /// Receives a write, and tells the changed hits in order of the reads' stamps and numbers.
    pub fn put(&mut self, alloc: Global, row: PutRow) -> Result<List<GiveRow>, Memory>
        requires turns { HaveTurns self.old.parts.reads }
        ensures ok { OnOk result (self.new ≡ with_parts self.old (after_put row self.old.parts)) }
        ensures gives { IfOk result (λ gives. gives ≡ gives_of_put self.old.var row self.old.parts) }
        ensures err { OnErr result (self.new ≡ self.old) }
    {
        if knows(&self.put_stamps, row.num) {
            return Ok(List::new(alloc));
        }
        let named = named_place(self.withdrawals.as_slice(), &self.cut_stamps, row.num);
        if named < self.withdrawals.len() {
            learn(&mut self.put_stamps, row.num, row.stamp)?;
            hold_put(&mut self.withdrawals, named, row);
            return Ok(List::new(alloc));
        }
        let gives = begin_known(
            alloc,
            self.var,
            &mut self.periods,
            &mut self.put_stamps,
            row,
        )?;
        Ok(List::from_vec(gives))
    }

    /// Receives the withdrawal of a write, which may be the first that is heard of that write, and tells the changed
    /// hits in order of the reads' stamps and numbers.
    pub fn cut(&mut self, alloc: Global, num: Num, stamp: Stamp) -> Result<List<GiveRow>, Memory>
        requires turns { HaveTurns self.old.parts.reads }
        ensures ok { OnOk result (self.new ≡ with_parts self.old (after_cut (cut_row num stamp) self.old.parts)) }
        ensures gives { IfOk result (λ gives. gives ≡ gives_of_cut self.old.var (cut_row num stamp) self.old.parts) }
        ensures err { OnErr result (self.new ≡ self.old) }
    {
        if knows(&self.cut_stamps, num) {
            return Ok(List::new(alloc));
        }
        let cut = CutRow { num, stamp };
        let at = put_place(self.periods.as_slice(), &self.put_stamps, num);
        if at >= self.periods.len() {
            add_early(&mut self.withdrawals, &mut self.cut_stamps, cut)?;
            return Ok(List::new(alloc));
        }
        let gives = end_known(
            alloc,
            self.var,
            &mut self.periods,
            &mut self.withdrawals,
            &mut self.cut_stamps,
            at,
            cut,
        )?;
        Ok(List::from_vec(gives))
    }

    /// Receives a read, and tells its first hit where there is one.
    pub fn watch(
        &mut self,
        alloc: Global,
        num: Num,
        stamp: Stamp,
        window: Window,
    ) -> Result<Option<GiveRow>, Memory>
        ensures ok { OnOk result (self.new ≡
            with_parts self.old (after_watch (first_read num stamp window) self.old.parts)) }
        ensures gives { IfOk result (λ give. option_to_list give ≡
            gives_of_watch self.old.var (first_read num stamp window) self.old.parts) }
        ensures err { OnErr result (self.new ≡ self.old) }
    {
        let _ = alloc;
        if knows(&self.read_stamps, num) {
            return Ok(None);
        }
        let value = value_at_line(self.periods.as_slice(), Line::At(stamp));
        let row = refreshed(
            value,
            &ReadRow {
                num,
                stamp,
                window,
                turn: 0,
                hit: None,
            },
        );
        add_known(&mut self.periods, &mut self.read_stamps, row)?;
        Ok(first_give(self.var, &row))
    }

    /// What a read at this stamp sees. It takes no memory.
    pub fn value_at(&self, s: Stamp) -> Value
        ensures { result ≡ record_value self.now.parts s }
    {
        value_at_line(self.periods.as_slice(), Line::At(s))
    }

    /// Forgets what is below the line, and keeps what a read at any stamp not below it sees. It takes no memory.
    pub fn trim(&mut self, line: Line)
        ensures value { self.new ≡ with_parts self.old (trimmed line self.old.parts) }
        ensures keeps { (s : Stamp) → is_below s line ≡ false →
            record_value self.new.parts s ≡ record_value self.old.parts s }
    {
        trim_periods(self.alloc, &mut self.periods, line);
        trim_withdrawals(&mut self.withdrawals, line);
        forget_below(&mut self.put_stamps, line);
        forget_cuts(&mut self.cut_stamps, &self.put_stamps, line);
        forget_below(&mut self.read_stamps, line);
    }

    /// How many puts, cuts and reads are kept, at most `u64::MAX`. It takes no memory.
    pub fn kept(&self) -> u64
        ensures { result ≡ kept_of self.now.parts }
    {
        let periods = periods_kept(self.periods.as_slice());
        let withdrawals = withdrawals_kept(self.withdrawals.as_slice());
        periods.saturating_add(withdrawals)
    }

    // Enters a read that has its hit, its turn as it is.
    pub(crate) fn enter(&mut self, row: ReadRow) -> Result<(), Memory>
        requires hit { row.hit ≡ record_hit self.old.parts row }
        requires new { has_num read_key row.num self.old.parts.reads ≡ false }
        ensures ok { OnOk result (self.new ≡ with_parts self.old (with_read row self.old.parts)) }
        ensures err { OnErr result (self.new ≡ self.old) }
    {
        add_known(&mut self.periods, &mut self.read_stamps, row)?;
        Ok(())
    }

    /// The periods as they are kept. It takes no memory.
    pub fn held(&self) -> &[Held]
        ensures { result.now ≡ held_of self.now.parts }
    {
        self.periods.as_slice()
    }
}

// How many rows the period has.
fn period_kept(h: &Held) -> u64
    ensures { result ≡ min (length (option_to_list h.now.put) + length h.now.reads) (2 ^ 64 - 1) }
{
    let reads = h.reads.len() as u64;
    match &h.put {
        Some(_) => reads.saturating_add(1),
        None => reads,
    }
}

// How many rows the periods have.
fn periods_kept(periods: &[Held]) -> u64
    ensures { result ≡ min (length (puts_of periods.now) + length (reads_of periods.now)) (2 ^ 64 - 1) }
{
    let mut kept = 0u64;
    for h in periods {
        kept = kept.saturating_add(period_kept(h));
    }
    kept
}

// How many rows the withdrawal has.
fn withdrawal_kept(w: &Withdrawal) -> u64
    ensures { result ≡ length (option_to_list w.now.put) + 1 }
{
    match &w.put {
        Some(_) => 2,
        None => 1,
    }
}

// How many rows the withdrawals have.
fn withdrawals_kept(withdrawals: &[Withdrawal]) -> u64
    ensures { result ≡ min (length (withdrawn_of withdrawals.now) + length withdrawals.now) (2 ^ 64 - 1) }
{
    let mut kept = 0u64;
    for w in withdrawals {
        kept = kept.saturating_add(withdrawal_kept(w));
    }
    kept
}

// Keeps the put that the cut of that place names.
fn hold_put(withdrawals: &mut Vec<Withdrawal>, at: usize, row: PutRow)
    requires { at < length withdrawals.old.items }
    ensures { (d : Withdrawal) → withdrawals.new.items ≡
        set withdrawals.old.items at (withdrawal (slice_index_or withdrawals.old.items at d).cut row) }
{
    withdrawals[at].put = Some(row);
}

// The place of the withdrawal of that number; how many there are where none has it.
fn named_place(withdrawals: &[Withdrawal], cuts: &BTreeMap<Num, Stamp>, num: Num) -> usize
    requires order { IsInOrder withdrawal_key withdrawals.now }
    requires known { get num_cmp cuts.now num ≡ stamp_of withdrawal_key num withdrawals.now }
    ensures { result ≡ number_place withdrawal_key num withdrawals.now }
{
    match cuts.get(&num) {
        Some(stamp) => cut_place(withdrawals, RowKey { stamp: *stamp, num }),
        None => withdrawals.len(),
    }
}

// The place of the withdrawal that stands at that key.
fn cut_place(withdrawals: &[Withdrawal], key: RowKey) -> usize
    requires order { IsInOrder withdrawal_key withdrawals.now }
    requires there { stamp_of withdrawal_key key.num withdrawals.now ≡ Some key.stamp }
    ensures { result ≡ number_place withdrawal_key key.num withdrawals.now }
{
    withdrawals.partition_point(|w| w.key().is_before(&key))
}

// The place of the period whose write has that number; how many periods there are where none has it.
fn put_place(periods: &[Held], puts: &BTreeMap<Num, Stamp>, num: Num) -> usize
    requires order { AreOrdered periods.now }
    requires known { get num_cmp puts.now num ≡ stamp_of put_key num (puts_of periods.now) }
    ensures within { result ≤ length periods.now }
    ensures found { (d : Held) → result < length periods.now →
        is_of num (slice_index_or periods.now result d).put ≡ true }
    ensures others { AllByRecursion (λ (h : Held). is_of num h.put ≡ false) (take result periods.now) }
{
    match puts.get(&num) {
        Some(stamp) => begun_place(periods, *stamp, num),
        None => periods.len(),
    }
}

// The place of the period whose write has that number and stamp.
fn begun_place(periods: &[Held], stamp: Stamp, num: Num) -> usize
    requires order { AreOrdered periods.now }
    requires there { stamp_of put_key num (puts_of periods.now) ≡ Some stamp }
    ensures within { result < length periods.now }
    ensures found { (d : Held) → is_of num (slice_index_or periods.now result d).put ≡ true }
    ensures others { AllByRecursion (λ (h : Held). is_of num h.put ≡ false) (take result periods.now) }
{
    let row = PutRow {
        num,
        stamp,
        change: Change::Set(Value { x: 0, y: 0 }),
    };
    periods.partition_point(|h| h.goes_before(&row))
}

// How many of the reads don't stand after the stamp.
fn reads_up_to(reads: &[ReadRow], stamp: Stamp) -> usize
    requires { IsInOrder read_key reads.now }
    ensures within { result ≤ length reads.now }
    ensures before { AllByRecursion (λ (q : ReadRow). stamp_lt stamp q.stamp ≡ false) (take result reads.now) }
    ensures after { AllByRecursion (λ (q : ReadRow). stamp_lt stamp q.stamp ≡ true) (drop result reads.now) }
{
    reads.partition_point(|q| !stamp.is_before(&q.stamp))
}

// The reads behind so many of them, each with the hit of that value.
fn later_reads(
    alloc: Global,
    value: Value,
    reads: &[ReadRow],
    split: usize,
) -> Result<Vec<ReadRow>, Memory>
    requires within { split ≤ length reads.now }
    requires turns { HaveTurns (drop split reads.now) }
    ensures { IfOk result (λ later. later.items ≡ map (fresh_read (λ _. value)) (drop split reads.now)) }
{
    let mut later = Vec::from_slice(alloc, &reads[split..])?;
    refresh(value, later.as_mut_slice());
    Ok(later)
}

// Leaves so many of the first reads.
fn leave(alloc: Global, reads: &mut List<ReadRow>, many: usize)
    ensures { reads.new ≡ take many reads.old }
{
    let mut left = mem::replace(reads, List::new(alloc)).into_vec();
    left.truncate(many);
    *reads = List::from_vec(left);
}

// Tells the hits of that value, of the reads behind so many.
fn tell_behind(
    var: u32,
    value: Value,
    reads: &[ReadRow],
    split: usize,
    gives: &mut Vec<GiveRow>,
) -> Result<(), Memory>
    requires within { split ≤ length reads.now }
    requires turns { HaveTurns (drop split reads.now) }
    ensures { OnOk result (gives.new.items ≡ gives.old.items ++ changed_of var (λ _. value) (drop split reads.now)) }
{
    tell_reads(var, value, &reads[split..], gives)
}

// Tells the hits that change where that value is seen before the periods from that place on.
fn tell_from(
    var: u32,
    value: Value,
    periods: &[Held],
    from: usize,
    gives: &mut Vec<GiveRow>,
) -> Result<(), Memory>
    requires within { from ≤ length periods.now }
    requires linked { AreLinked (drop from periods.now) }
    requires turns { HaveTurns (reads_of (drop from periods.now)) }
    ensures { OnOk result (gives.new.items ≡ gives.old.items ++ told var value (drop from periods.now)) }
{
    tell(var, value, &periods[from..], gives)
}

// Has that value seen before the periods from that place on.
fn renew_from(value: Value, periods: &mut Vec<Held>, from: usize)
    requires within { from ≤ length periods.old.items }
    requires linked { AreLinked (drop from periods.old.items) }
    requires turns { HaveTurns (reads_of (drop from periods.old.items)) }
    ensures { periods.new.items ≡ take from periods.old.items ++ renewed value (drop from periods.old.items) }
{
    renew(value, &mut periods[from..]);
}

// Leaves so many of the first reads in the period of that place.
fn leave_at(alloc: Global, periods: &mut Vec<Held>, at: usize, many: usize)
    requires { at < length periods.old.items }
    ensures { (d : Held) → periods.new.items ≡ set periods.old.items at
        (with_reads (take many (slice_index_or periods.old.items at d).reads) (slice_index_or periods.old.items at d)) }
{
    leave(alloc, &mut periods[at].reads, many);
}

// Puts a period in its place, behind the one that its reads came from. After `Memory` the periods are unchanged.
fn open_period(
    alloc: Global,
    periods: &mut Vec<Held>,
    at: usize,
    split: usize,
    held: Held,
) -> Result<(), Memory>
    requires within { (0 < at) × (at ≤ length periods.old.items) }
    requires laid { AreLaid (base_of periods.old.items) periods.old.items }
    requires turns { HaveTurns (reads_of periods.old.items) }
    ensures ok { OnOk result ((k : ℕ) → (d : Held) → suc k ≡ at →
        periods.new.items ≡ take k periods.old.items ++
        with_reads (take split (slice_index_or periods.old.items k d).reads) (slice_index_or periods.old.items k d) ∷
        (held ∷ renewed held.value (drop at periods.old.items))) }
    ensures err { OnErr result (periods.new.items ≡ periods.old.items) }
{
    let value = held.value;
    periods.insert(at, held)?;
    leave_at(alloc, periods, at - 1, split);
    renew_from(value, periods, at + 1);
    Ok(())
}

// Begins a period with that write, which takes the reads that see it out of the one before it, and tells the changed
// hits. After `Memory` the periods are unchanged.
fn begin_period(
    alloc: Global,
    var: u32,
    periods: &mut Vec<Held>,
    row: PutRow,
) -> Result<Vec<GiveRow>, Memory>
    requires begins { BeginAtBase periods.old.items }
    requires order { AreOrdered periods.old.items }
    requires laid { AreLaid (base_of periods.old.items) periods.old.items }
    requires reads { IsInOrder read_key (reads_of periods.old.items) }
    requires turns { HaveTurns (reads_of periods.old.items) }
    ensures ok { IfOk result (λ gives. Begin var row periods.old.items periods.new.items gives.items) }
    ensures err { OnErr result (periods.new.items ≡ periods.old.items) }
{
    let at = place(periods.as_slice(), &row);
    let before = &periods[at - 1];
    let value = row.change.apply(before.value);
    let split = reads_up_to(before.reads.as_slice(), row.stamp);
    let mut gives = Vec::new(alloc);
    tell_behind(var, value, before.reads.as_slice(), split, &mut gives)?;
    tell_from(var, value, periods.as_slice(), at, &mut gives)?;
    let reads = later_reads(alloc, value, before.reads.as_slice(), split)?;
    let held = Held {
        put: Some(row),
        value,
        reads: List::from_vec(reads),
    };
    open_period(alloc, periods, at, split, held)?;
    Ok(gives)
}

// Begins a period with that write, whose number is known then. After `Memory` nothing is changed.
fn begin_known(
    alloc: Global,
    var: u32,
    periods: &mut Vec<Held>,
    puts: &mut BTreeMap<Num, Stamp>,
    row: PutRow,
) -> Result<Vec<GiveRow>, Memory>
    requires begins { BeginAtBase periods.old.items }
    requires order { AreOrdered periods.old.items }
    requires laid { AreLaid (base_of periods.old.items) periods.old.items }
    requires reads { IsInOrder read_key (reads_of periods.old.items) }
    requires turns { HaveTurns (reads_of periods.old.items) }
    requires new { get num_cmp puts.old row.num ≡ None }
    ensures ok { IfOk result (λ gives. Begin var row periods.old.items periods.new.items gives.items) }
    ensures known { OnOk result ((n : TheNum) → get num_cmp puts.new n ≡
        cond (num_eq n row.num) (Some row.stamp) (get num_cmp puts.old n)) }
    ensures err { OnErr result (periods.new.items ≡ periods.old.items) }
    ensures unknown { OnErr result ((n : TheNum) → get num_cmp puts.new n ≡ get num_cmp puts.old n) }
{
    learn(puts, row.num, row.stamp)?;
    match begin_period(alloc, var, periods, row) {
        Ok(gives) => Ok(gives),
        Err(memory) => {
            forget(puts, row.num);
            Err(memory)
        }
    }
}

// The reads of two periods, those of the second with the hit of that value.
fn joined(
    alloc: Global,
    value: Value,
    first: &[ReadRow],
    second: &[ReadRow],
) -> Result<Vec<ReadRow>, Memory>
    requires { HaveTurns second.now }
    ensures { IfOk result (λ reads. reads.items ≡ first.now ++ map (fresh_read (λ _. value)) second.now) }
{
    let mut reads = Vec::from_slice(alloc, first)?;
    for q in second {
        reads.push(refreshed(value, q))?;
    }
    Ok(reads)
}

// Has the period of that place hold these reads.
fn set_reads(periods: &mut Vec<Held>, at: usize, reads: Vec<ReadRow>)
    requires { at < length periods.old.items }
    ensures items { (d : Held) → periods.new.items ≡
        set periods.old.items at (with_reads reads.items (slice_index_or periods.old.items at d)) }
    ensures len { vec_len periods.new ≡ vec_len periods.old }
{
    periods[at].reads = List::from_vec(reads);
}

// Drops the period of that place, the one before it with these reads.
fn close_period(value: Value, periods: &mut Vec<Held>, at: usize, reads: Vec<ReadRow>)
    requires within { (0 < at) × (at < length periods.old.items) }
    requires laid { AreLaid (base_of periods.old.items) periods.old.items }
    requires turns { HaveTurns (reads_of periods.old.items) }
    ensures { (k : ℕ) → (d : Held) → suc k ≡ at → periods.new.items ≡ take k periods.old.items ++
        with_reads reads.items (slice_index_or periods.old.items k d) ∷
        renewed value (drop (at + 1) periods.old.items) }
{
    set_reads(periods, at - 1, reads);
    let _ = periods.remove(at);
    renew_from(value, periods, at);
}

// Ends the period of that place: its write is withdrawn, its reads fall to the one before it. Tells the changed hits.
// After `Memory` nothing is changed.
fn end_period(
    alloc: Global,
    var: u32,
    periods: &mut Vec<Held>,
    withdrawals: &mut Vec<Withdrawal>,
    at: usize,
    cut: CutRow,
) -> Result<Vec<GiveRow>, Memory>
    requires within { (0 < at) × (at < length periods.old.items) }
    requires named { (d : Held) → is_of cut.num (slice_index_or periods.old.items at d).put ≡ true }
    requires laid { AreLaid (base_of periods.old.items) periods.old.items }
    requires turns { HaveTurns (reads_of periods.old.items) }
    requires cuts { IsInOrder withdrawal_key withdrawals.old.items }
    ensures ok { IfOk result (λ gives. (p : PutRow) × (num_eq cut.num p.num ≡ true) ×
        End var p periods.old.items periods.new.items gives.items ×
        (withdrawals.new.items ≡ add_row withdrawal_key (withdrawal cut p) withdrawals.old.items)) }
    ensures err { OnErr result ((periods.new.items ≡ periods.old.items) ×
        (withdrawals.new.items ≡ withdrawals.old.items)) }
{
    let before = &periods[at - 1];
    let ended = &periods[at];
    let value = before.value;
    let mut gives = Vec::new(alloc);
    tell_reads(var, value, ended.reads.as_slice(), &mut gives)?;
    tell_from(var, value, periods.as_slice(), at + 1, &mut gives)?;
    let reads = joined(
        alloc,
        value,
        before.reads.as_slice(),
        ended.reads.as_slice(),
    )?;
    let put = ended.put;
    add(withdrawals, Withdrawal { cut, put })?;
    close_period(value, periods, at, reads);
    Ok(gives)
}

// Receives a cut whose put hasn't come. After `Memory` nothing is changed.
fn add_early(
    withdrawals: &mut Vec<Withdrawal>,
    cuts: &mut BTreeMap<Num, Stamp>,
    cut: CutRow,
) -> Result<(), Memory>
    requires order { IsInOrder withdrawal_key withdrawals.old.items }
    requires new { get num_cmp cuts.old cut.num ≡ None }
    ensures ok { OnOk result (withdrawals.new.items ≡
        add_row withdrawal_key (record { cut = cut; put = None }) withdrawals.old.items) }
    ensures known { OnOk result ((n : TheNum) → get num_cmp cuts.new n ≡
        cond (num_eq n cut.num) (Some cut.stamp) (get num_cmp cuts.old n)) }
    ensures err { OnErr result (withdrawals.new.items ≡ withdrawals.old.items) }
    ensures unknown { OnErr result ((n : TheNum) → get num_cmp cuts.new n ≡ get num_cmp cuts.old n) }
{
    learn(cuts, cut.num, cut.stamp)?;
    match add(withdrawals, Withdrawal { cut, put: None }) {
        Ok(()) => Ok(()),
        Err(memory) => {
            forget(cuts, cut.num);
            Err(memory)
        }
    }
}

// Ends the period of that place by that cut, whose number is known then. After `Memory` nothing is changed.
fn end_known(
    alloc: Global,
    var: u32,
    periods: &mut Vec<Held>,
    withdrawals: &mut Vec<Withdrawal>,
    cuts: &mut BTreeMap<Num, Stamp>,
    at: usize,
    cut: CutRow,
) -> Result<Vec<GiveRow>, Memory>
    requires within { (0 < at) × (at < length periods.old.items) }
    requires named { (d : Held) → is_of cut.num (slice_index_or periods.old.items at d).put ≡ true }
    requires laid { AreLaid (base_of periods.old.items) periods.old.items }
    requires turns { HaveTurns (reads_of periods.old.items) }
    requires cuts { IsInOrder withdrawal_key withdrawals.old.items }
    requires new { get num_cmp cuts.old cut.num ≡ None }
    ensures ok { IfOk result (λ gives. (p : PutRow) × (num_eq cut.num p.num ≡ true) ×
        End var p periods.old.items periods.new.items gives.items ×
        (withdrawals.new.items ≡ add_row withdrawal_key (withdrawal cut p) withdrawals.old.items)) }
    ensures known { OnOk result ((n : TheNum) → get num_cmp cuts.new n ≡
        cond (num_eq n cut.num) (Some cut.stamp) (get num_cmp cuts.old n)) }
    ensures err { OnErr result ((periods.new.items ≡ periods.old.items) ×
        (withdrawals.new.items ≡ withdrawals.old.items)) }
    ensures unknown { OnErr result ((n : TheNum) → get num_cmp cuts.new n ≡ get num_cmp cuts.old n) }
{
    learn(cuts, cut.num, cut.stamp)?;
    match end_period(alloc, var, periods, withdrawals, at, cut) {
        Ok(gives) => Ok(gives),
        Err(memory) => {
            forget(cuts, cut.num);
            Err(memory)
        }
    }
}

// Puts a read into its period. After `Memory` the periods are unchanged.
pub fn add_read(periods: &mut Vec<Held>, row: ReadRow) -> Result<(), Memory>
    requires begins { BeginAtBase periods.old.items }
    requires order { AreOrdered periods.old.items }
    requires reads { IsInOrder read_key (reads_of periods.old.items) }
    ensures ok { OnOk result (Entered row periods.old.items periods.new.items) }
    ensures err { OnErr result (periods.new.items ≡ periods.old.items) }
{
    let at = reach(periods.as_slice(), Line::At(row.stamp)) - 1;
    let place = row_place(periods[at].reads.as_slice(), row.key());
    periods[at].reads.insert(place, row)?;
    Ok(())
}

// Puts a read into its period, and its number is known then. After `Memory` nothing is changed.
fn add_known(
    periods: &mut Vec<Held>,
    reads: &mut BTreeMap<Num, Stamp>,
    row: ReadRow,
) -> Result<(), Memory>
    requires begins { BeginAtBase periods.old.items }
    requires order { AreOrdered periods.old.items }
    requires reads { IsInOrder read_key (reads_of periods.old.items) }
    requires new { get num_cmp reads.old row.num ≡ None }
    ensures ok { OnOk result (Entered row periods.old.items periods.new.items) }
    ensures known { OnOk result ((n : TheNum) → get num_cmp reads.new n ≡
        cond (num_eq n row.num) (Some row.stamp) (get num_cmp reads.old n)) }
    ensures err { OnErr result (periods.new.items ≡ periods.old.items) }
    ensures unknown { OnErr result ((n : TheNum) → get num_cmp reads.new n ≡ get num_cmp reads.old n) }
{
    learn(reads, row.num, row.stamp)?;
    match add_read(periods, row) {
        Ok(()) => Ok(()),
        Err(memory) => {
            forget(reads, row.num);
            Err(memory)
        }
    }
}

// The hit that a new read was given, if it was given one.
fn first_give(var: u32, row: &ReadRow) -> Option<GiveRow>
    ensures { result ≡ (if row.now.turn == 0 then None else Some (last_give var row.now)) }
{
    if row.turn == 0 {
        None
    } else {
        Some(give(var, row))
    }
}

// Drops the reads below the line.
fn trim_reads(alloc: Global, reads: &mut List<ReadRow>, line: Line)
    ensures { reads.new ≡ filter (read_stays line) reads.old }
{
    let mut left = mem::replace(reads, List::new(alloc)).into_vec();
    left.retain(|q| !line.is_past(q.stamp));
    *reads = List::from_vec(left);
}

// Drops so many of the first periods; the next becomes the first, with the reads that aren't below the line.
fn drop_first(alloc: Global, periods: &mut Vec<Held>, first: usize, line: Line)
    requires { first < length periods.old.items }
    ensures { (d : Held) → periods.new.items ≡
        trimmed_period line (slice_index_or periods.old.items first d) ∷ drop (suc first) periods.old.items }
{
    periods.drain(..first);
    periods[0].put = None;
    trim_reads(alloc, &mut periods[0].reads, line);
}

// Has the last period that begins below the line be the first.
fn trim_periods(alloc: Global, periods: &mut Vec<Held>, line: Line)
    requires begins { BeginAtBase periods.old.items }
    requires order { AreOrdered periods.old.items }
    ensures { Trim line periods.old.items periods.new.items }
{
    let at = reach(periods.as_slice(), line);
    drop_first(alloc, periods, at - 1, line);
}

// The put where it isn't below the line.
fn kept_put(put: &Option<PutRow>, line: Line) -> Option<PutRow>
    ensures { result ≡ put_kept line put.now }
{
    match put {
        Some(row) if !line.is_past(row.stamp) => Some(*row),
        _ => None,
    }
}

// Drops the withdrawn puts below the line, and the cuts below it that name none of the others.
fn trim_withdrawals(withdrawals: &mut Vec<Withdrawal>, line: Line)
    ensures { withdrawals.new.items ≡ filter (withdrawal_stays line) (map (trimmed_withdrawal line) withdrawals.old.items) }
{
    trim_puts(withdrawals.as_mut_slice(), line);
    withdrawals.retain(|w| !line.is_past(w.cut.stamp) || w.put.is_some());
}

// Drops the withdrawn puts below the line.
fn trim_puts(withdrawals: &mut [Withdrawal], line: Line)
    ensures { withdrawals.new ≡ map (trimmed_withdrawal line) withdrawals.old }
{
    for w in withdrawals.iter_mut() {
        w.put = kept_put(&w.put, line);
    }
}
