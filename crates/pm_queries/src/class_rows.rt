ghost use Rattle.std.specs.Prelude.{◌≡◌, ◌≤◌, ◌++◌, [], cond, length, map, filter, take, drop, Some, None, OnOk, OnErr};
ghost use Rattle.std.specs.BTreeMap.{get};
ghost use Rattle.std.specs.Option.{option_to_list};
ghost use Rattle.pm_base.specs.Stamps.{is_below, num_eq};
ghost use Rattle.pm_base.specs.declared.stamp.Num.{Num as TheNum};
ghost use Rattle.pm_periods.specs.Rows.{IsInOrder, key_lt};
ghost use Rattle.pm_queries.specs.Laid.{SameRows, before, num_cmp, spot_of, up_to};
ghost use Rattle.pm_queries.specs.Queries.{HasGrown, add_reg, asks_at, catches_by, caught_by, finish_in, has_reg, not_below};
ghost use Rattle.pm_queries.specs.Queries.{registered_key};
ghost use Rattle.pm_tables.specs.Tables.{known_in};

use crate::ports::{catch_one, take_off};
use crate::registered::{Registered, Sent, Spot};
use pm_base::{Line, List, Memory, Num, Stamp};
use pm_tables::Table;
use std::alloc::Global;
use std::collections::BTreeMap;
use std::marker::Model;

// The registered queries of one class, in order of stamp, then of number.
#[derive(Debug, Drop)]
pub struct ClassRows {
    rows: Vec<Registered>,
}

impl Model for ClassRows {
    ghost use Rattle.std.specs.Prelude.{List as Seq};
    ghost use Rattle.pm_queries.specs.declared.registered.Registered.{Registered};

    ghost Value = { Seq Registered };

    ghost view = { λ c. c.rows.items };
}

impl ClassRows {
    pub fn new(alloc: Global) -> ClassRows
        ensures { result ≡ [] }
    {
        ClassRows {
            rows: Vec::new(alloc),
        }
    }

    pub fn as_slice(&self) -> &[Registered]
        ensures { result.now ≡ self.now }
    {
        self.rows.as_slice()
    }

    // Puts the query in its place. After `Memory` nothing changed.
    pub fn add(&mut self, row: Registered) -> Result<(), Memory>
        requires { IsInOrder registered_key self.old }
        ensures ok { OnOk result (self.new ≡ add_reg row self.old) }
        ensures err { OnErr result (self.new ≡ self.old) }
    {
        let at = up_to(self.rows.as_slice(), &row);
        self.rows.insert(at, row)?;
        Ok(())
    }

    // The query of that number, which stands there, waits for the port no more; the Finish that it sends where none is
    // left.
    pub fn finish(&mut self, spot: Spot, num: Num, port: u32) -> Option<Sent>
        requires order { IsInOrder registered_key self.old }
        requires there { spot_of num self.old ≡ Some spot }
        ensures rows { self.new ≡ (finish_in num port self.old).queries }
        ensures sent { option_to_list result ≡ (finish_in num port self.old).sent }
        ensures same { SameRows self.old self.new }
    {
        finish_one(&mut self.rows, spot, num, port)
    }

    // Catches up those that have to be. After `Memory` some of them have been.
    pub fn catch_up(
        &mut self,
        port: u32,
        class: u32,
        table: &Table,
        place: usize,
        out: &mut List<Sent>,
    ) -> Result<(), Memory>
        ensures rows { OnOk result (self.new ≡ map (caught_by (known_in place class table.now) port class) self.old) }
        ensures out { OnOk result (out.new ≡ out.old ++
            asks_at port (filter (catches_by (known_in place class table.now) port class) self.old)) }
        ensures grown { HasGrown out.old out.new }
        ensures same { SameRows self.old self.new }
    {
        catch_each(&mut self.rows, port, class, table, place, out)
    }

    // Drops those below the line, here and where their numbers stand. They stand first: no other is looked at.
    pub fn drop_below(&mut self, line: &Line, spots: &mut BTreeMap<Num, Spot>)
        requires { IsInOrder registered_key self.old }
        ensures rows { self.new ≡ not_below line.now self.old }
        ensures spots { (n : TheNum) → get num_cmp spots.new n ≡
            cond (has_reg n (filter (λ r. is_below r.stamp line.now) self.old)) None (get num_cmp spots.old n) }
    {
        let rows = self.rows.as_slice();
        let count = below(rows, line);
        forget_each(&rows[..count], spots);
        drop_first(&mut self.rows, count);
    }
}

fn finish_one(rows: &mut Vec<Registered>, spot: Spot, num: Num, port: u32) -> Option<Sent>
    requires order { IsInOrder registered_key rows.old.items }
    requires there { spot_of num rows.old.items ≡ Some spot }
    ensures rows { rows.new.items ≡ (finish_in num port rows.old.items).queries }
    ensures sent { option_to_list result ≡ (finish_in num port rows.old.items).sent }
    ensures same { SameRows rows.old.items rows.new.items }
{
    let alloc = *rows.allocator();
    let at = before(rows.as_slice(), spot.stamp, num);
    let row = &mut rows[at];
    take_off(alloc, row, port)
}

fn catch_each(
    rows: &mut Vec<Registered>,
    port: u32,
    class: u32,
    table: &Table,
    place: usize,
    out: &mut List<Sent>,
) -> Result<(), Memory>
    ensures rows { OnOk result (rows.new.items ≡
        map (caught_by (known_in place class table.now) port class) rows.old.items) }
    ensures out { OnOk result (out.new ≡ out.old ++
        asks_at port (filter (catches_by (known_in place class table.now) port class) rows.old.items)) }
    ensures grown { HasGrown out.old out.new }
    ensures same { SameRows rows.old.items rows.new.items }
{
    for at in 0..rows.len() {
        let row = &mut rows[at];
        catch_one(row, port, class, table, place, out)?;
    }
    Ok(())
}

// Where the numbers of these queries stand is forgotten.
fn forget_each(rows: &[Registered], spots: &mut BTreeMap<Num, Spot>)
    ensures { (n : TheNum) → get num_cmp spots.new n ≡ cond (has_reg n rows.now) None (get num_cmp spots.old n) }
{
    for row in rows {
        forget(row, spots);
    }
}

fn forget(row: &Registered, spots: &mut BTreeMap<Num, Spot>)
    ensures { (n : TheNum) → get num_cmp spots.new n ≡
        cond (num_eq n row.now.num) None (get num_cmp spots.old n) }
{
    spots.remove(&row.num);
}

// The first so many queries are dropped, and the others move up, where there is one to drop.
fn drop_first(rows: &mut Vec<Registered>, count: usize)
    requires { count ≤ length rows.old.items }
    ensures { rows.new.items ≡ drop count rows.old.items }
{
    if count > 0 {
        drop(rows.drain(..count));
    }
}

fn is_before(a: &Registered, b: &Registered) -> bool
    ensures { result ≡ key_lt (registered_key a.now) (registered_key b.now) }
{
    let stamp = a.stamp.is_before(&b.stamp);
    stamp || (!b.stamp.is_before(&a.stamp) && a.num.is_before(&b.num))
}

// How many queries don't stand after this one.
fn up_to(rows: &[Registered], row: &Registered) -> usize
    requires { IsInOrder registered_key rows.now }
    ensures within { result ≤ length rows.now }
    ensures value { result ≡ up_to (registered_key row.now) rows.now }
{
    rows.partition_point(|r| !is_before(row, r))
}

// How many queries are below the line.
fn below(rows: &[Registered], line: &Line) -> usize
    requires { IsInOrder registered_key rows.now }
    ensures within { result ≤ length rows.now }
    ensures first { take result rows.now ≡ filter (λ r. is_below r.stamp line.now) rows.now }
    ensures others { drop result rows.now ≡ not_below line.now rows.now }
{
    rows.partition_point(|r| line.is_past(r.stamp))
}

// How many queries stand before that stamp and number.
fn before(rows: &[Registered], stamp: Stamp, num: Num) -> usize
    requires { IsInOrder registered_key rows.now }
    ensures { result ≡ before (record { stamp = stamp; num = num }) rows.now }
{
    rows.partition_point(|r| stands_before(r, stamp, num))
}

fn stands_before(row: &Registered, stamp: Stamp, num: Num) -> bool
    ensures { result ≡ key_lt (registered_key row.now) (record { stamp = stamp; num = num }) }
{
    let earlier = row.stamp.is_before(&stamp);
    earlier || (!stamp.is_before(&row.stamp) && row.num.is_before(&num))
}
