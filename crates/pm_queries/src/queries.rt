ghost use Rattle.std.specs.Prelude.{◌≡◌, ◌<◌, ◌-◌, ◌^◌, ◌++◌, [], false, cond, length, map, min, filter, None, OnOk, OnErr};
ghost use Rattle.std.specs.BTreeMap.{get};
ghost use Rattle.std.specs.Option.{option_to_list};
ghost use Rattle.pm_base.specs.declared.stamp.Num.{Num as TheNum};
ghost use Rattle.pm_queries.specs.Laid.{AllRise, HasRoom, drops, merged, num_cmp};
ghost use Rattle.pm_queries.specs.Queries.{HasGrown, add_reg, asks_at, catches_by, caught_by, class_queries, finish_in};
ghost use Rattle.pm_queries.specs.Queries.{has_reg, not_below};
ghost use Rattle.pm_tables.specs.Tables.{known_in};

use crate::class_rows::ClassRows;
use crate::registered::{Registered, Sent, Spot};
use pm_base::{Line, List, Memory, Num};
use pm_tables::Table;
use std::alloc::Global;
use std::collections::BTreeMap;
use std::marker::Model;

/// The registered class queries of a process. Contracts see them as one list, in order of stamp, then of number; each
/// number stands once. The queries of each class stand by themselves, and a number is found in an ordered map.
#[derive(Debug, Drop)]
pub struct Queries {
    classes: Vec<ClassRows>,
    spots: BTreeMap<Num, Spot>,
}

impl Model for Queries {
    ghost use Rattle.std.specs.Prelude.{List as Seq};
    ghost use Rattle.std.specs.BTreeMap.{get};
    ghost use Rattle.pm_queries.specs.declared.registered.Registered.{Registered};
    ghost use Rattle.pm_queries.specs.Laid.{IsLaid, merged, num_cmp};

    ghost Value = { Seq Registered };

    ghost view = { λ q. merged q.classes.items };

    ghost invariant = { λ q. IsLaid q.classes.items (get num_cmp q.spots) };
}

impl Queries {
    /// No query. It takes no memory: `alloc` is where `register` takes it from.
    pub fn new(alloc: Global) -> Queries
        ensures { result ≡ [] }
    {
        Queries {
            classes: Vec::new(alloc),
            spots: BTreeMap::new(alloc),
        }
    }

    /// Whether a query of that number is registered.
    pub fn has(&self, num: Num) -> bool
        ensures { result ≡ has_reg num self.now }
    {
        self.spots.contains_key(&num)
    }

    /// How many queries are registered, at most `u64::MAX`. It goes over the classes, and takes no memory.
    pub fn count(&self) -> u64
        ensures { result ≡ min (length self.now) (2 ^ 64 - 1) }
    {
        count_of(self.classes.as_slice())
    }

    /// Registers a query of a new number. After `Memory` the queries are as they were.
    pub fn register(&mut self, alloc: Global, row: Registered) -> Result<(), Memory>
        requires { has_reg row.num self.old ≡ false }
        ensures ok { OnOk result (self.new ≡ add_reg row self.old) }
        ensures err { OnErr result (self.new ≡ self.old) }
    {
        let num = row.num;
        let class = row.class as usize;
        let stamp = row.stamp;
        make_room(alloc, &mut self.classes, class)?;
        self.spots.insert(
            num,
            Spot {
                class: row.class,
                stamp,
            },
        )?;
        let rows = &mut self.classes[class];
        match rows.add(row) {
            Ok(()) => Ok(()),
            Err(memory) => {
                self.spots.remove(&num);
                Err(memory)
            }
        }
    }

    /// The query of that number waits for the port no more. It answers the Finish to where the query came from exactly
    /// where the query waited for the port and waits for none now. It takes no memory.
    pub fn finish(&mut self, num: Num, port: u32) -> Option<Sent>
        ensures queries { self.new ≡ (finish_in num port self.old).queries }
        ensures sent { option_to_list result ≡ (finish_in num port self.old).sent }
    {
        let spot = match self.spots.get(&num) {
            Some(spot) => *spot,
            None => return None,
        };
        let rows = &mut self.classes[spot.class as usize];
        rows.finish(spot, num, port)
    }

    /// Catches up at the port, of which that place of the table tells: each query of the class, in order, that came
    /// from elsewhere, wasn't sent there, and whose window meets what may stand there at its stamp, is marked as sent
    /// there, and appended as it is sent. After `Memory` some of them may have been.
    pub fn catch_up(
        &mut self,
        port: u32,
        class: u32,
        table: &Table,
        place: usize,
        out: &mut List<Sent>,
    ) -> Result<(), Memory>
        ensures queries { OnOk result (self.new ≡
            map (caught_by (known_in place class table.now) port class) self.old) }
        ensures sent { OnOk result (out.new ≡ out.old ++
            asks_at port (filter (catches_by (known_in place class table.now) port class) self.old)) }
        ensures grown { HasGrown out.old out.new }
    {
        if class as usize >= self.classes.len() {
            return Ok(());
        }
        let rows = &mut self.classes[class as usize];
        rows.catch_up(port, class, table, place, out)
    }

    /// The queries of a class in order, lent.
    pub fn of_class(&self, class: u32) -> &[Registered]
        ensures { result.now ≡ class_queries class self.now }
    {
        match self.classes.get(class as usize) {
            Some(rows) => rows.as_slice(),
            None => &[],
        }
    }

    /// Drops the queries below the line. Of each class it looks at those that go, whose end is found by halving. It
    /// takes no memory.
    pub fn trim(&mut self, line: Line)
        ensures { self.new ≡ not_below line self.old }
    {
        drop_below(&mut self.classes, &mut self.spots, &line);
    }
}

fn count_of(classes: &[ClassRows]) -> u64
    ensures { result ≡ min (length (merged classes.now)) (2 ^ 64 - 1) }
{
    let mut count: u64 = 0;
    for rows in classes {
        count = count.saturating_add(rows.as_slice().len() as u64);
    }
    count
}

/// Empty classes are appended, until there is that one. After `Memory` some may have been.
fn make_room(alloc: Global, classes: &mut Vec<ClassRows>, class: usize) -> Result<(), Memory>
    ensures room { OnOk result (class < length classes.new.items) }
    ensures same { HasRoom classes.old.items classes.new.items }
{
    while classes.len() <= class {
        classes.push(ClassRows::new(alloc))?;
    }
    Ok(())
}

/// Drops the queries below the line from each class, and forgets where their numbers stood.
fn drop_below(classes: &mut Vec<ClassRows>, spots: &mut BTreeMap<Num, Spot>, line: &Line)
    requires { AllRise classes.old.items }
    ensures classes { classes.new.items ≡ map (not_below line.now) classes.old.items }
    ensures spots { (n : TheNum) → get num_cmp spots.new n ≡
        cond (drops n line.now classes.old.items) None (get num_cmp spots.old n) }
{
    for at in 0..classes.len() {
        let rows = &mut classes[at];
        rows.drop_below(line, spots);
    }
}
