ghost use Rattle.std.specs.Prelude.{◌≡◌, ◌<◌, ◌≤◌, ◌+◌, ◌^◌, length, vec_len, true, IfOk};
ghost use mathlib.Core.List.{IsPrefix};
ghost use Rattle.pm_workers.specs.Prefixes.{prefix_same, prefix_on};

use crate::{Count, Station, Turned, epoch_loans, epoch_turns};
use pm_base::{List, Memory};
use pm_io::{FreeGate, Gate};
use std::alloc::Global;
use std::sync::atomic::Ordering::SeqCst;
use std::sync::atomic::{AtomicBool, AtomicU64};
use std::test::Fail;

// A station that makes so many deliveries, and then has nothing or meets want of memory.
#[derive(Drop)]
struct Toy {
    number: u32,
    left: u64,
    fails: bool,
    heard: List<u32>,
    spoilt: bool,
}

impl Station for Toy {
    type Note = u32;

    ghost story = { λ s. s.heard };

    ghost idle = { λ s. s.left ≡ 0 };

    ghost is_spoilt = { λ s. s.spoilt };

    ghost follows = { λ a b. IsPrefix b.heard a.heard };

    fn turn(&mut self, _alloc: Global) -> Turned {
        if self.spoilt || (self.left == 0 && self.fails) {
            self.spoilt = true;
            return Turned::Memory;
        }
        if self.left == 0 {
            return Turned::Nothing;
        }
        if self.heard.push(self.number).is_err() {
            self.spoilt = true;
            return Turned::Memory;
        }
        self.left -= 1;
        Turned::Delivered
    }

    fn number(&self) -> u32 {
        self.number
    }

    fn told(&self) -> u64 {
        self.heard.len() as u64
    }

    fn spoilt(&self) -> bool {
        self.spoilt
    }

    ghost reflexive = { λ s. prefix_same s.heard };

    ghost transitive = { λ a b c p q. prefix_on c.heard b.heard a.heard q p };

    ghost begins = { λ a b p. p };
}

// Stations that have so many deliveries each, and are numbered by that. They have room for what they hear, so that a
// turn takes no memory.
fn toys(alloc: Global, lefts: &[u64], fails: bool) -> Result<List<Toy>, Memory> {
    let mut toys = List::new(alloc);
    for left in lefts {
        toys.push(Toy {
            number: (*left % 1_000) as u32,
            left: *left,
            fails,
            heard: List::from_vec(Vec::with_capacity(alloc, 64)?),
            spoilt: false,
        })?;
    }
    Ok(toys)
}

// Each worker's first call sets its own word and waits until the other one's is set, for so many looks at most. One
// thread alone can't pass without using its looks up.
#[derive(Drop)]
struct Meeting {
    asked: [AtomicU64; 2],
    missed: AtomicBool,
}

const LOOKS: u64 = 1_000_000_000;

impl Meeting {
    fn new() -> Meeting {
        Meeting {
            asked: [AtomicU64::new(0), AtomicU64::new(0)],
            missed: AtomicBool::new(false),
        }
    }

    // Whether both workers were asked, and neither used up its looks.
    fn took_place(&self) -> bool {
        self.asked[0].load(SeqCst) > 0
            && self.asked[1].load(SeqCst) > 0
            && !self.missed.load(SeqCst)
    }
}

impl Gate for Meeting {
    fn at(&self, worker: u32, _process: u32) {
        if worker > 1 {
            return;
        }
        let me = worker as usize;
        if self.asked[me].fetch_add(1, SeqCst) > 0 {
            return;
        }
        for _ in 0..LOOKS {
            if self.asked[1 - me].load(SeqCst) > 0 {
                return;
            }
        }
        self.missed.store(true, SeqCst);
    }
}

#[test]
fn two_workers_with_loans_are_at_work_at_the_same_time(rt: HostRuntime) -> Result<(), Fail> {
    let gate = Meeting::new();
    let mut stations = toys(rt.alloc(), &[3, 3], false).expect(&rt, "memory");
    assert!(rt; stations.len() == 2);
    let count = epoch_loans(&rt, rt.alloc(), &mut stations, 2, 6, &gate);
    assert!(rt; count.made == 6 && !count.memory && gate.took_place());
    Ok(())
}

#[test]
fn two_workers_that_take_turns_are_at_work_at_the_same_time(rt: HostRuntime) -> Result<(), Fail> {
    let gate = Meeting::new();
    let stations = toys(rt.alloc(), &[4, 3], false).expect(&rt, "memory");
    assert!(rt; stations.len() == 2);
    let done = epoch_turns(&rt, rt.alloc(), stations, 2, 6, &gate);
    let (stations, count) = done.expect(&rt, "memory");
    assert!(rt; count.made == 6 && !count.memory && gate.took_place());
    let stations = stations.as_slice();
    assert!(rt; stations.len() == 2 && stations[0].number == 4 && stations[1].number == 3);
    Ok(())
}

#[test]
fn epochs_make_what_the_quota_and_the_stations_allow(rt: HostRuntime) -> Result<(), Fail> {
    // what each station has, whether it then fails, workers, quota, what is made, whether a station is spoilt
    let rows = [
        ([5, 5, 5].as_slice(), false, 2, 0, 0, false),
        ([5, 5, 5].as_slice(), false, 2, 10, 10, false),
        ([5, 1, 5].as_slice(), false, 2, 9, 7, false),
        ([0, 0, 0].as_slice(), false, 2, 9, 0, false),
        // the workers' shares are used up where nothing is, so the last turns make the delivery
        ([0, 3, 3].as_slice(), false, 2, 1, 1, false),
        ([1, 0, 5].as_slice(), true, 1, 9, 1, true),
        ([0, 0].as_slice(), true, 8, 9, 0, true),
        ([9, 9].as_slice(), false, 8, 7, 7, false),
        ([99].as_slice(), false, 64, 40, 40, false),
    ];
    for (lefts, fails, workers, quota, made, memory) in rows {
        let mut lent = toys(rt.alloc(), lefts, fails).expect(&rt, "memory");
        let given = toys(rt.alloc(), lefts, fails).expect(&rt, "memory");
        assert!(rt;
            0 < lent.len() && lent.len() < 9 && 0 < given.len() && given.len() < 9 && 0 < workers
        );
        let loans = epoch_loans(&rt, rt.alloc(), &mut lent, workers, quota, &FreeGate);
        let turns = epoch_turns(&rt, rt.alloc(), given, workers, quota, &FreeGate);
        let turns = turns.expect(&rt, "memory").1;
        assert!(rt; loans == Count { made, memory } && turns == loans);
    }
    Ok(())
}
