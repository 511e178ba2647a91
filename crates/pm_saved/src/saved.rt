ghost use Rattle.std.specs.Prelude.{◌≡◌, ◌+◌, ◌<◌, ◌≤◌, ◌^◌, ◌++◌, ◌∷◌, [], true, false, is_some, length, None, Some};
ghost use Rattle.std.specs.Prelude.{OnOk, OnErr};
ghost use Rattle.std.specs.Option.{option_map};
ghost use Rattle.pm_saved.specs.Senses.{add_kept};
ghost use Rattle.pm_saved.specs.Spots.{AtSpot, find, spot_of};
ghost use Rattle.pm_saved.specs.Steps.{AtLast, cut_to, first_ready, hand_out, nothing_kept, opened};
ghost use Rattle.pm_saved.specs.Steps.{with_act, with_asked, with_sense, with_step, without_first};

use crate::held::{Held, is_ready};
use crate::kept::{KeptAct, KeptHit, KeptSense};
use crate::spot::Spot;
use crate::steps::{act_last, ask_last, begin_last, cut_at, find_in, finish_at, keep_at, ready_in};
use pm_base::{Act, Entry, Hit, Line, List, Memory, Num, Query, Stamp, Value};
use std::alloc::Global;
use std::collections::VecDeque;
use std::marker::Model;

/// What an agent keeps of its steps until they are committed. Contracts see the registers before the kept steps, these
/// steps, and an end of the numbers under which senses asked. A number is found by two searches, since numbers rise.
#[derive(Debug, Drop)]
pub struct Saved {
    pub(crate) base: List<i64>,
    pub(crate) steps: VecDeque<Held>,
    pub(crate) next: u64,
}

impl Model for Saved {
    ghost use Rattle.pm_saved.specs.Steps.{Kept};

    ghost Value = { Kept };

    ghost use Rattle.pm_saved.specs.View.{kept_of, IsSound};

    ghost view = { kept_of };

    ghost invariant = { IsSound };
}

impl Saved {
    /// Nothing but the registers. It takes no memory: `alloc` is where steps take it from.
    pub fn new(alloc: Global, regs: List<i64>) -> Saved
        ensures { result ≡ nothing_kept regs }
    {
        Saved {
            base: regs,
            steps: VecDeque::new(alloc),
            next: 0,
        }
    }

    /// The place of the sense of this number: none exactly where no kept sense has it. It takes no memory.
    pub fn find(&self, num: Num) -> Option<Spot>
        ensures place { find num self.now.steps ≡ spot_of result self.now.steps }
        ensures variant { is_some (find num self.now.steps) ≡ is_some result }
    {
        find_in(&self.steps, num)
    }

    /// Adds a step that has sensed nothing yet. After `Memory` nothing has changed.
    pub fn begin(&mut self, alloc: Global, stamp: Stamp) -> Result<(), Memory>
        ensures ok { OnOk result (self.new ≡ with_step (opened stamp) self.old) }
        ensures err { OnErr result (self.new ≡ self.old) }
    {
        begin_last(alloc, &mut self.steps, self.next, stamp)?;
        Ok(())
    }

    /// Adds a sense of the last step, where there is a step. Its number comes after all under which senses asked so
    /// far. After `Memory` nothing has changed.
    pub fn ask(&mut self, alloc: Global, num: Num, query: Query) -> Result<(), Memory>
        requires after { self.old.used ≤ num.seq }
        requires small { num.seq + 1 < 2 ^ 64 }
        ensures ok { OnOk result (AtLast self.old.steps (λ front last. self.new ≡ with_asked front last
            (record { num = num; query = query; complete = false; hits = [] }) self.old)) }
        ensures err { OnErr result (self.new ≡ self.old) }
    {
        let sense = KeptSense {
            num,
            query,
            complete: false,
            hits: List::new(alloc),
        };
        ask_last(&mut self.steps, sense)?;
        self.next = num.seq + 1;
        Ok(())
    }

    /// Keeps a hit of the sense at this place, with its turn. After `Memory` nothing has changed.
    pub fn keep(&mut self, at: Spot, var: u32, turn: u64, hit: Option<Value>) -> Result<(), Memory>
        ensures ok { OnOk result (AtSpot self.old.steps at (λ s. self.new ≡ with_sense s
            (record s.sense { hits = add_kept (record { var = var; turn = turn; hit = hit }) s.sense.hits })
            self.old)) }
        ensures err { OnErr result (self.new ≡ self.old) }
    {
        keep_at(&mut self.steps, at, KeptHit { var, turn, hit })?;
        Ok(())
    }

    /// The sense at this place becomes complete. It takes no memory.
    pub fn finish(&mut self, at: Spot)
        ensures { AtSpot self.old.steps at (λ s. self.new ≡
            with_sense s (record s.sense { complete = true }) self.old) }
    {
        finish_at(&mut self.steps, at);
    }

    /// The last step ends. It takes no memory: its writes' numbers, its answers, its writes and registers are moved in.
    pub fn act(&mut self, nums: List<Num>, answers: List<List<Hit>>, act: Act)
        ensures { AtLast self.old.steps (λ front last. self.new ≡ with_act front last (record {
          entry = record { stamp = last.stamp; answers = answers; writes = act.writes };
          nums = nums;
          regs = act.regs;
          wait = act.wait;
        }) self.old) }
    {
        let Some(stamp) = self.last() else {
            return;
        };
        let Act { writes, regs, wait } = act;
        let entry = Entry {
            stamp,
            answers,
            writes,
        };
        let end = KeptAct {
            entry,
            nums,
            regs,
            wait,
        };
        act_last(&mut self.steps, end);
    }

    /// Drops all that came after the sense at this place: its step's later senses and its end, and all later steps. It
    /// takes no memory.
    pub fn cut_back(&mut self, at: Spot)
        ensures { AtSpot self.old.steps at (λ s. self.new ≡ cut_to s self.old) }
    {
        cut_at(&mut self.steps, at);
    }

    /// Takes the first kept step out, where it is below the line and has acted, and answers its entry; the registers
    /// after it are then those before the kept steps. It takes no memory.
    pub fn give_out(&mut self, line: Line) -> Option<Entry>
        ensures entry { result ≡ option_map (λ a. a.entry) (first_ready line self.old.steps) }
        ensures kept { self.new ≡ without_first (first_ready line self.old.steps) self.old }
    {
        let first = self.steps.front()?;
        if !is_ready(first, line) {
            return None;
        }
        let held = self.steps.pop_front()?;
        let act = act_of(held)?;
        let KeptAct { entry, regs, .. } = act;
        self.base = regs;
        Some(entry)
    }

    /// How many calls of `give_out` in a row would answer an entry. It takes no memory.
    pub fn ready(&self, line: Line) -> usize
        ensures { result ≡ length (hand_out line self.now.steps) }
    {
        ready_in(&self.steps, line)
    }

    /// How many steps are kept.
    pub fn kept(&self) -> usize
        ensures { result ≡ length self.now.steps }
    {
        self.steps.len()
    }
}

// How a held step ended.
fn act_of(held: Held) -> Option<KeptAct>
    ensures { result ≡ held.act }
{
    let Held {
        next: _,
        stamp: _,
        senses: _,
        act,
    } = held;
    act
}
