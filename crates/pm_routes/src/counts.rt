ghost use Rattle.std.specs.Prelude.{◌≡◌, ◌<◌, length, get_or, set, replicate, IfOk};
ghost use Rattle.pm_routes.specs.Routings.{raised, total};

use pm_base::Memory;
use std::alloc::Global;
use std::marker::Model;

/// The counts of one variable, with their sum.
#[derive(Debug, Drop)]
pub struct Counts {
    each: Vec<u64>,
    sum: u128,
}

impl Model for Counts {
    ghost use Rattle.std.specs.Prelude.{List as Seq, ℕ};
    ghost use Rattle.pm_routes.specs.Laid.{IsSummed};

    ghost Value = { Seq ℕ };

    ghost view = { λ c. c.each.items };

    ghost invariant = { λ c. IsSummed c.each.items c.sum };
}

impl Counts {
    /// So many counts, all 0.
    #[tactic(auto, using(crate::proofs::Sums::no_counts_yet))]
    pub fn make(alloc: Global, len: usize) -> Result<Counts, Memory>
        ensures { IfOk result (λ c. c ≡ replicate len 0) }
    {
        let each = vec![in alloc; 0u64; len]?;
        Ok(Counts { each, sum: 0 })
    }

    /// The count at that place.
    pub fn at(&self, place: usize) -> u64
        requires { place < length self.now }
        ensures { result ≡ get_or self.now place 0 }
    {
        self.each[place]
    }

    /// The other counts together.
    pub fn others(&self, place: usize) -> u128
        requires { place < length self.now }
        ensures { result ≡ total (set self.now place 0) }
    {
        self.sum - self.each[place] as u128
    }

    /// One more at that place, saturating.
    pub fn raise(&mut self, place: usize)
        requires { place < length self.old }
        ensures { self.new ≡ raised self.old place }
    {
        let before = self.each[place];
        let after = before.saturating_add(1);
        self.sum += (after - before) as u128;
        self.each[place] = after;
    }

    /// All counts become 0.
    #[tactic(auto, using(crate::proofs::Sums::no_counts_yet))]
    pub fn clear(&mut self)
        ensures { self.new ≡ replicate (length self.old) 0 }
    {
        self.each.fill(0);
        self.sum = 0;
    }
}
