// What a process keeps.
ghost use Rattle.std.specs.Prelude.{◌≡◌, ◌≤◌, ◌<◌, ℕ, None};
ghost use Rattle.pm_clp.specs.Clps.{rec_at};
ghost use Rattle.pm_clp.specs.Sizes.{size_of};

use crate::clp::Clp;

impl Clp {
    /// How many received puts and cuts, reads and registered queries are kept, at most `u64::MAX`. It takes no memory.
    #[tactic(auto, using(crate::proofs::Counting::sizes))]
    pub fn kept(&self) -> u64
        ensures { result ≡ size_of self.now.clp }
    {
        self.records.rows().saturating_add(self.queries.count())
    }

    // The first variable from `from` on whose record is here, below `until`; `until` where there is none.
    pub(crate) fn next_here(&self, from: u32, until: u32) -> u32
        requires { from ≤ until }
        ensures from { from ≤ result }
        ensures until { result ≤ until }
        ensures skipped { (v : ℕ) → from ≤ v → v < result → rec_at self.now.clp.records v ≡ None }
    {
        self.records.next(from, until)
    }
}
