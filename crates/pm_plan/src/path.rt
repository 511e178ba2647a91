ghost use Rattle.std.specs.Prelude.{◌≡◌, ◌≢◌, ◌<◌, ℕ, List, ◌∷◌, length};
ghost use Rattle.pm_plan.specs.Plans.{IsValid, parents};
ghost use Rattle.pm_plan.specs.Trees.{hop, path, path_len, IsPath};

use crate::Plan;
use crate::tree::parent_of;

impl Plan {
    /// The neighbour of process `from` on the only path to `to`. It goes up from `to`, and takes no memory.
    pub fn hop(&self, from: u32, to: u32) -> u32
        requires valid { IsValid self.now }
        requires from { from < length self.now.clps }
        requires to { to < length self.now.clps }
        requires apart { from ≢ to }
        ensures value { result ≡ hop (parents self.now.clps) from to }
        ensures path { (rest : List ℕ) × IsPath (parents self.now.clps) from to (result ∷ rest) }
    {
        let clps = self.clps.as_slice();
        let mut below = to;
        while let Some(above) = parent_of(clps, below) {
            if above == from {
                return below;
            }
            below = above;
        }
        parent_of(clps, from).unwrap_or(from)
    }

    /// The number of edges of the only path between two processes. It takes no memory.
    pub fn path_len(&self, a: u32, b: u32) -> u32
        requires valid { IsValid self.now }
        requires a { a < length self.now.clps }
        requires b { b < length self.now.clps }
        ensures value { result ≡ path_len (parents self.now.clps) a b }
        ensures path { (xs : List ℕ) × IsPath (parents self.now.clps) a b xs × (result ≡ length xs) }
    {
        let mut at = a;
        let mut edges = 0;
        while at != b {
            at = self.hop(at, b);
            edges += 1;
        }
        edges
    }
}
