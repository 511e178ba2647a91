// Which variables.
ghost use Rattle.std.specs.Prelude.{◌≡◌, ◌<◌, ◌≤◌, ◌==◌, ◌&&◌, ◌||◌, ℕ, [], true, false, not, length, OnOk, OnErr};
ghost use Rattle.pm_clp.specs.Laid.{in_set};

use pm_base::Memory;
use std::alloc::Global;
use std::marker::Model;

// How many variables a word has a bit for.
const WORD: usize = 64;

/// Some variables, by a bit for each. Contracts see them as the words.
#[derive(Debug, Drop)]
pub struct VarSet {
    words: Vec<u64>,
}

impl Model for VarSet {
    ghost use Rattle.std.specs.Prelude.{List as Seq, ℕ};

    ghost Value = { Seq ℕ };

    ghost view = { λ s. s.words.items };
}

impl VarSet {
    /// No variable. It takes no memory: `alloc` is where `add` takes it from.
    pub fn new(alloc: Global) -> VarSet
        ensures { result ≡ [] }
    {
        VarSet {
            words: Vec::new(alloc),
        }
    }

    // Has the word at that place, too.
    fn reach(&mut self, at: usize) -> Result<(), Memory>
        ensures same { (v : ℕ) → in_set self.new v ≡ in_set self.old v }
        ensures long { OnOk result (at < length self.new) }
    {
        while self.words.len() <= at {
            self.words.push(0)?;
        }
        Ok(())
    }

    /// The variable is one of them now. After `Memory` nothing changed.
    pub fn add(&mut self, var: u32) -> Result<(), Memory>
        ensures ok { OnOk result ((v : ℕ) → in_set self.new v ≡ (var == v || in_set self.old v)) }
        ensures err { OnErr result ((v : ℕ) → in_set self.new v ≡ in_set self.old v) }
    {
        let at = var as usize / WORD;
        self.reach(at)?;
        self.words[at] |= 1 << (var % 64);
        Ok(())
    }

    /// The variable is none of them now.
    pub fn remove(&mut self, var: u32)
        ensures { (v : ℕ) → in_set self.new v ≡ (not (var == v) && in_set self.old v) }
    {
        let at = var as usize / WORD;
        if at < self.words.len() {
            self.words[at] &= !(1 << (var % 64));
        }
    }

    /// The least of them from `from` on that is below `until`, and `until` where there is none. It looks at a word of
    /// bits at a time.
    pub fn next(&self, from: u32, until: u32) -> u32
        requires { from ≤ until }
        ensures from { from ≤ result }
        ensures until { result ≤ until }
        ensures least { (v : ℕ) → from ≤ v → v < result → in_set self.now v ≡ false }
    {
        let end = until as usize;
        let mut at = from as usize;
        while at < end {
            let Some(word) = self.words.get(at / WORD) else {
                return until;
            };
            let bits = *word >> (at % WORD);
            if bits != 0 {
                return (at + bits.trailing_zeros() as usize).min(end) as u32;
            }
            at = (at / WORD + 1) * WORD;
        }
        until
    }
}
