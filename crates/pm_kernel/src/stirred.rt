// Which processes may have something to be delivered.
ghost use Rattle.std.specs.Prelude.{◌≡◌, ◌≤◌, ◌<◌, IfOk, IfSome};

use pm_base::Memory;
use std::alloc::Global;

// How many processes a word has a bit for.
const WORD: usize = 64;

/// For each process, whether something was sent to it, or the window let its moment through, since it was found to have
/// nothing. It saves looking: before an epoch says that no process has anything, each is looked at all the same.
#[derive(Debug, Drop)]
pub struct Stirred {
    words: Vec<u64>,
    count: u32,
}

impl Stirred {
    /// So many processes, each of which may have something.
    pub fn all(alloc: Global, count: u32) -> Result<Stirred, Memory>
        ensures { IfOk result (λ s. s.count ≡ count) }
    {
        Ok(Stirred {
            words: Vec::from_elem(alloc, u64::MAX, (count as usize).div_ceil(WORD))?,
            count,
        })
    }

    // The first number from that one on whose bit is set.
    fn find(&self, from: u32) -> Option<usize> {
        let first = from as usize / WORD;
        for at in first..self.words.len() {
            let mask = if at == first {
                u64::MAX << (from % 64)
            } else {
                u64::MAX
            };
            let bits = self.words[at] & mask;
            if bits != 0 {
                let place = bits.trailing_zeros() as usize;
                return Some(at.wrapping_mul(WORD).wrapping_add(place));
            }
        }
        None
    }

    /// The first process from that number on that may have something.
    pub fn next(&self, from: u32) -> Option<u32>
        ensures { IfSome result (λ n. (from ≤ n) × (n < self.now.count)) }
    {
        let number = self.find(from)?;
        if from as usize <= number && number < self.count as usize {
            Some(number as u32)
        } else {
            None
        }
    }

    /// The process may have something.
    pub fn set(&mut self, number: u32)
        ensures { self.new.count ≡ self.old.count }
    {
        if let Some(word) = self.words.get_mut(number as usize / WORD) {
            *word |= 1 << (number % 64);
        }
    }

    /// The process has nothing.
    pub fn clear(&mut self, number: u32)
        ensures { self.new.count ≡ self.old.count }
    {
        if let Some(word) = self.words.get_mut(number as usize / WORD) {
            *word &= !(1 << (number % 64));
        }
    }

    /// These processes may have something.
    pub fn stir(&mut self, numbers: &[u32])
        ensures { self.new.count ≡ self.old.count }
    {
        for number in numbers {
            self.set(*number);
        }
    }
}
