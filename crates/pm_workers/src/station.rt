ghost use Rattle.std.specs.Prelude.{◌≡◌, ◌+◌, List, length, true, Bool};
ghost use mathlib.Core.List.{IsPrefix};
ghost use Rattle.pm_workers.specs.Turns.{grown, is_memory};

use std::alloc::Global;

/// What a turn did: it made a delivery, found nothing to deliver, or met want of memory.
#[derive(Clone, Copy, Debug, PartialEq, Eq)]
pub enum Turned {
    Delivered,
    Nothing,
    Memory,
}

/// What workers give turns to. Contracts see its story, a list; whether it is idle, so that nothing it knows of can be
/// delivered now; whether it is spoilt; and what it may become, `follows now before`. A station begins to be spoilt
/// exactly where its turn answers `Memory`, and a spoilt one answers `Memory` at each turn.
///
/// In an epoch by turns a station is moved out of its place and back at each turn, so a large one belongs into a box.
pub trait Station: Send {
    /// What a story consists of.
    type Note;

    ghost story: { Self → List Self.Note };

    ghost idle: { Self → Type 0 };

    ghost is_spoilt: { Self → Bool };

    ghost follows: { Self → Self → Type 0 };

    /// One turn: at most one delivery, which makes the story one longer.
    fn turn(&mut self, alloc: Global) -> Turned
        ensures follows { follows self.new self.old }
        ensures story { length (story self.new) ≡ length (story self.old) + grown result }
        ensures idle { result ≡ Turned.Nothing → idle self.new }
        ensures spoilt { is_spoilt self.new ≡ is_memory result }
        ensures stays { is_spoilt self.old ≡ true → result ≡ Turned.Memory };

    /// The number of its process, which the gate is told.
    fn number(&self) -> u32;

    /// How long its story is.
    fn told(&self) -> u64
        ensures { result ≡ length (story self.now) };

    /// Whether it is spoilt.
    fn spoilt(&self) -> bool
        ensures { result ≡ is_spoilt self.now };

    ghost reflexive: { (s : Self) → follows s s };

    ghost transitive: { (a : Self) (b : Self) (c : Self) → follows a b → follows b c → follows a c };

    ghost begins: { (a : Self) (b : Self) → follows a b → IsPrefix (story b) (story a) };
}
