// What a seat knows of the turns.
ghost use Rattle.std.specs.Prelude.{ℕ, List};
ghost use Rattle.std.specs.Coded.{coded_list};
ghost use Rattle.std.specs.Borrow.{ftrue};

use std::marker::{Model, PhantomData};

// A seat's view. No value of it is made.
pub struct View<T> {
    marker: PhantomData<T>,
    // The turns that the seat holds, the one that it took last first.
    pub ghost holds: { List ℕ },
    // How often it tried to take one.
    pub ghost tries: { ℕ },
    // The word that its last try read.
    pub ghost last: { ℕ },
    // How many of the 2^32 shares it has.
    pub ghost shares: { ℕ },
    // The marks of all turns.
    pub ghost marks: { List T } by { coded_list T.code },
}

impl<T> Model for View<T> {
    ghost also_owns = { λ _. ftrue };
}
