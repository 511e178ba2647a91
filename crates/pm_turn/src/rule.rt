// The rule of the turns' table, and its kinds of step. Taking a turn's value out of its slot and putting it in again
// are the table's own exchanges, which change no view.
ghost use Rattle.std.specs.Prelude.{◌≡◌};
ghost use Rattle.pm_turn.specs.Rule.{Kept, Took};
ghost use Rattle.pm_turn.specs.Views.{opened, opened_with, halved, given, joined, spent};

use crate::view::View;
use atomic_table::{Join, Play, Split, TableRule};
use pm_base::List;
use std::snapshot::Snapshot;

/// What a mark and a value have to have in common, for the value to fit the mark. It has no methods: contracts alone
/// see it.
pub trait Marked {
    ghost fits: { Self → Self → Type 0 };
}

/// Each value fits itself as the mark.
pub trait Fit: Marked {
    ghost same: { (x : Self) → Self.Marked.fits x x };
}

// What holds of the table between any two steps.
pub struct Rule;

impl<T: Fit> TableRule<Option<T>, View<T>, Snapshot<List<T>>> for Rule {
    ghost holds = { λ key. Kept T.fits key.value };

    ghost first = { λ key. opened key.value };
}

// A try to take a turn: its word goes from 0 to 1.
pub struct Take;

impl<T: Fit> Play<Option<T>, View<T>> for Take {
    ghost then = { λ st m r n. Took T.fits st.word m r n };
}

// A turn is given back: its word becomes 0 and its slot goes home.
pub struct Release;

impl<T: Fit> Play<Option<T>, View<T>> for Release {
    ghost then = { λ st m r n. n ≡ given m };
}

// A new seat gets a share.
pub struct Halve;

impl<T> Split<View<T>> for Halve {
    ghost left = { halved };

    ghost right = { λ v. opened_with v.marks 1 };
}

// A seat gets all shares of another one, which is spent.
pub struct Both;

impl<T> Join<View<T>> for Both {
    ghost both = { joined };

    ghost spent = { spent };
}
