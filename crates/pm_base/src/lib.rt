//! The types that every layer speaks of: lists and names, stamps and lines, values and windows, the rows of the wire,
//! and the tree of a rule.
#![tactic(auto)]

mod boxed;
mod copy;
mod fits;
mod layout;
mod list;
mod memory;
mod name;
mod program;
mod rows;
mod run;
mod stamp;
#[cfg(test)]
mod tests;
mod value;
mod words;

pub use boxed::Boxed;
pub use fits::printed_forms_are_counted;
pub use layout::{ClassRow, Layout};
pub use list::List;
pub use memory::Memory;
pub use name::Name;
pub use program::{Expr, Field, Op, Place, Program, RegRow, Sense, SenseRow, Stmt};
pub use rows::{Act, CutRow, Entry, GiveRow, Parts, PutRow, ReadRow};
pub use run::{Event, Journal, RunSettings};
pub use stamp::{
    Interval, Line, Num, Stamp, comparing_follows_the_orders, orders_are_strict,
    tests_tell_the_order,
};
pub use value::{Change, Hit, Period, Query, Value, Window, Write, tests_tell_the_box};
pub use words::{is_name, is_reserved, names_are_told};
