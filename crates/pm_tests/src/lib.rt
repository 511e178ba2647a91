//! Tests of the program over devices in memory, and of a communication process by its calls, in a crate of their own so
//! that no other is proved twice for them.
#![tactic(auto)]

#[cfg(test)]
mod cells;
#[cfg(test)]
mod clps;
#[cfg(test)]
mod modes;
#[cfg(test)]
mod rows;
#[cfg(test)]
mod schedules;
#[cfg(test)]
mod tests;
#[cfg(test)]
mod threads;
