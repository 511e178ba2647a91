//! The messages on their way between processes: each link is taken first in, first out, and found by its ends.
#![tactic(auto)]

mod heads;
mod index;
mod lane;
mod lanes;
mod mail;
#[cfg(test)]
mod tests;

pub use mail::Mail;
