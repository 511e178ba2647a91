//! What the processes send to one another.
#![tactic(auto)]

ghost use Rattle.std.specs.Prelude.{◌≡◌};
ghost use Rattle.pm_message.specs.Messages.{stamp_of};

use pm_base::{Change, GiveRow, Num, Parts, Query, Stamp, Window};

#[cfg(test)]
mod tests;

/// A message between two processes, on a tree edge or between an agent and its home. What a process does with each is
/// its own table; here is what a message carries.
#[derive(Debug, Drop)]
pub enum Message {
    /// An agent's call to itself: its next step is at this moment.
    Wake {
        num: Num,
        stamp: Stamp,
    },
    /// An agent asks, at a moment, for the value of one variable or for the values of a class in a window.
    Ask {
        num: Num,
        stamp: Stamp,
        query: Query,
    },
    /// A write, on its way to the variable's record.
    Put {
        num: Num,
        stamp: Stamp,
        var: u32,
        change: Change,
    },
    /// The withdrawal of the write of that number (its anti-message).
    Cut {
        num: Num,
        stamp: Stamp,
        var: u32,
    },
    /// A hit of a variable, on its way to the agent that asked.
    Give {
        row: GiveRow,
    },
    /// The query of that number was given to every record behind the sender.
    Finish {
        num: Num,
        stamp: Stamp,
    },
    /// Behind the sender the values of a class may stand in this window, at the moments after `from` up to `until`,
    /// that one included. Where `until` is absent, the moments have no end.
    Grow {
        class: u32,
        from: Stamp,
        until: Option<Stamp>,
        window: Window,
    },
    /// A variable's record moves to the receiver. No row in it stands below `floor`.
    Move {
        var: u32,
        floor: Stamp,
        parts: Parts,
    },
}

impl Message {
    /// The moment that holds the line back while the message is on its way: nothing that its receiver does for it
    /// touches an earlier moment.
    pub fn stamp(&self) -> Stamp
        ensures { result ≡ stamp_of self.now }
    {
        match self {
            Message::Wake { stamp, .. } => *stamp,
            Message::Ask { stamp, .. } => *stamp,
            Message::Put { stamp, .. } => *stamp,
            Message::Cut { stamp, .. } => *stamp,
            Message::Give { row } => row.stamp,
            Message::Finish { stamp, .. } => *stamp,
            Message::Grow { from, .. } => *from,
            Message::Move { floor, .. } => *floor,
        }
    }
}
