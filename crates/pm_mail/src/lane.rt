// One link, as it is kept, and a list of them.
ghost use Rattle.std.specs.Prelude.{◌≡◌, ◌<◌, length, map, OnOk, OnErr};
ghost use Rattle.pm_base.specs.Stamps.{or_lower};
ghost use Rattle.pm_mail.specs.Inner.{link_of, lowered, messages_at, posted_at, taken_at};
ghost use Rattle.pm_mail.specs.Links.{first_of};
ghost use Rattle.pm_message.specs.Messages.{stamp_of};

use pm_base::{Line, Memory, Stamp};
use pm_message::Message;
use std::collections::VecDeque;

/// The receiver and the sender of a link.
#[derive(Clone, Copy, Debug, PartialEq, Eq, PartialOrd, Ord)]
pub struct Ends {
    pub to: u32,
    pub from: u32,
}

/// A link with the messages on it.
#[derive(Debug, Drop)]
pub struct Lane {
    pub ends: Ends,
    pub waiting: VecDeque<Message>,
}

/// Puts a message at the end of the link of that place.
pub fn push_at(lanes: &mut Vec<Lane>, at: usize, message: Message) -> Result<(), Memory>
    requires { at < length lanes.old.items }
    ensures ok { OnOk result (map link_of lanes.new.items ≡ posted_at at message (map link_of lanes.old.items)) }
    ensures err { OnErr result (map link_of lanes.new.items ≡ map link_of lanes.old.items) }
{
    lanes[at].waiting.push_back(message)?;
    Ok(())
}

/// Takes the first message off the link of that place.
pub fn take_at(lanes: &mut Vec<Lane>, at: usize) -> Option<Message>
    requires { at < length lanes.old.items }
    ensures message { result ≡ first_of (messages_at at (map link_of lanes.old.items)) }
    ensures links { map link_of lanes.new.items ≡ taken_at at (map link_of lanes.old.items) }
{
    lanes[at].waiting.pop_front()
}

/// The lesser of a moment and a line.
fn lower(stamp: Stamp, line: Line) -> Line
    ensures { result ≡ or_lower stamp line }
{
    if line.is_past(stamp) {
        Line::At(stamp)
    } else {
        line
    }
}

/// The least of a line and the moments of these messages.
fn lower_all(messages: &[Message], line: Line) -> Line
    ensures { result ≡ lowered line (map stamp_of messages.now) }
{
    let mut least = line;
    for message in messages {
        least = lower(message.stamp(), least);
    }
    least
}

/// The least of a line and the moments of a link's messages.
pub fn lower_by(lane: &Lane, line: Line) -> Line
    ensures { result ≡ lowered line (map stamp_of lane.now.waiting.items) }
{
    let (front, back) = lane.waiting.as_slices();
    lower_all(back, lower_all(front, line))
}
