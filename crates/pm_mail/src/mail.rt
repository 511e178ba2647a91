ghost use Rattle.std.specs.Prelude.{◌≡◌, ℕ, ◌<◌, ◌≤◌, [], false, IfSome, IfNone, IsSome, OnOk, OnErr};
ghost use Rattle.std.specs.Prelude.{option_copied};
ghost use Rattle.pm_base.specs.Stamps.{least_line_of};
ghost use Rattle.pm_mail.specs.Headed.{IsHeaded};
ghost use Rattle.pm_mail.specs.Links.{IsAwaited, IsIdle, is_before};
ghost use Rattle.pm_mail.specs.Links.{first_of, has_link, moments, opened, posted, taken, waiting};

use crate::heads::{Head, Heads};
use crate::index::{enter, first_from, follow, leave, next_of};
use crate::lanes::Lanes;
use pm_base::{Line, Memory};
use pm_message::Message;
use std::alloc::Global;
use std::collections::BTreeMap;
use std::marker::Model;

/// The messages on their way between processes, which are named by their numbers. Contracts see it as the links with
/// their messages, in the order in which the links were opened.
#[derive(Drop)]
pub struct Mail {
    links: Lanes,
    heads: BTreeMap<u32, Heads>,
}

impl Model for Mail {
    ghost use Rattle.std.specs.Prelude.{List};
    ghost use Rattle.pm_mail.specs.Links.{Link};

    ghost Value = { List Link };

    ghost use Rattle.pm_mail.specs.Headed.{IsHeaded};

    ghost view = { λ m. m.links };

    ghost invariant = { IsHeaded };
}

impl Mail {
    /// No link. It takes no memory: `alloc` is where later links take it from.
    pub fn new(alloc: Global) -> Mail
        ensures { result ≡ [] }
    {
        Mail {
            links: Lanes::new(alloc),
            heads: BTreeMap::new(alloc),
        }
    }

    /// Whether there is a link to that process from that one. It takes no memory.
    pub fn has_link(&self, to: u32, from: u32) -> bool
        ensures { result ≡ has_link to from self.now }
    {
        self.links.has_link(to, from)
    }

    /// Opens that link, where it isn't there yet.
    pub fn open(&mut self, alloc: Global, to: u32, from: u32) -> Result<(), Memory>
        ensures ok { OnOk result (self.new ≡ opened to from self.old) }
        ensures err { OnErr result (self.new ≡ self.old) }
    {
        self.links.open(alloc, to, from)
    }

    /// Puts a message at the end of its link, which is opened where it isn't there.
    pub fn post(
        &mut self,
        alloc: Global,
        to: u32,
        from: u32,
        message: Message,
    ) -> Result<(), Memory>
        ensures ok { OnOk result (self.new ≡ posted to from message self.old) }
        ensures err { OnErr result (self.new ≡ self.old) }
    {
        if self.links.first(to, from).is_some() {
            return self.links.post(alloc, to, from, message);
        }
        let head = Head {
            stamp: message.stamp(),
            from,
        };
        enter(&mut self.heads, alloc, to, head)?;
        if let Err(error) = self.links.post(alloc, to, from, message) {
            leave(&mut self.heads, to, head);
            return Err(error);
        }
        Ok(())
    }

    /// The message that is taken next from that link, where there is one. It takes no memory.
    pub fn first(&self, to: u32, from: u32) -> Option<&Message>
        ensures { option_copied result ≡ first_of (waiting to from self.now) }
    {
        self.links.first(to, from)
    }

    /// Takes the first message off that link, where there is one. It takes no memory.
    pub fn take(&mut self, to: u32, from: u32) -> Option<Message>
        ensures message { result ≡ first_of (waiting to from self.old) }
        ensures links { self.new ≡ taken to from self.old }
    {
        let message = self.links.take(to, from)?;
        let head = Head {
            stamp: message.stamp(),
            from,
        };
        match self.links.first_stamp(to, from) {
            Some(stamp) => {
                follow(&mut self.heads, to, head, Head { stamp, from });
                Some(message)
            }
            None => {
                leave(&mut self.heads, to, head);
                Some(message)
            }
        }
    }

    /// The sender of the link to that process whose first message comes first, by its moment, then by its sender. It
    /// takes no memory, and looks at one receiver's list alone, which it finds by its number.
    pub fn next(&self, to: u32) -> Option<u32>
        ensures there { IfSome result (λ from. IsSome (first_of (waiting to from self.now))) }
        ensures least { IfSome result (λ from. (g : ℕ) → is_before to g from self.now ≡ false) }
        ensures none { IfNone result (IsIdle to self.now) }
    {
        match next_of(&self.heads, to) {
            Some(head) => Some(head.from),
            None => None,
        }
    }

    /// The least process number from `start` on to which a message is on its way. It takes no memory, and finds the
    /// number at once.
    pub fn next_receiver(&self, start: u32) -> Option<u32>
        ensures from { IfSome result (λ to. start ≤ to) }
        ensures there { IfSome result (λ to. IsAwaited to self.now) }
        ensures least { IfSome result (λ to. (t : ℕ) → start ≤ t → t < to → IsIdle t self.now) }
        ensures none { IfNone result ((t : ℕ) → start ≤ t → IsIdle t self.now) }
    {
        first_from(&self.heads, start)
    }

    /// The line at the least moment of all messages, or the end where there is none. It takes no memory.
    pub fn least(&self) -> Line
        ensures { result ≡ least_line_of (moments self.now) }
    {
        self.links.least()
    }
}
