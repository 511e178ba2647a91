ghost use Rattle.std.specs.Prelude.{◌≡◌, ◌++◌, ◌∷◌, ◌<◌, [], map, length, get_or, set, is_some, IfSome, OnOk, OnErr};
ghost use Rattle.std.specs.Prelude.{slice_get, option_copied, option_map};
ghost use Rattle.pm_base.specs.Stamps.{least_line_of};
ghost use Rattle.pm_mail.specs.Inner.{IsIndexed, link_of, links_of, place_of};
ghost use Rattle.pm_mail.specs.Links.{first_moment, first_of, has_link, moments, opened, posted, taken, waiting};

use crate::lane::{Ends, Lane, lower_by, push_at, take_at};
use pm_base::{Line, Memory, Stamp};
use pm_message::Message;
use std::alloc::Global;
use std::collections::{BTreeMap, VecDeque};
use std::marker::Model;

/// The links with their messages, in the order in which they were opened; each is found by its ends.
#[derive(Drop)]
pub struct Lanes {
    lanes: Vec<Lane>,
    places: BTreeMap<Ends, usize>,
}

impl Model for Lanes {
    ghost use Rattle.std.specs.Prelude.{List};
    ghost use Rattle.pm_mail.specs.Links.{Link};

    ghost Value = { List Link };

    ghost use Rattle.pm_mail.specs.Inner.{IsIndexed, links_of};

    ghost view = { links_of };

    ghost invariant = { IsIndexed };
}

impl Lanes {
    /// No link. It takes no memory: `alloc` is where later links take it from.
    pub fn new(alloc: Global) -> Lanes
        ensures { result ≡ [] }
    {
        Lanes {
            lanes: Vec::new(alloc),
            places: BTreeMap::new(alloc),
        }
    }

    /// Whether there is a link to that process from that one. It takes no memory.
    pub fn has_link(&self, to: u32, from: u32) -> bool
        ensures { result ≡ has_link to from self.now }
    {
        self.place(to, from).is_some()
    }

    /// Opens that link, where it isn't there yet.
    pub fn open(&mut self, alloc: Global, to: u32, from: u32) -> Result<(), Memory>
        ensures ok { OnOk result (self.new ≡ opened to from self.old) }
        ensures err { OnErr result (self.new ≡ self.old) }
    {
        if self.has_link(to, from) {
            return Ok(());
        }
        self.append(to, from, VecDeque::new(alloc))
    }

    /// Puts a message at the end of its link, which is opened where it isn't there.
    pub fn post(
        &mut self,
        alloc: Global,
        to: u32,
        from: u32,
        message: Message,
    ) -> Result<(), Memory>
        ensures ok { OnOk result (self.new ≡ posted to from message self.old) }
        ensures err { OnErr result (self.new ≡ self.old) }
    {
        match self.place(to, from) {
            Some(at) => {
                push_at(&mut self.lanes, at, message)?;
                Ok(())
            }
            None => {
                let mut waiting = VecDeque::new(alloc);
                waiting.push_back(message)?;
                self.append(to, from, waiting)
            }
        }
    }

    /// The message that is taken next from that link, where there is one. It takes no memory.
    pub fn first(&self, to: u32, from: u32) -> Option<&Message>
        ensures { option_copied result ≡ first_of (waiting to from self.now) }
    {
        match self.place(to, from) {
            Some(at) => self.lanes[at].waiting.front(),
            None => None,
        }
    }

    /// The moment of the message that is taken next from that link. It takes no memory.
    pub fn first_stamp(&self, to: u32, from: u32) -> Option<Stamp>
        ensures { result ≡ first_moment to from self.now }
    {
        match self.first(to, from) {
            Some(message) => Some(message.stamp()),
            None => None,
        }
    }

    /// Takes the first message off that link, where there is one. It takes no memory.
    pub fn take(&mut self, to: u32, from: u32) -> Option<Message>
        ensures message { result ≡ first_of (waiting to from self.old) }
        ensures links { self.new ≡ taken to from self.old }
    {
        match self.place(to, from) {
            Some(at) => take_at(&mut self.lanes, at),
            None => None,
        }
    }

    /// The line at the least moment of all messages, or the end where there is none. It takes no memory.
    pub fn least(&self) -> Line
        ensures { result ≡ least_line_of (moments self.now) }
    {
        let mut least = Line::End;
        for lane in self.lanes.as_slice() {
            least = lower_by(lane, least);
        }
        least
    }

    // The place of that link.
    fn place(&self, to: u32, from: u32) -> Option<usize>
        ensures { result ≡ place_of to from self.now }
    {
        self.places.get(&Ends { to, from }).copied()
    }

    // Opens that link with these messages on it.
    fn append(&mut self, to: u32, from: u32, waiting: VecDeque<Message>) -> Result<(), Memory>
        requires { place_of to from self.old ≡ None }
        ensures ok { OnOk result (self.new ≡
            self.old ++ (record { to = to; from = from; messages = waiting.items }) ∷ []) }
        ensures err { OnErr result (self.new ≡ self.old) }
    {
        self.lanes.reserve(1)?;
        let ends = Ends { to, from };
        self.places.insert(ends, self.lanes.len())?;
        self.lanes.push(Lane { ends, waiting })?;
        Ok(())
    }
}
