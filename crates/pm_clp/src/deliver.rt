// A delivery.
ghost use Rattle.std.specs.Prelude.{◌≡◌, ◌<◌, ◌+◌, ◌^◌, ◌++◌, false, true, is_err, OnOk};
ghost use Rattle.pm_clp.specs.Clps.{clp_after};
ghost use Rattle.pm_clp.specs.Takes.{fits, takes};
ghost use Rattle.pm_clp.specs.Views.{DidAny, Stays};
ghost use Rattle.pm_queries.specs.Queries.{HasGrown};

use crate::clp::Clp;
use pm_base::{CutRow, List, Memory, PutRow, Query};
use pm_message::Message;
use pm_queries::Sent;
use std::alloc::Global;

impl Clp {
    // What the message asks for happens. A Wake never fits.
    fn act(
        &mut self,
        alloc: Global,
        from: u32,
        message: Message,
        out: &mut List<Sent>,
    ) -> Result<(), Memory>
        requires fits { fits self.old.hub self.old.clp from message ≡ true }
        requires turns { self.old.limit < 2 ^ 32 + self.old.made }
        ensures did { OnOk result (DidAny self.old self.new out.old out.new (clp_after self.old.hub from message)) }
        ensures stays { Stays self.old self.new }
        ensures grown { HasGrown out.old out.new }
    {
        match message {
            Message::Wake { .. } => Ok(()),
            Message::Ask { num, stamp, query } => match query {
                Query::One { var } => self.on_read(alloc, from, num, stamp, var, out),
                Query::Class { class, window } => {
                    self.on_scan(alloc, from, num, stamp, class, window, out)
                }
            },
            Message::Put {
                num,
                stamp,
                var,
                change,
            } => self.on_put(alloc, from, var, PutRow { num, stamp, change }, out),
            Message::Cut { num, stamp, var } => {
                self.on_cut(alloc, var, CutRow { num, stamp }, out)
            }
            Message::Give { row } => self.on_give(row, out),
            Message::Finish { num, .. } => self.on_finish(from, num, out),
            Message::Grow {
                class,
                from: start,
                until,
                window,
            } => self.on_grow(alloc, from, class, start, until, window, out),
            Message::Move { var, parts, .. } => self.on_move(alloc, from, var, &parts, out),
        }
    }

    /// Delivers a message from that process that `takes` admits: the process is what the message makes of it, and what
    /// it sends is appended to `out`, in order. After `Memory` the process is spoilt, and `out` may have grown: from
    /// then on it answers `Memory`, and appends nothing. A delivery is counted whatever it answers, unless the process
    /// was spoilt before.
    pub fn deliver(
        &mut self,
        alloc: Global,
        from: u32,
        message: Message,
        out: &mut List<Sent>,
    ) -> Result<(), Memory>
        requires { self.old.spoilt ≡ false → takes self.old.hub self.old.made self.old.clp from message ≡ true }
        ensures state { OnOk result (self.new.clp ≡ (clp_after self.old.hub from message self.old.clp).clp) }
        ensures sent { OnOk result (out.new ≡ out.old ++ (clp_after self.old.hub from message self.old.clp).sent) }
        ensures hub { self.new.hub ≡ self.old.hub }
        ensures made { OnOk result (self.new.made ≡ self.old.made + 1) }
        ensures counted { self.old.spoilt ≡ false → self.new.made ≡ self.old.made + 1 }
        ensures grown { HasGrown out.old out.new }
        ensures well { OnOk result (self.old.spoilt ≡ false) }
        ensures spoilt { self.new.spoilt ≡ is_err result }
        ensures stays { self.old.spoilt ≡ true → (self.new ≡ self.old) × (out.new ≡ out.old) }
    {
        if self.spoilt {
            return Err(Memory);
        }
        self.made += 1;
        match self.act(alloc, from, message, out) {
            Ok(()) => Ok(()),
            Err(memory) => {
                self.spoilt = true;
                Err(memory)
            }
        }
    }
}
