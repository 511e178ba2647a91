//! Messages that arrive at processes.
ghost use Rattle.std.specs.Prelude.{◌≡◌, ◌≤◌, ◌<◌, ◌+◌, ◌^◌, OnOk, Some, length, slice_get};
ghost use Rattle.pm_clp.specs.Views.{ClpView};
ghost use Rattle.pm_sim.specs.Worlds.{clps_of};
ghost use Rattle.pm_alp.specs.Views.{Process as AlpView};

use crate::posts::{post_sent, post_told};
use crate::tree::home;
use pm_alp::Alp;
use pm_base::{List, Memory};
use pm_clp::Clp;
use pm_mail::Mail;
use pm_message::Message;
use pm_plan::Plan;
use std::alloc::Global;

/// The processes of a plan: the communication processes and the agents', each by number.
#[derive(Debug, Drop)]
pub struct Processes<'a> {
    pub plan: &'a Plan,
    pub clps: Vec<Clp>,
    pub alps: Vec<Alp<'a>>,
}

impl<'a> Processes<'a> {
    ghost use Rattle.pm_core.specs.Steps.{AlpDid, Arrived, CanArrive, ClpDid, IsOpen, Takes};

    // A communication process takes a message.
    fn at_clp(
        &mut self,
        alloc: Global,
        mail: &mut Mail,
        receivers: &mut Vec<u32>,
        to: u32,
        from: u32,
        message: Message,
    ) -> Result<(), Memory>
        requires there { to < length self.old.clps.items }
        requires takes { (v : ClpView) → slice_get self.old.clps.items to ≡ Some v → Takes v from message }
        ensures did { OnOk result (ClpDid self.old self.new mail.old mail.new to from message) }
        ensures plan { self.new.plan.now ≡ self.old.plan.now }
    {
        let mut sent = List::new(alloc);
        let clp = &mut self.clps[to as usize];
        clp.deliver(alloc, from, message, &mut sent)?;
        post_sent(alloc, mail, receivers, to, sent)
    }

    // An agent's process takes a message.
    fn at_alp(
        &mut self,
        alloc: Global,
        mail: &mut Mail,
        receivers: &mut Vec<u32>,
        agent: u32,
        message: Message,
    ) -> Result<(), Memory>
        requires there { agent < length self.old.alps.items }
        requires is_open { (v : AlpView) → slice_get self.old.alps.items agent ≡ Some v → IsOpen v }
        requires few { clps_of self.old.plan.now + agent < 2 ^ 32 }
        ensures did { OnOk result (AlpDid self.old self.new mail.old mail.new agent message) }
        ensures plan { self.new.plan.now ≡ self.old.plan.now }
    {
        let own = self.plan.clps.len() as u32 + agent;
        let home = home(self.plan, agent);
        let mut told = List::new(alloc);
        let alp = &mut self.alps[agent as usize];
        alp.deliver(alloc, message, &mut told)?;
        post_told(alloc, mail, receivers, own, home, told)
    }

    /// The message's receiver takes it, and what this sends goes to the ends of its links.
    pub fn arrive(
        &mut self,
        alloc: Global,
        mail: &mut Mail,
        receivers: &mut Vec<u32>,
        to: u32,
        from: u32,
        message: Message,
    ) -> Result<(), Memory>
        requires { CanArrive self.old to from message }
        ensures did { OnOk result (Arrived self.old self.new mail.old mail.new to from message) }
        ensures plan { self.new.plan.now ≡ self.old.plan.now }
    {
        let clps = self.clps.len() as u32;
        if to < clps {
            self.at_clp(alloc, mail, receivers, to, from, message)
        } else {
            self.at_alp(alloc, mail, receivers, to - clps, message)
        }
    }
}
