//! The links of a plan, and what goes to their ends.
ghost use Rattle.std.specs.Prelude.{◌≡◌, ◌<◌, ◌+◌, ◌^◌, OnOk};
ghost use Rattle.pm_core.specs.Mails.{opened_agent, opened_all, opened_tree, posted_all, receiver, told_all, woken};
ghost use Rattle.pm_plan.specs.Limits.{IsWithinLimits};
ghost use Rattle.pm_sim.specs.Worlds.{clps_of, home};

use crate::tree::{home, ports};
use pm_base::{List, Memory};
use pm_mail::Mail;
use pm_message::Message;
use pm_plan::Plan;
use pm_queries::Sent;
use std::alloc::Global;

/// Posts what a communication process sends, in order, and notes to whom.
pub fn post_sent(
    alloc: Global,
    mail: &mut Mail,
    receivers: &mut Vec<u32>,
    from: u32,
    sent: List<Sent>,
) -> Result<(), Memory>
    ensures { OnOk result (mail.new ≡ posted_all from sent mail.old) }
{
    for one in sent.into_vec() {
        receivers.push(one.to)?;
        mail.post(alloc, one.to, from, one.message)?;
    }
    Ok(())
}

// The process for which an agent's message is.
fn receiver(own: u32, home: u32, message: &Message) -> u32
    ensures { result ≡ receiver own home message.now }
{
    match message {
        Message::Wake { .. } => own,
        _ => home,
    }
}

/// Posts what an agent sends, in order, and notes to whom: a Wake to its own process, each other message to its home.
pub fn post_told(
    alloc: Global,
    mail: &mut Mail,
    receivers: &mut Vec<u32>,
    own: u32,
    home: u32,
    told: List<Message>,
) -> Result<(), Memory>
    ensures { OnOk result (mail.new ≡ told_all own home told mail.old) }
{
    for message in told.into_vec() {
        let to = receiver(own, home, &message);
        receivers.push(to)?;
        mail.post(alloc, to, own, message)?;
    }
    Ok(())
}

// Opens the links to a process from these.
fn open_from(alloc: Global, mail: &mut Mail, to: u32, from: &[u32]) -> Result<(), Memory>
    ensures { OnOk result (mail.new ≡ opened_all to from.now mail.old) }
{
    for sender in from {
        mail.open(alloc, to, *sender)?;
    }
    Ok(())
}

/// Opens the links between neighbours in the tree.
pub fn open_tree(alloc: Global, mail: &mut Mail, plan: &Plan) -> Result<(), Memory>
    requires { IsWithinLimits plan.now }
    ensures { OnOk result (mail.new ≡ opened_tree plan.now 0 (clps_of plan.now) mail.old) }
{
    for clp in 0..plan.clps.len() {
        let to = clp as u32;
        let from = ports(alloc, plan, to)?;
        open_from(alloc, mail, to, from.as_slice())?;
    }
    Ok(())
}

// Posts a first Wake, where there is one.
fn post_wake(alloc: Global, mail: &mut Mail, own: u32, wake: Option<Message>) -> Result<(), Memory>
    ensures { OnOk result (mail.new ≡ woken own wake mail.old) }
{
    match wake {
        Some(message) => mail.post(alloc, own, own, message),
        None => Ok(()),
    }
}

/// Opens an agent's links: to its home, back from it, and its own, with its first Wake.
pub fn open_agent(
    alloc: Global,
    mail: &mut Mail,
    plan: &Plan,
    agent: u32,
    wake: Option<Message>,
) -> Result<(), Memory>
    requires { clps_of plan.now + agent < 2 ^ 32 }
    ensures { OnOk result (mail.new ≡
        opened_agent (clps_of plan.now + agent) (home plan.now agent) wake mail.old) }
{
    let own = plan.clps.len() as u32 + agent;
    let home = home(plan, agent);
    mail.open(alloc, home, own)?;
    mail.open(alloc, own, home)?;
    mail.open(alloc, own, own)?;
    post_wake(alloc, mail, own, wake)
}
