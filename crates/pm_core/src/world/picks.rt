//! What a world delivers next to a process while a window holds awaited Wakes back.
ghost use Rattle.std.specs.Prelude.{◌≡◌, ◌+◌, ◌-◌, false, length, Some, None, IfSome};
ghost use Rattle.pm_core.specs.Picks.{IsFree, IsHeld, IsLeast};
ghost use Rattle.pm_sim.specs.Ready.{held_back, kept_back};
ghost use Rattle.pm_sim.specs.Worlds.{clps_of, home, process};

use super::World;
use pm_alp::Alp;
use pm_base::Line;
use pm_message::Message;

// Whether the message is the Wake that the agent awaits, and isn't below the line.
fn is_kept_back(alp: &Alp<'_>, line: Line, message: &Message) -> bool
    ensures { result ≡ kept_back (Some line) alp.now.agent.awaited message.now }
{
    match message {
        Message::Wake { num, stamp } => { alp.awaits(*num) && !line.is_past(*stamp) }
        _ => false,
    }
}

impl<'a> World<'a> {
    // The home of the agent of that process number.
    fn home_of(&self, to: u32) -> u32
        ensures { result ≡ home self.now.plan (to - clps_of self.now.plan) }
    {
        let plan = self.processes.plan;
        let agent = (to as usize).saturating_sub(plan.clps.len());
        match plan.agents.get(agent) {
            Some(row) => row.home,
            None => 0,
        }
    }

    // Whether the window holds that message to that process back.
    fn holds_back(&self, to: u32, window: Option<Line>, message: &Message) -> bool
        ensures { result ≡ held_back self.now.world (λ _. window) (process self.now.plan to) message.now }
    {
        let Some(line) = window else {
            return false;
        };
        let clps = self.processes.plan.clps.len();
        if (to as usize) < clps {
            return false;
        }
        match self.processes.alps.get(to as usize - clps) {
            Some(alp) => is_kept_back(alp, line, message),
            None => false,
        }
    }

    /// The sender of the link to that process whose first message is delivered next: of those that the window lets
    /// through, the one with the least stamp. It takes no memory.
    pub fn pick(&self, to: u32, window: Option<Line>) -> Option<u32>
        requires { self.now.spoilt ≡ false }
        ensures some { IfSome result (IsFree self.now window to) }
        ensures least { IfSome result (IsLeast self.now window to) }
        ensures none { result ≡ None → IsHeld self.now window to }
    {
        let Some(from) = self.mail.next(to) else {
            return None;
        };
        let Some(message) = self.mail.first(to, from) else {
            return None;
        };
        if !self.holds_back(to, window, message) {
            return Some(from);
        }
        // It is the agent's own Wake: only its home sends to it besides, and no Wake.
        let home = self.home_of(to);
        match self.mail.first(to, home) {
            Some(_) => Some(home),
            None => None,
        }
    }

    /// How many processes there are: communication processes and agents. It takes no memory.
    pub fn count(&self) -> u32
        ensures { result ≡ clps_of self.now.plan + length self.now.plan.agents }
    {
        let plan = self.processes.plan;
        plan.clps.len() as u32 + plan.agents.len() as u32
    }
}
