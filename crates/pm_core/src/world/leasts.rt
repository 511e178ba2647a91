//! The link whose first message comes first of all.
ghost use Rattle.std.specs.Prelude.{◌≡◌, [], false, Some, None, IfSome};
ghost use Rattle.pm_core.specs.Leasts.{IsLeastLink};
ghost use Rattle.pm_sim.specs.Worlds.{mail};

use super::World;
use crate::fronts::least_front;

impl<'a> World<'a> {
    /// The link, as (to, from), whose first message comes first of all: the one with the least moment; of one moment, a
    /// Move first; then the least receiver, then the least sender. None exactly where no message is on its way. It takes
    /// no memory, and looks at each process.
    pub fn least_link(&self) -> Option<(u32, u32)>
        requires { self.now.spoilt ≡ false }
        ensures some { IfSome result (λ l. IsLeastLink self.now l.0 l.1) }
        ensures none { result ≡ None → mail self.now.world.links ≡ [] }
    {
        let clps = self.processes.plan.clps.len() as u32;
        match least_front(&self.mail, clps, self.count()) {
            Some(front) => Some((front.to, front.from)),
            None => None,
        }
    }
}
