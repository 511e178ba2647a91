//! How much a world keeps.
ghost use Rattle.std.specs.Prelude.{◌≡◌, ◌-◌, ◌^◌, false, map, min};
ghost use Rattle.pm_alp.specs.Views.{Process as AlpView};
ghost use Rattle.pm_base.specs.declared.stamp.Line.TheVariants as line;
ghost use Rattle.pm_clp.specs.Views.{ClpView};
ghost use Rattle.pm_sim.specs.Kept.{Kept, kept, kept_agents, kept_clps};

use super::World;
use pm_alp::Alp;
use pm_clp::Clp;

fn kept_at_clps(clps: &[Clp]) -> u64
    ensures { result ≡ min (kept_clps (map (λ (c : ClpView). c.clp) clps.now)) (2 ^ 64 - 1) }
{
    let mut kept: u64 = 0;
    for clp in clps {
        kept = kept.saturating_add(clp.kept());
    }
    kept
}

fn kept_at_alps(alps: &[Alp]) -> u64
    ensures { result ≡ min (kept_agents (map (λ (a : AlpView). a.agent) alps.now)) (2 ^ 64 - 1) }
{
    let mut kept: u64 = 0;
    for alp in alps {
        kept = kept.saturating_add(alp.kept() as u64);
    }
    kept
}

impl<'a> World<'a> {
    fn count_kept(&self) -> u64
        ensures kept { result ≡ min (kept self.now.world) (2 ^ 64 - 1) }
        ensures above { self.now.spoilt ≡ false → Kept self.now.world.line self.now.world }
    {
        let at_clps = kept_at_clps(self.processes.clps.as_slice());
        at_clps.saturating_add(kept_at_alps(self.processes.alps.as_slice()))
    }

    /// How many steps, received puts and cuts, reads and registered queries the processes keep, at most `u64::MAX`; the
    /// rows of a record that is on its way aren't counted. Nothing that is counted is below the line, so that nothing is
    /// left after a Commit at the end. It takes no memory.
    pub fn kept(&self) -> u64
        ensures kept { result ≡ min (kept self.now.world) (2 ^ 64 - 1) }
        ensures above { self.now.spoilt ≡ false → Kept self.now.world.line self.now.world }
        ensures none { self.now.spoilt ≡ false → self.now.world.line ≡ line.End → result ≡ 0 }
    {
        self.count_kept()
    }
}
