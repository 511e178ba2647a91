// What makes the run of a plan: the two calls that a mode with a run has of it, on threads or on this one.
ghost use Rattle.pm_plan.specs.Plans.{IsValid};
ghost use Rattle.pm_top.specs.Makers.{CameTo, Makes};
ghost use Rattle.pm_top.specs.Speech.{sight};
ghost use Rattle.pm_words.specs.Ranges.{IsInRange};

use pm_base::RunSettings;
use pm_io::Sink;
use pm_kernel::Ran;
use pm_plan::Plan;

/// Makes a run into the output, or into memory where only what it comes to is told.
#[derive(Drop)]
pub struct Makers<F, M> {
    pub to_output: F,
    pub to_memory: M,
}

/// The run that one of them makes.
pub fn made_by<K: Sink, F: FnOnce(&Plan, &RunSettings, &mut K) -> Ran>(
    make: F,
    plan: &Plan,
    settings: &RunSettings,
    out: &mut K,
) -> Ran
    requires makes { Makes F.FnOnce (sight K.holds K.faults K.stalls) make }
    requires valid { IsValid plan.now }
    requires range { IsInRange settings.now }
    ensures { CameTo plan.now settings.now result (sight K.holds K.faults K.stalls out.old)
        (sight K.holds K.faults K.stalls out.new) }
{
    make(plan, settings, out)
}
