ghost use Rattle.std.specs.Prelude.{◌≡◌, ◌<◌, ◌^◌, Ok};
ghost use Rattle.pm_scenario.specs.Scenarios.{plan_of};

use pm_plan::Plan;

/// A plan that was read can be printed: its counts fit an integer of a document.
pub fn read_plans_can_be_printed(bytes: &[u8], plan: &Plan)
    requires { plan_of bytes.now ≡ Ok plan.now }
    ensures { plan.now.move_after < 2 ^ 63 }
{}
