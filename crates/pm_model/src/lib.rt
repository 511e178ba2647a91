//! The sequential run of a plan and its trace: definitions that contracts cite, and their laws.
#![tactic(auto)]

ghost use Rattle.std.specs.Prelude.{◌≡◌, ◌∷◌, ◌<◌, ◌^◌, ℕ, List as Seq, Some, None, [], codes, length, slice_get};
ghost use Rattle.pm_base.specs.Layouts.{class_row};
ghost use Rattle.pm_base.specs.declared.layout.ClassRow.{ClassRow};
ghost use Rattle.pm_base.specs.declared.value.Query.TheVariants as query;
ghost use Rattle.pm_base.specs.declared.value.Value.{Value as TheValue};
ghost use Rattle.pm_base.specs.declared.value.Window.{Window};
ghost use Rattle.pm_model.specs.Entries.{IsCutAt, IsInOrder, IsOfPlan, IsOwnTime};
ghost use Rattle.pm_model.specs.Hits.{hits, shown, shown_from};
ghost use Rattle.pm_model.specs.Examples.{counter, tie_read_first, tie_write_first};
ghost use Rattle.pm_model.specs.Traces.{trace};
ghost use Rattle.pm_plan.specs.declared.plan.Plan.{Plan};
ghost use Rattle.pm_plan.specs.Limits.{IsWithinLimits};
ghost use Rattle.pm_model.specs.Runs.{sequential_run, sequential_start, sequential_turn, Moved, IsTimely, IsRetired};
ghost use Rattle.pm_model.specs.Runs.{rest, work};
ghost use Rattle.pm_model.specs.declared.State.{State as TheState};
ghost use Rattle.std.specs.List.{AllByRecursion};

use pm_base::{Act, Hit, Line, List, Value};
use pm_plan::Plan as ThePlan;

/// An agent between two steps: its registers, and the time of its next step, or none where it is retired.
#[derive(Debug, Drop)]
pub struct AgentState {
    pub regs: List<i64>,
    pub next: Option<u64>,
}

/// A state of the sequential run: the variables' values and the agents, each by number.
#[derive(Debug, Drop)]
pub struct State {
    pub values: List<Value>,
    pub agents: List<AgentState>,
}

/// What a whole step sensed, and what it then does.
#[derive(Debug, Drop)]
pub struct Deed {
    pub answers: List<List<Hit>>,
    pub act: Act,
}

/// The traces of three small plans: an agent that counts, and two agents at the same time, of which the lower number
/// acts first.
pub fn small_traces()
    ensures counter { trace counter ≡
        codes "0 ant [c0=0,0] c0:=1,0\n1 ant [c0=1,0] c0:=2,0\n2 ant [c0=2,0] c0:=3,0\nend 3\n" }
    ensures write_first { trace tie_write_first ≡ codes "0 w c0:=5,0\n0 r [c0=5,0]\nend 2\n" }
    ensures read_first { trace tie_read_first ≡ codes "0 r [c0=0,0]\n0 w c0:=5,0\nend 2\n" }
{}

/// A query of one variable is a look-up; a query of a class goes through its members in order of number, and takes those
/// whose value is inside the window.
pub fn what_a_query_is_answered()
    ensures one { (classes : Seq ClassRow) (values : Seq TheValue) (n : ℕ) →
        hits classes values (query.One n) ≡ shown n (slice_get values n) }
    ensures class { (classes : Seq ClassRow) (values : Seq TheValue) (class : ℕ) (w : Window) →
        hits classes values (query.Class class w) ≡
        shown_from w values (class_row classes class).first (class_row classes class).count }
{}

/// A run ends, since each turn lowers the work that is left; and what holds of each state of a run stays.
pub fn a_turn_lowers_the_work()
    ensures falls { (plan : Plan) (s : TheState) (m : Moved) → sequential_turn plan s ≡ Some m →
        IsTimely plan s → work plan m.state < work plan s }
    ensures stays { (plan : Plan) (s : TheState) (m : Moved) → sequential_turn plan s ≡ Some m →
        IsTimely plan s → IsTimely plan m.state }
{}

/// What is left of a run is the entry of the next turn and what is left after it.
pub fn what_is_left()
    ensures step { (plan : Plan) (s : TheState) (m : Moved) → sequential_turn plan s ≡ Some m →
        IsTimely plan s → rest plan s ≡ m.entry ∷ rest plan m.state }
    ensures done { (plan : Plan) (s : TheState) → sequential_turn plan s ≡ None → rest plan s ≡ [] }
{}

/// There is no next turn only where all agents are retired.
pub fn all_are_retired()
    ensures { (plan : Plan) (s : TheState) → sequential_turn plan s ≡ None → IsTimely plan s →
        AllByRecursion IsRetired s.agents }
{}

/// A run starts in a state that has what each state of a run keeps.
pub fn a_run_starts_in_time(plan: &ThePlan)
    requires { IsWithinLimits plan.now }
    ensures { IsTimely plan.now (sequential_start plan.now) }
{}

/// Stamps rise along a run, and its entries can be counted by a number of 64 bits.
pub fn stamps_rise(plan: &ThePlan)
    requires { IsWithinLimits plan.now }
    ensures order { IsInOrder (sequential_run plan.now) }
    ensures short { length (sequential_run plan.now) < 2 ^ 64 }
{}

/// The entries below a line come first in a run.
pub fn what_is_below(plan: &ThePlan, line: Line)
    requires { IsWithinLimits plan.now }
    ensures { IsCutAt plan.now line }
{}

/// An agent acts at its own times: a turn's stamp names an agent of the plan at its next time, and so no stamp of a
/// run is past the horizon.
pub fn agents_act_at_their_times(plan: &ThePlan)
    requires { IsWithinLimits plan.now }
    ensures turn { (s : TheState) (m : Moved) → sequential_turn plan.now s ≡ Some m →
        IsOwnTime plan.now s m.entry.stamp }
    ensures run { AllByRecursion (IsOfPlan plan.now) (sequential_run plan.now) }
{}
