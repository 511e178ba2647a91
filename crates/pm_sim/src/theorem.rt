//! What a legal run commits is the sequential run below its line, it stays committed, and in the end it is all.

ghost use Rattle.std.specs.Prelude.{List as Seq};
ghost use Rattle.pm_base.specs.declared.run.Event.{Event};
ghost use Rattle.pm_plan.specs.Plans.{IsValid};
ghost use Rattle.pm_plan.specs.declared.plan.Plan.{Plan};
ghost use Rattle.pm_sim.specs.Promises.{AllIsCommitted, CommittedIsSequential, CommittedStays, EndIsLegal};

/// Whatever is delivered and committed, in whatever order, what a legal run has committed is the sequential run below
/// its line.
pub fn simulation()
    ensures committed { (p : Plan) (es : Seq Event) → IsValid p → CommittedIsSequential p es }
{}

/// What was committed stays, whatever is delivered and committed afterwards.
pub fn prefix()
    ensures stays { (p : Plan) (es fs : Seq Event) → CommittedStays p es fs }
{}

/// Where no message is on its way, a Commit at the end is legal, and commits all that is left of the sequential run.
pub fn whole()
    ensures legal { (p : Plan) (es : Seq Event) → EndIsLegal p es }
    ensures all { (p : Plan) (es : Seq Event) → IsValid p → AllIsCommitted p es }
{}
