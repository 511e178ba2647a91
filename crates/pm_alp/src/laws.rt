// Laws of the definitions.
ghost use Rattle.std.specs.Prelude.{◌≡◌, ◌≤◌, Some};
ghost use Rattle.pm_alp.specs.Agents.{Actor, agent_after, no_agent, no_sends};
ghost use Rattle.pm_alp.specs.Committed.{CommittedStepsStay, FirstInOrder, OrderStays};
ghost use Rattle.pm_alp.specs.Laws.{ChangesGoBack, NumbersOnlyRise};
ghost use Rattle.pm_alp.specs.Sample.{SampleEnds, SampleQueries, SampleRollbacks, SampleSenses};
ghost use Rattle.pm_alp.specs.declared.agent.Agent.{Agent as TheAgent};
ghost use Rattle.pm_base.specs.declared.rows.GiveRow.{GiveRow as TheGive};
ghost use Rattle.pm_base.specs.declared.stamp.Num.{Num as TheNum};
ghost use Rattle.pm_base.specs.declared.stamp.Stamp.{Stamp as TheStamp};
ghost use Rattle.pm_message.specs.declared.Message.TheVariants as message;
ghost use Rattle.pm_saved.specs.Senses.{kept_turn};
ghost use Rattle.pm_saved.specs.Spots.{Spot, find};

/// An agent that awaits nothing does nothing at a Wake.
pub fn no_wake_without_waiting()
    ensures { (p : Actor) (n : TheNum) (s : TheStamp) →
        agent_after p no_agent (message.Wake n s) ≡ no_sends no_agent }
{}

/// A hit whose turn isn't above the kept one changes nothing, and nothing is sent.
pub fn an_older_turn_changes_nothing()
    ensures { (p : Actor) (a : TheAgent) (r : TheGive) (spot : Spot) → find r.num a.steps ≡ Some spot →
        r.turn ≤ kept_turn r.var spot.sense.hits → agent_after p a (message.Give r) ≡ no_sends a }
{}

/// An agent's next number never falls, whatever it takes: no number is used twice.
pub fn numbers_only_rise()
    ensures { NumbersOnlyRise }
{}

/// A hit with a new turn that changes what a complete sense answered is a rollback: what stands before the sense stays,
/// all that came after it is gone, and the writes from its step on are withdrawn before anything else is sent.
pub fn changes_go_back()
    ensures { ChangesGoBack }
{}

/// A committed step has acted, and is never touched again. Where nothing that the agent has still to do is below the
/// line, the entries that the line gives out are of moments below it; and whatever messages are delivered afterwards,
/// below the line or not, and whatever lines are committed, each message that the agent sends, so each withdrawal of a
/// rollback too, and each entry that it gives out is of a moment that isn't below the line. (That only steps that have
/// acted are given out is `a_line_divides_the_steps` of `pm_saved`.)
pub fn committed_steps_stay()
    ensures { CommittedStepsStay }
{}

/// The moments of an agent's kept steps and of its awaited call are its own and never fall: so it is at first, and so
/// it stays, whatever messages are delivered and whatever lines are committed.
pub fn moments_stay_in_order()
    ensures first { FirstInOrder }
    ensures stays { OrderStays }
{}

/// Worked rows: steps, and a rollback to the second of three.
pub fn sample_rollbacks()
    ensures { SampleRollbacks }
{}

/// Worked rows: a rollback in the middle of a step.
pub fn sample_senses()
    ensures { SampleSenses }
{}

/// Worked rows: a query of a class that is done late.
pub fn sample_queries()
    ensures { SampleQueries }
{}

/// Worked rows: what a line hands out, and an agent that retires.
pub fn sample_ends()
    ensures { SampleEnds }
{}
