//! What each part of the lowest run costs, in deliveries.

ghost use Rattle.std.specs.Prelude.{ℕ, ℤ, List as Seq};
ghost use Rattle.pm_base.specs.declared.run.Event.{Event};
ghost use Rattle.pm_base.specs.declared.stamp.Num.{Num};
ghost use Rattle.pm_base.specs.declared.stamp.Stamp.{Stamp};
ghost use Rattle.pm_alp.specs.Agents.{Rule};
ghost use Rattle.pm_saved.specs.declared.kept.KeptSense.{KeptSense};
ghost use Rattle.pm_plan.specs.Plans.{IsValid};
ghost use Rattle.pm_plan.specs.declared.plan.Plan.{Plan};
ghost use Rattle.pm_sim.specs.Worlds.{World};
ghost use Rattle.pm_cost.specs.Costs.{AsksNoMore};
ghost use Rattle.pm_cost.specs.Falls.{DeliveriesCost};
ghost use Rattle.pm_cost.specs.Spending.{QueryCosts};
ghost use Rattle.pm_clp.specs.Clps.{Hub};
ghost use Rattle.pm_cost.specs.Straight.{AgentsStayStraight, DeliveriesStayStraight, DeliveriesTurn};
ghost use Rattle.pm_cost.specs.Straight.{LowestStaysStraight, StraightStarts};
ghost use Rattle.pm_cost.specs.Weights.{GrowCosts, HitsCost, TellingCosts, UnreadAreFew};

/// In each world that a legal run reaches, deliveries alone take at most two Asks and Finishes of a range query for
/// each communication process, and the Finishes that are on their way.
pub fn a_range_query_costs()
    ensures costs { (p : Plan) (n : ℕ) (w : World) (m : Num) (es : Seq Event) → IsValid p →
        QueryCosts p n w m es }
{}

/// What is told of a variable whose writes are all of one moment, and all that comes of it, is fewer deliveries than
/// there are communication processes.
pub fn telling_costs()
    ensures told { (p : Plan) → IsValid p → TellingCosts p }
{}

/// A Grow costs one delivery more than all that comes of it, range queries that catch up included.
pub fn a_grow_costs()
    ensures grown { (p : Plan) → IsValid p → GrowCosts p }
{}

/// The hits of a range query, and all that comes of them, are at most as many deliveries as there are communication
/// processes for each record that didn't have its read, where all that the records received is of its moment.
pub fn hits_cost()
    ensures hits { (p : Plan) → IsValid p → HitsCost p }
{}

/// A delivery at a communication process of the lowest run costs one: what the process and all that it sends may
/// still cost is at least one less than what the message and the process could cost before. A read or a write of a
/// variable must not go back to where it came from.
pub fn a_delivery_costs_one()
    ensures falls { (p : Plan) → IsValid p → DeliveriesCost p }
{}

/// In each world that a legal run reaches, the records at all communication processes that don't have a read are no
/// more than there are variables.
pub fn unread_records_are_few()
    ensures few { (p : Plan) (n : ℕ) (w : World) (m : Num) → IsValid p → UnreadAreFew p n w m }
{}

/// What a rule has asked in a step, by its kept senses, is no more than its program has.
pub fn a_step_asks_no_more()
    ensures asked { (r : Rule) (s : Stamp) (regs : Seq ℤ) (xs : Seq KeptSense) → AsksNoMore r s regs xs }
{}

/// A delivery at a communication process changes the way of a variable only where the message is a read, a write or a
/// Move of it, lets no more messages touch the variable than before, and sends on only along the variable's way.
pub fn ways_turn_with_messages()
    ensures turn { (h : Hub) → DeliveriesTurn h }
{}

/// Where of each variable at most one message on its way touches it, and two ways face each other only with a Move
/// between them, a delivery at a communication process sends no read and no write back, and this stays so.
pub fn nothing_is_sent_back()
    ensures straight { (p : Plan) (n : ℕ) (w : World) → IsValid p → DeliveriesStayStraight p n w }
{}

/// In the first world nothing would be sent back, and a Commit leaves it so.
pub fn straight_at_first()
    ensures starts { (p : Plan) → IsValid p → StraightStarts p }
{}

/// An agent that acts where nothing is on its way to a communication process leaves a world where nothing is sent
/// back.
pub fn agents_stay_straight()
    ensures straight { (p : Plan) (n : ℕ) (w : World) → IsValid p → AgentsStayStraight p n w }
{}

/// A delivery of the lowest run, in a calm world behind a Commit at its least line, leaves a world where nothing is
/// sent back.
pub fn the_lowest_run_stays_straight()
    ensures straight { (p : Plan) (n : ℕ) (w : World) → IsValid p → LowestStaysStraight p n w }
{}
