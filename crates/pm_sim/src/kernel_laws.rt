//! What the kernel and its cells rest on: what each world of a legal run has in its links and at its processes.

ghost use Rattle.std.specs.Prelude.{◌≡◌, true, ℕ, List as Seq};
ghost use Rattle.pm_base.specs.declared.run.Event.{Event};
ghost use Rattle.pm_base.specs.declared.stamp.Line.{Line as TheLine};
ghost use Rattle.pm_plan.specs.declared.plan.Plan.{Plan};
ghost use Rattle.pm_sim.specs.Kept.{NothingBelowIsKept};
ghost use Rattle.pm_sim.specs.Links.{LinksStay};
ghost use Rattle.pm_plan.specs.Plans.{IsValid};
ghost use Rattle.pm_sim.specs.Ready.{IdleIsDone, SomeIsReady, WindowsAreOk};
ghost use Rattle.pm_sim.specs.Taken.{DeliveriesAdd, MessagesAreTaken, NumbersStayLow};
ghost use Rattle.pm_sim.specs.Waking.{WhoWaitsIsWoken};

/// While fewer than 20,000,000 deliveries were made, each message in a link is one that its receiver takes: a
/// communication process by its test `takes`, an agent where it is a Wake of its own, or from its home a hit of a
/// variable that exists or the end of a query.
pub fn messages_are_taken()
    ensures taken { (p : Plan) (es : Seq Event) → IsValid p → MessagesAreTaken p es }
{}

/// While at most 20,000,000 deliveries were made, no turn is above that number, no agent's next number above
/// 81,940,000,001, and no agent keeps more steps than deliveries; and no message's time is past the horizon.
pub fn numbers_stay_low()
    ensures low { (p : Plan) (es : Seq Event) → IsValid p → NumbersStayLow p es }
{}

/// The deliveries of a run are the sum of those at each process.
pub fn deliveries_add()
    ensures sum { (p : Plan) (es : Seq Event) → IsValid p → DeliveriesAdd p es }
{}

/// The links are always those of the first world, and each message stands in the one link between its two processes.
pub fn links_stay()
    ensures links { (p : Plan) (es : Seq Event) → IsValid p → LinksStay p es }
{}

/// An awaited Wake is the last message of its agent's own link; a step that hasn't acted waits for what is on its way;
/// so does a process that waits for the end of a query over a port; an agent that does neither is past the horizon.
pub fn who_waits_is_woken()
    ensures woken { (p : Plan) (es : Seq Event) → IsValid p → WhoWaitsIsWoken p es }
{}

/// Where a message is on its way, the first message of some link may be delivered, whatever windows above the least
/// line keep awaited Wakes back.
pub fn some_message_is_ready()
    ensures ready { (p : Plan) (es : Seq Event) → IsValid p → SomeIsReady p es }
{}

/// So where no link's first message may be delivered, no message is left.
pub fn idle_is_done()
    ensures done { (p : Plan) (es : Seq Event) → IsValid p → IdleIsDone p es }
{}

/// Windows that are above the least line: behind a Commit at it each of a width of at least 1, and each of a time past
/// the horizon.
pub fn windows_are_ok()
    ensures windows { (p : Plan) (es : Seq Event) → IsValid p → WindowsAreOk p es }
{}

/// Nothing that is kept is below the line: no step, received put or cut, read or registered query; at End none is
/// kept.
pub fn nothing_below_is_kept()
    ensures kept { (p : Plan) (es : Seq Event) → IsValid p → NothingBelowIsKept p es }
{}
