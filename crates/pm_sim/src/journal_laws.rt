//! What the kernel's journals promise, and what playing any list of events does.

ghost use Rattle.std.specs.Prelude.{◌≡◌, ◌++◌, true, ℕ, List as Seq, [], None};
ghost use Rattle.pm_base.specs.declared.run.Event.{Event};
ghost use Rattle.pm_base.specs.declared.stamp.Line.{Line as TheLine};
ghost use Rattle.pm_plan.specs.declared.plan.Plan.{Plan};
ghost use Rattle.pm_sim.specs.Journals.{CommitHands, Journal, JournalGrows, JournalLaw, LeastLineIs};
ghost use Rattle.pm_sim.specs.Played.{PlayLaw, PlayedIsSequential, play};
ghost use Rattle.pm_plan.specs.Plans.{IsValid};
ghost use Rattle.pm_sim.specs.Ready.{WindowsAdd};
ghost use Rattle.pm_sim.specs.Worlds.{World, committed_from, first_world, is_legal_run};

/// A journal begins empty and stays one with each epoch: at most so many deliveries, legal where they stand, and a
/// Commit at the least line behind them.
pub fn journals_grow()
    ensures none { (p : Plan) (e : ℕ) → Journal p e 0 (first_world p) [] }
    ensures more { (p : Plan) (e n : ℕ) (j ds : Seq Event) → IsValid p → JournalGrows p e n j ds }
{}

/// What a journal commits is the sequential run below its line. Its line is the least line. Where no message is left
/// the line is End, and at End all of the sequential run is committed. What a part of it committed stays.
pub fn journals_are_sequential()
    ensures law { (p : Plan) (e n : ℕ) (j : Seq Event) → IsValid p →
        Journal p e n (first_world p) j → JournalLaw p j }
{}

/// A Commit at the least line is legal. The least line is End exactly where no message is left.
pub fn the_least_line()
    ensures least { (p : Plan) (es : Seq Event) → IsValid p → LeastLineIs p es }
{}

/// A legal Commit hands out exactly the entries of the sequential run between the two lines.
pub fn commits_hand_out()
    ensures handed { (p : Plan) (es : Seq Event) (k : TheLine) → IsValid p → CommitHands p es k }
{}

/// A journal stays in its window with each epoch that does; an awaited Wake that is delivered there is of a time below
/// the line's and the window's width.
pub fn windows_add()
    ensures window { (width : ℕ) (p : Plan) (j ds : Seq Event) → WindowsAdd width p j ds }
{}

/// Playing does the events in order, up to the first that isn't legal, and tells how many were done where one wasn't;
/// from the first world it hands out the sequential run below its line, whatever the events are.
pub fn playing_stops_at_the_first_illegal_event()
    ensures law { (p : Plan) (w : World) (es : Seq Event) → PlayLaw p w es (play p w es) }
    ensures all { (p : Plan) (w : World) (es : Seq Event) →
        is_legal_run p w es ≡ true → (play p w es).stopped ≡ None }
    ensures sequential { (p : Plan) (es : Seq Event) → IsValid p → PlayedIsSequential p es }
{}
