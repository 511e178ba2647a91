// Laws of the definitions.
ghost use Rattle.std.specs.Prelude.{◌≡◌, false, ℕ};
ghost use Rattle.pm_base.specs.declared.stamp.Num.{Num as TheNum};
ghost use Rattle.pm_base.specs.declared.stamp.Stamp.{Stamp as TheStamp};
ghost use Rattle.pm_clp.specs.Clps.{ClpState, Hub, clp_after, no_clp_sends};
ghost use Rattle.pm_clp.specs.Sample.{SampleCommits, SampleMoves, SampleQueries, SampleWrites};
ghost use Rattle.pm_clp.specs.Takes.{takes};
ghost use Rattle.pm_message.specs.declared.Message.TheVariants as message;

/// A law of the definitions: no process takes a Wake, and none does anything at one.
pub fn no_wake_is_taken()
    ensures taken { (h : Hub) (made from : ℕ) (s : ClpState) (n : TheNum) (t : TheStamp) →
        takes h made s from (message.Wake n t) ≡ false }
    ensures nothing { (h : Hub) (from : ℕ) (n : TheNum) (t : TheStamp) (s : ClpState) →
        clp_after h from (message.Wake n t) s ≡ no_clp_sends s }
{}

/// Worked rows: a variable leaves, a write goes on to it, and a record that comes meets a query.
pub fn sample_moves()
    ensures { SampleMoves }
{}

/// Worked rows: a class query goes on, is pruned, catches up, is asked again, ends.
pub fn sample_queries()
    ensures { SampleQueries }
{}

/// Worked rows: writes and withdrawals, in either order, below a read and at its stamp.
pub fn sample_writes()
    ensures { SampleWrites }
{}

/// Worked rows: a Commit forgets what is below its line, and nothing else.
pub fn sample_commits()
    ensures { SampleCommits }
{}
