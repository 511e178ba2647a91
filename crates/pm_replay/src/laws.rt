ghost use Rattle.std.specs.Prelude.{◌≡◌, ◌≢◌, ℕ, List as Seq, [], codes};
ghost use Rattle.pm_base.specs.declared.run.Event.{Event as TheEvent};
ghost use Rattle.pm_plan.specs.declared.plan.Plan.{Plan};
ghost use Rattle.pm_replay.specs.Parts.{journal_part, scenario_part};
ghost use Rattle.pm_replay.specs.Replays.{IsFirstIllegal, IsLegalText};

/// A law of the definitions: a text with a line that may not stand there is no legal journal's, and it has one first such
/// line.
pub fn one_line_is_first()
    ensures no_journal { (p : Plan) (n : ℕ) (bytes : Seq ℕ) (j : Seq TheEvent) → IsFirstIllegal p n bytes →
        IsLegalText p j bytes → ⊥ }
    ensures one { (p : Plan) (n m : ℕ) (bytes : Seq ℕ) → IsFirstIllegal p n bytes → IsFirstIllegal p m bytes → n ≡ m }
{}

/// The parts of some inputs: the cut is before the first line that begins so, and only where a line begins.
pub fn worked_parts()
    ensures scenario { scenario_part (codes "a\n#j d 0 1\n#j x\n") ≡ codes "a\n" }
    ensures journal { journal_part (codes "a\n#j d 0 1\n#j x\n") ≡ codes "#j d 0 1\n#j x\n" }
    ensures inside { scenario_part (codes "a #j d 0 1\n") ≡ codes "a #j d 0 1\n" }
    ensures without { journal_part (codes "a\n#jd\n #j c end") ≡ [] }
    ensures at_once { scenario_part (codes "#j c end\n") ≡ [] }
{}
