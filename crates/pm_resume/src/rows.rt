//! Worked rows of the definitions.

ghost use Rattle.std.specs.Prelude.{◌≡◌, Ok, Err, codes};
ghost use Rattle.pm_model.specs.Examples.{counter};
ghost use Rattle.pm_model.specs.Traces.{trace};
ghost use Rattle.pm_resume.specs.Cuts.{cut_of};
ghost use Rattle.pm_resume.specs.Rows.{counter_from, one_step};
ghost use Rattle.pm_resume.specs.declared.CutFault.TheVariants as fault;

/// The counter goes on with its third step, or with none; a budget of two steps isn't enough for three.
pub fn a_counter_goes_on()
    ensures third { cut_of counter 2 9 ≡ Ok (counter_from 2) }
    ensures trace { trace (counter_from 2) ≡ codes "2 ant [c0=2,0] c0:=3,0\nend 1\n" }
    ensures over { cut_of counter 3 9 ≡ Ok (counter_from 3) }
    ensures nothing { trace (counter_from 3) ≡ codes "end 0\n" }
    ensures spent { cut_of counter 3 2 ≡ Err fault.BudgetSpent }
{}

/// An agent that is retired can't start past the last time that a plan may name.
pub fn a_retired_agent_is_stuck()
    ensures { cut_of one_step 1 9 ≡ Err (fault.Retired 0) }
{}
