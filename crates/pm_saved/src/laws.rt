// Laws of the definitions.
ghost use Rattle.std.specs.Prelude.{◌≡◌, ◌++◌, List, IfSome};
ghost use Rattle.pm_saved.specs.Laws.{AreHandedOut, StandsAt};
ghost use Rattle.pm_saved.specs.Sample.{SampleSaved};
ghost use Rattle.pm_saved.specs.Spots.{find};
ghost use Rattle.pm_saved.specs.Steps.{hand_out, left_of, withdrawn};
ghost use Rattle.pm_saved.specs.declared.kept.KeptStep.{KeptStep as TheStep};

use pm_base::{Line, Num};

/// The place that is found for a number is a place among the kept steps, and its sense has the number.
pub fn places_have_their_number(num: Num)
    ensures { (steps : List TheStep) → IfSome (find num steps) (StandsAt num steps) }
{}

/// What is withdrawn of steps is withdrawn of each of them, in order.
pub fn steps_are_withdrawn_one_by_one()
    ensures { (xs ys : List TheStep) → withdrawn (xs ++ ys) ≡ withdrawn xs ++ withdrawn ys }
{}

/// A line divides the kept steps: the first ones are handed out, each of which is below it and has acted, and the
/// others stay as they are.
pub fn a_line_divides_the_steps(line: Line)
    ensures { (steps : List TheStep) → (given : List TheStep) × (steps ≡ given ++ left_of line steps) ×
        AreHandedOut line given (hand_out line steps) }
{}

/// A worked row: what is found, withdrawn, cut back and handed out of a step that read one variable and set another.
pub fn sample_saved()
    ensures { SampleSaved }
{}
