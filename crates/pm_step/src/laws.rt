ghost use Rattle.pm_step.specs.Sample.{SampleSteps};
ghost use Rattle.pm_step.specs.Steps.{AsksWhileSensesAreLeft, WaitsAtLeastOne, WritesInOrder};

/// The step asks exactly while there are fewer answers than senses.
pub fn asks_while_senses_are_left()
    ensures { AsksWhileSensesAreLeft }
{}

/// An agent waits at least 1 after a step.
pub fn waits_at_least_one()
    ensures { WaitsAtLeastOne }
{}

/// The writes of a step stand in order of variable number, one of each variable.
pub fn writes_in_order()
    ensures { WritesInOrder }
{}

/// What a small rule does, without an answer and with one.
pub fn sample_steps()
    ensures { SampleSteps }
{}
