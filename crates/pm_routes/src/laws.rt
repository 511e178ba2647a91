ghost use Rattle.std.specs.Prelude.{IsTrue, ◌↔◌, ℕ};
ghost use Rattle.pm_routes.specs.Routings.{CountsOne, IsDrawn, Routing, is_drawn};
ghost use Rattle.pm_routes.specs.Sample.{SampleCounts};

/// A law of the definitions: the test tells the fact.
pub fn tests_tell_the_draw()
    ensures { (r : Routing) → (var from : ℕ) → IsTrue (is_drawn r var from) ↔ IsDrawn r var from }
{}

/// A law of the definitions: a count adds one, and all other counts stay.
pub fn counts_one()
    ensures { (r : Routing) → (var from : ℕ) → CountsOne r var from }
{}

/// A law of the definitions: two counts from a port draw a variable there, unless two local ones came before.
pub fn sample_counts()
    ensures { SampleCounts }
{}
