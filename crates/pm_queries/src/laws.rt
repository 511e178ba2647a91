ghost use Rattle.std.specs.Prelude.{List as Seq};
ghost use Rattle.pm_queries.specs.Registering.{IsRegister, RegisterIsKept};
ghost use Rattle.pm_queries.specs.declared.registered.Registered.{Registered};

/// A law of the definitions: registering, a Finish and the line keep the order and each number once, and a Finish
/// leaves the queries of other numbers as they are.
pub fn registers_are_kept()
    ensures { (qs : Seq Registered) → IsRegister qs → RegisterIsKept qs }
{}
