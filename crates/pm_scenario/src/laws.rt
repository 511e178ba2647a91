ghost use Rattle.std.specs.Prelude.{◌≡◌, ℕ, List, Some, None, Ok, Err, true, false, codes};
ghost use Rattle.std.specs.List.{AllByRecursion, Contains};
ghost use Rattle.toml.specs.Data.{Members};
ghost use Rattle.pm_scenario.specs.Forms.{is_listed, strange};
ghost use Rattle.pm_scenario.specs.Samples.{worked_scenario, worked_plan, later_version, two_strange_keys};
ghost use Rattle.pm_scenario.specs.Samples.{table_and_number, empty_table_and_number, number_as_text};
ghost use Rattle.pm_scenario.specs.Scenarios.{plan_of};
ghost use Rattle.pm_scenario.specs.Strangers.{keys_of, IsListedOrAfter};
ghost use Rattle.pm_scenario.specs.declared.fault.ScenarioFault.TheVariants as fault;

use pm_rules::some_texts;

/// Worked texts, computed from the definitions: a scenario, and the first refusals of some that are none.
pub fn worked_texts()
    ensures worked { plan_of worked_scenario ≡ Ok worked_plan }
    ensures version { plan_of later_version ≡ Err fault.Version }
    ensures strange { plan_of two_strange_keys ≡ Err (fault.Strange (codes "best")) }
    ensures element { plan_of table_and_number ≡ Err (fault.Kind (codes "clp[1]")) }
    ensures in_order { plan_of empty_table_and_number ≡ Err (fault.Missing (codes "clp[0].name")) }
    ensures path { plan_of number_as_text ≡ Err (fault.Kind (codes "class[0].var[0].x")) }
{
    some_texts();
}

/// A key that is told as strange is one of the table's and isn't listed, and is the least of those that aren't: each key
/// is listed, or is this one, or comes after it by its bytes. Where none is told all are listed.
pub fn strange_keys_are_least()
    ensures own { (keys : List (List ℕ)) (table : Members) (k : List ℕ) →
        strange keys table ≡ Some k → Contains (keys_of table) k }
    ensures unlisted { (keys : List (List ℕ)) (table : Members) (k : List ℕ) →
        strange keys table ≡ Some k → is_listed keys k ≡ false }
    ensures least { (keys : List (List ℕ)) (table : Members) (k : List ℕ) →
        strange keys table ≡ Some k → AllByRecursion (IsListedOrAfter keys k) (keys_of table) }
    ensures none { (keys : List (List ℕ)) (table : Members) →
        strange keys table ≡ None → AllByRecursion (λ l. is_listed keys l ≡ true) (keys_of table) }
{}
