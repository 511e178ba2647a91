ghost use Rattle.std.specs.Prelude.{◌≡◌, ◌<◌, ℕ, pos, List as Seq, [], ◌∷◌, map, Some, None, Ok};
ghost use Rattle.pm_gen.specs.Draws.{draw};
ghost use Rattle.pm_gen.specs.Generated.{generated};
ghost use Rattle.pm_gen.specs.Rules.{program, rule_text, table};
ghost use Rattle.pm_plan.specs.Plans.{numbered, parents, plan_of};
ghost use Rattle.pm_rules.specs.Rules.{parsed};

/// A law: what is drawn below a bound is below it.
pub fn draws_are_below()
    ensures { (state bound : ℕ) → 0 < bound → draw state bound < bound }
{}

/// A law: each rule's text is read as its program, whatever the variables are called.
pub fn rules_are_read()
    ensures { (rule : ℕ) (vars : Seq (Seq ℕ)) → parsed (table vars) 1 (rule_text rule) ≡ Ok (program rule) }
{}

/// A law: the parts of each number make a plan.
pub fn every_scenario_is_a_plan()
    ensures { (number : ℕ) → plan_of (generated number) ≡ Ok (numbered (generated number)) }
{}

/// The scenario of number 1, computed from the definitions.
pub fn scenario_of_one()
    ensures first { draw 1 10 ≡ 4 }
    ensures tree { parents (numbered (generated 1)).clps ≡ None ∷ Some 0 ∷ Some 1 ∷ Some 0 ∷ Some 2 ∷ [] }
    ensures places { map (λ v. v.at) (numbered (generated 1)).vars ≡
        4 ∷ 2 ∷ 3 ∷ 0 ∷ 0 ∷ 0 ∷ 1 ∷ 3 ∷ 1 ∷ 3 ∷ 4 ∷ 3 ∷ 0 ∷ 0 ∷ 3 ∷ 4 ∷ 1 ∷ 0 ∷ 2 ∷ 2 ∷ 1 ∷ 1 ∷ 2 ∷ 3 ∷
        4 ∷ 4 ∷ 0 ∷ 0 ∷ [] }
    ensures xs { map (λ v. v.value.x) (numbered (generated 1)).vars ≡ map pos
        (5 ∷ 9 ∷ 2 ∷ 4 ∷ 5 ∷ 7 ∷ 0 ∷ 4 ∷ 8 ∷ 8 ∷ 2 ∷ 6 ∷ 2 ∷ 1 ∷ 1 ∷ 2 ∷ 4 ∷ 8 ∷ 0 ∷ 8 ∷ 5 ∷ 2 ∷ 1 ∷ 5 ∷
        0 ∷ 0 ∷ 0 ∷ 0 ∷ []) }
    ensures ys { map (λ v. v.value.y) (numbered (generated 1)).vars ≡ map pos
        (0 ∷ 6 ∷ 2 ∷ 2 ∷ 2 ∷ 7 ∷ 9 ∷ 2 ∷ 7 ∷ 5 ∷ 6 ∷ 9 ∷ 0 ∷ 4 ∷ 3 ∷ 4 ∷ 1 ∷ 5 ∷ 3 ∷ 1 ∷ 3 ∷ 9 ∷ 9 ∷ 8 ∷
        0 ∷ 0 ∷ 0 ∷ 0 ∷ []) }
    ensures homes { map (λ a. a.home) (numbered (generated 1)).agents ≡
        1 ∷ 3 ∷ 0 ∷ 2 ∷ 2 ∷ 3 ∷ 4 ∷ 4 ∷ 3 ∷ 4 ∷ 4 ∷ 4 ∷ [] }
    ensures starts { map (λ a. a.start) (numbered (generated 1)).agents ≡
        3 ∷ 2 ∷ 3 ∷ 6 ∷ 6 ∷ 5 ∷ 0 ∷ 6 ∷ 5 ∷ 6 ∷ 0 ∷ 1 ∷ [] }
    ensures rules { map (λ a. a.program) (numbered (generated 1)).agents ≡ map program
        (1 ∷ 0 ∷ 2 ∷ 1 ∷ 2 ∷ 0 ∷ 0 ∷ 2 ∷ 2 ∷ 2 ∷ 0 ∷ 2 ∷ []) }
{}
