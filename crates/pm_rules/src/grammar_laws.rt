ghost use Rattle.std.specs.Prelude.{◌≡◌, ◌⊎◌, List, ℕ, length, Ok, Err, true};
ghost use Rattle.pm_base.specs.Fits.{fits};
ghost use Rattle.pm_base.specs.Layouts.{var_count};
ghost use Rattle.pm_base.specs.declared.program.Program.{Program as TheProgram};
ghost use Rattle.pm_rules.specs.Grammar.{IsFirstFault, IsRule, IsTable};
ghost use Rattle.pm_rules.specs.Reading.{Table, class_rows};
ghost use Rattle.pm_rules.specs.Rules.{parsed};
ghost use Rattle.pm_rules.specs.declared.fault.RuleFault.{RuleFault as TheFault};

/// What is accepted is a rule of the grammar, and fits.
pub fn accepted_texts_are_rules()
    ensures rule { (t : Table) (version : ℕ) (text : List ℕ) (p : TheProgram) →
        length t.vars ≡ var_count (class_rows t) → parsed t version text ≡ Ok p → IsRule t version text p }
    ensures fits { (t : Table) (version : ℕ) (text : List ℕ) (p : TheProgram) →
        length t.vars ≡ var_count (class_rows t) → parsed t version text ≡ Ok p →
        fits p (record { classes = class_rows t }) ≡ true }
{}

/// Each rule of the grammar is accepted, with its only tree.
pub fn rules_are_accepted()
    ensures accepted { (t : Table) (version : ℕ) (text : List ℕ) (p : TheProgram) → (version ≡ 1) ⊎ (version ≡ 2) →
        IsTable t → IsRule t version text p → parsed t version text ≡ Ok p }
    ensures only { (t : Table) (version : ℕ) (text : List ℕ) (p q : TheProgram) → (version ≡ 1) ⊎ (version ≡ 2) →
        IsTable t → IsRule t version text p → IsRule t version text q → p ≡ q }
{}

/// A refusal is the fault of the first faulty line, and each text with a fault is refused.
pub fn refusals_are_first_faults()
    ensures first { (t : Table) (version : ℕ) (text : List ℕ) (f : TheFault) →
        parsed t version text ≡ Err f → IsFirstFault t version text f }
    ensures refused { (t : Table) (version : ℕ) (text : List ℕ) (f : TheFault) →
        IsFirstFault t version text f → parsed t version text ≡ Err f }
{}
