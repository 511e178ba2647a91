ghost use Rattle.std.specs.Prelude.{◌≡◌, Ok, Err, codes};
ghost use Rattle.pm_rules.specs.Rules.{parsed};
ghost use Rattle.pm_rules.specs.Samples.{worked_program, worked_table, worked_text};
ghost use Rattle.pm_rules.specs.declared.fault.RuleFault.TheVariants as fault;

/// Some texts, computed from the definitions: a whole rule, and the first fault of some that are none.
pub fn some_texts()
    ensures worked { parsed worked_table 1 worked_text ≡ Ok worked_program }
    ensures operand { parsed worked_table 1 (codes "set c0 = (n -1), 0") ≡ Err (fault.Word 1) }
    ensures unclosed { parsed worked_table 1 (codes "if 1\n") ≡ Err (fault.Nesting 3) }
    ensures version { parsed worked_table 1 (codes "\nadd c0 = 1, 0") ≡ Err (fault.Word 2) }
    ensures reserved { parsed worked_table 2 (codes "let now = 5") ≡ Err (fault.Unknown 1) }
{}
