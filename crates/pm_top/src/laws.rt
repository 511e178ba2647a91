ghost use Rattle.std.specs.Prelude.{◌≡◌, [], codes, length};
ghost use Rattle.pm_model.specs.Examples.{counter, tie_write_first};
ghost use Rattle.pm_model.specs.Runs.{sequential_run};
ghost use Rattle.pm_model.specs.Traces.{trace};
ghost use Rattle.pm_plan.specs.declared.fault.PlanFault.TheVariants as plan;
ghost use Rattle.pm_plan.specs.declared.plan.Kind.TheVariants as kind;
ghost use Rattle.pm_rules.specs.declared.fault.RuleFault.TheVariants as rule;
ghost use Rattle.pm_scenario.specs.declared.fault.ScenarioFault.TheVariants as fault;
ghost use Rattle.pm_top.specs.Endings.{error_line, status_of};
ghost use Rattle.pm_top.specs.Outputs.{check_line, first_lines};
ghost use Rattle.pm_top.specs.Refusals.{refusal};
ghost use Rattle.pm_top.specs.declared.outcome.Ending.TheVariants as ending;

/// What the modes write of the plan in which one agent counts at three times.
pub fn worked_outputs()
    ensures parts { check_line counter ≡ codes "ok clps 1 classes 1 vars 1 agents 1\n" }
    ensures pair { check_line tie_write_first ≡ codes "ok clps 1 classes 1 vars 1 agents 2\n" }
    ensures trace { trace counter ≡
        codes "0 ant [c0=0,0] c0:=1,0\n1 ant [c0=1,0] c0:=2,0\n2 ant [c0=2,0] c0:=3,0\nend 3\n" }
    ensures steps { length (sequential_run counter) ≡ 3 }
    ensures first { first_lines 2 counter ≡ codes "0 ant [c0=0,0] c0:=1,0\n1 ant [c0=1,0] c0:=2,0\n" }
{}

/// What is said of some refusals, one of each kind; the third key ends with a line feed.
pub fn worked_refusals()
    ensures missing { refusal (fault.Missing (codes "agent[0].rule")) ≡ codes "agent[0].rule is missing\n" }
    ensures kind { refusal (fault.Kind (codes "class[0].var")) ≡ codes "class[0].var is of the wrong kind\n" }
    ensures strange { refusal (fault.Strange (codes "clp[1].x\n")) ≡ codes "clp[1].x? is not a key\n" }
    ensures rule { refusal (fault.Rule 3 (rule.Unknown 12)) ≡
        codes "rule of agent 3: line 12: an unknown name\n" }
    ensures limit { refusal (fault.Plan (plan.Limit kind.Time)) ≡ codes "limit of time\n" }
    ensures twice { refusal (fault.Plan (plan.Twice kind.Class 2)) ≡ codes "class 2: the name stands twice\n" }
    ensures tree { refusal (fault.Plan (plan.Tree 10)) ≡ codes "clp 10: not in the tree\n" }
{}

/// The status and the error line of some endings.
pub fn worked_endings()
    ensures done { error_line ending.Done ≡ [] }
    ensures refused { error_line (ending.Refused fault.NotToml) ≡ codes "pdesmas: scenario: not a TOML document\n" }
    ensures invalid { status_of (ending.Refused fault.NotToml) ≡ 2 }
    ensures too_long { status_of ending.TooLong ≡ 2 }
    ensures spent { status_of ending.BudgetSpent ≡ 3 }
    ensures memory { status_of ending.Memory ≡ 6 }
{}
