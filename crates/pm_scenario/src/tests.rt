use crate::{ScenarioFault, read};
use pm_base::{ClassRow, Value};
use pm_plan::Plan;
use std::alloc::{AllocError, Global};
use std::test::Fail;

/// A scenario that has every key.
const WHOLE: [&str; 25] = [
    "version = 1",
    "horizon = 2",
    "move_after = 3",
    "[[clp]]",
    "name = \"root\"",
    "[[clp]]",
    "name = \"left\"",
    "parent = \"root\"",
    "[[class]]",
    "name = \"cell\"",
    "[[class.var]]",
    "name = \"c0\"",
    "at = \"root\"",
    "x = -1",
    "y = 2",
    "[[class.var]]",
    "name = \"c1\"",
    "at = \"left\"",
    "[[class]]",
    "name = \"none\"",
    "[[agent]]",
    "name = \"ant\"",
    "home = \"left\"",
    "start = 1",
    "rule = \"read a = c0\\nset c1 = (a.x + 1), 0\"",
];

/// The scenario with another text in the place of the line of that number.
fn changed(alloc: Global, number: usize, line: &str) -> Result<String, AllocError> {
    let mut text = String::new(alloc);
    for (i, old) in WHOLE.iter().enumerate() {
        text.push_str(if i == number { line } else { old })?;
        text.push_str("\n")?;
    }
    Ok(text)
}

/// What stands in the place of a line of the whole scenario, and why it is refused.
const CHANGES: &[(usize, &str, &str)] = &[
    (0, "", "missing version"),
    (0, "version = 0", "version"),
    (0, "version = 3", "version"),
    (0, "version = -1", "version"),
    (0, "version = \"1\"", "kind version"),
    (0, "version = 1.0", "kind version"),
    (0, "version = [1]", "kind version"),
    (0, "version = 3\nodd = 0", "version"),
    (1, "", "missing horizon"),
    (1, "horizon = -1", "kind horizon"),
    (1, "horizon = \"2\"", "kind horizon"),
    (1, "horizon = 2.0", "kind horizon"),
    (1, "horizon = ", "not TOML"),
    (1, "horizon = 9223372036854775808", "not TOML"),
    (1, "horizon = 1000000000001", "plan: Limit { kind: Time }"),
    (1, "zeal = 0\nbest = 0", "strange best"),
    (2, "move_after = -1", "kind move_after"),
    (2, "move_after = false", "kind move_after"),
    (4, "", "missing clp[0].name"),
    (4, "name = 4", "kind clp[0].name"),
    (4, "at = 0", "strange clp[0].at"),
    (6, "", "missing clp[1].name"),
    (7, "parent = 1", "kind clp[1].parent"),
    (9, "", "missing class[0].name"),
    (9, "name = []", "kind class[0].name"),
    (9, "x = 0", "strange class[0].x"),
    (11, "", "missing class[0].var[0].name"),
    (11, "name = 1979-05-27", "kind class[0].var[0].name"),
    (12, "", "missing class[0].var[0].at"),
    (12, "at = 0", "kind class[0].var[0].at"),
    (12, "at = \"leaf\"", "plan: Place { kind: Var, index: 0 }"),
    (13, "x = 1.0", "kind class[0].var[0].x"),
    (14, "y = \"\"", "kind class[0].var[0].y"),
    (14, "y = 2\nz = 0", "strange class[0].var[0].z"),
    (16, "", "missing class[0].var[1].name"),
    (
        17,
        "at = \"left\"\nwidth = 0",
        "strange class[0].var[1].width",
    ),
    (19, "name = \"none\"\nvar = 0", "kind class[1].var"),
    (19, "name = \"none\"\nvar = [{}, 0]", "kind class[1].var[1]"),
    (19, "name = 0\nvar = 0", "kind class[1].name"),
    (21, "", "missing agent[0].name"),
    (21, "name = 1", "kind agent[0].name"),
    (22, "", "missing agent[0].home"),
    (22, "home = 1", "kind agent[0].home"),
    (23, "start = -1", "kind agent[0].start"),
    (23, "start = 0.5", "kind agent[0].start"),
    (23, "start = 1000000000001", "plan: Limit { kind: Time }"),
    (23, "end = 2", "strange agent[0].end"),
    (24, "", "missing agent[0].rule"),
    (24, "rule = 0", "kind agent[0].rule"),
    (24, "rule = \"wait 1\\nwait\"", "rule 0: Word { line: 2 }"),
    (
        24,
        "rule = \"read a = c0\\nset c9 = 1, 0\"",
        "rule 0: Unknown { line: 2 }",
    ),
    (
        24,
        "rule = \"read a = cell[0]\\nread b = none[0]\"",
        "rule 0: Unknown { line: 2 }",
    ),
    (24, "rule = \"\"", "a plan"),
];

/// Whole texts, and why they are refused.
const TEXTS: &[(&str, &str)] = &[
    ("", "missing version"),
    ("# nothing\n  # here", "missing version"),
    ("version = 1\nhorizon = 0\nclp = 3", "kind clp"),
    ("version = 1\nhorizon = 0\nclp.name = \"root\"", "kind clp"),
    (
        "version = 1\nhorizon = 0\nclp = { name = \"root\" }",
        "kind clp",
    ),
    (
        "version = 1\nhorizon = 0\nclp = [{ name.is = \"root\" }]",
        "kind clp[0].name",
    ),
    (
        "version = 1\nhorizon = 0\nclp = [{ name = { is = \"root\" } }]",
        "kind clp[0].name",
    ),
    (
        "version = 1\nhorizon = 0\nclp = [{ name = \"a\" }, 3, 4]",
        "kind clp[1]",
    ),
    // an element that is no table comes before the others are walked
    ("version = 1\nhorizon = 0\nclp = [{}, 3]", "kind clp[1]"),
    // and each element is walked before the next key, and before the next element
    (
        "version = 1\nhorizon = 0\nclp = [{}]\nclass = 3",
        "missing clp[0].name",
    ),
    (
        "version = 1\nhorizon = 0\nagent = [{}]\nclass = [{}]",
        "missing class[0].name",
    ),
    (
        "version = 1\nhorizon = 0\nclass = [{ var = 0 }]",
        "missing class[0].name",
    ),
    (
        "version = 1\nhorizon = 0\nclass = [{ name = 'c', var = [{}] }, {}]",
        "missing class[0].var[0].name",
    ),
    (
        "version = 1\nhorizon = 0\nagent = [{ odd = 0 }]\nmove_after = -1",
        "kind move_after",
    ),
    (
        "version = 1\n\"a\\u0001\\u007f\\\"b\" = 0",
        "strange a\u{1}\u{7f}\"b",
    ),
    ("version = 1\n'' = 0", "strange "),
    // no processes
    ("version = 1\nhorizon = 0", "plan: Limit { kind: Clp }"),
    (
        "version = 1\nhorizon = 0\nclp = []",
        "plan: Limit { kind: Clp }",
    ),
    (
        "version = 1\nhorizon = 0\nclp = [{ name = 'root' }]",
        "a plan",
    ),
    (
        "version = 2\nhorizon = 1000000000000\nclass = []\nagent = []\nclp = [{ name = 'root' }]",
        "a plan",
    ),
    (
        "version = 1\nhorizon = 10\n[[clp]]\nname = 'root'\n[[clp]]\nname = 'p'\nparent = 'q'\n\
        [[clp]]\nname = 'q'\nparent = 'p'",
        "plan: Tree { clp: 1 }",
    ),
    // the rules in the order of the agents, and all of them before the plan
    (
        "version = 1\nhorizon = 0\nagent = [{ name = 'a', home = '', rule = '' }, \
        { name = 'a', home = '', rule = 'else' }, { name = '', home = '', rule = 'x' }]",
        "rule 1: Nesting { line: 1 }",
    ),
];

/// Reads a text, none of which is long here.
fn read_short(alloc: Global, bytes: &[u8]) -> Result<Plan, ScenarioFault> {
    if bytes.len() > 1_000_000 {
        return Err(ScenarioFault::Memory);
    }
    read(alloc, bytes)
}

/// What comes of a text.
fn told(alloc: Global, bytes: &[u8]) -> Result<String, AllocError> {
    let Err(fault) = read_short(alloc, bytes) else {
        return String::from_str(alloc, "a plan");
    };
    match fault {
        ScenarioFault::NotToml => String::from_str(alloc, "not TOML"),
        ScenarioFault::Version => String::from_str(alloc, "version"),
        ScenarioFault::Missing { key } => format!(in alloc; "missing {}", key.as_str()),
        ScenarioFault::Kind { key } => format!(in alloc; "kind {}", key.as_str()),
        ScenarioFault::Strange { key } => format!(in alloc; "strange {}", key.as_str()),
        ScenarioFault::Rule { agent, fault } => format!(in alloc; "rule {agent}: {fault:?}"),
        ScenarioFault::Plan { fault } => format!(in alloc; "plan: {fault:?}"),
        ScenarioFault::Memory => Err(AllocError),
    }
}

#[test]
fn changes_are_refused(rt: HostRuntime) -> Result<(), Fail> {
    let alloc = rt.alloc();
    for (number, line, want) in CHANGES {
        let text = changed(alloc, *number, line)?;
        let got = told(alloc, text.as_bytes())?;
        assert!(rt; got.as_str() == *want, "{number} {line}: {}", got.as_str());
    }
    Ok(())
}

#[test]
fn texts_are_read_or_refused(rt: HostRuntime) -> Result<(), Fail> {
    let alloc = rt.alloc();
    for (text, want) in TEXTS {
        let got = told(alloc, text.as_bytes())?;
        assert!(rt; got.as_str() == *want, "{text}: {}", got.as_str());
    }
    assert!(rt; told(alloc, b"version = 1 # \xff")?.as_str() == "not TOML");
    Ok(())
}

/// Agents whose writes add, in a scenario of that version.
fn adders(alloc: Global, version: &str) -> Result<String, AllocError> {
    let mut text = String::from_str(alloc, "version = ")?;
    text.push_str(version)?;
    text.push_str(
        "\nhorizon = 0\n[[clp]]\nname = 'root'\n[[class]]\nname = 'cell'\n[[class.var]]\nname = 'c0'\nat = 'root'\n",
    )?;
    text.push_str("[[agent]]\nname = 'u'\nhome = 'root'\nrule = 'add c0 = 3, 0'\n")?;
    text.push_str("[[agent]]\nname = 'v'\nhome = 'root'\nrule = 'add c0 = 4, -1'\n")?;
    text.push_str("[[agent]]\nname = 'r'\nhome = 'root'\nrule = 'read a = c0'\n")?;
    Ok(text)
}

#[test]
fn versions_have_their_rules(rt: HostRuntime) -> Result<(), Fail> {
    let alloc = rt.alloc();
    let first = adders(alloc, "1")?;
    assert!(rt; told(alloc, first.as_bytes())?.as_str() == "rule 0: Word { line: 1 }");
    let second = adders(alloc, "2")?;
    assert!(rt; told(alloc, second.as_bytes())?.as_str() == "a plan");
    Ok(())
}

fn is_whole(plan: &Plan) -> bool {
    let [root, left] = plan.clps.as_slice() else {
        return false;
    };
    let [cell, none] = plan.classes.as_slice() else {
        return false;
    };
    let [c0, c1] = plan.vars.as_slice() else {
        return false;
    };
    let [ant] = plan.agents.as_slice() else {
        return false;
    };
    let rows = [
        ClassRow { first: 0, count: 2 },
        ClassRow { first: 2, count: 0 },
    ];
    plan.horizon == 2
        && plan.move_after == 3
        && root.name.as_str() == "root"
        && root.parent.is_none()
        && left.name.as_str() == "left"
        && left.parent == Some(0)
        && plan.layout.classes.as_slice() == rows.as_slice()
        && cell.as_str() == "cell"
        && none.as_str() == "none"
        && c0.name.as_str() == "c0"
        && c0.at == 0
        && c0.value == Value { x: -1, y: 2 }
        && c1.name.as_str() == "c1"
        && c1.at == 1
        && c1.value == Value { x: 0, y: 0 }
        && ant.name.as_str() == "ant"
        && ant.home == 1
        && ant.start == 1
        && ant.program.senses.len() == 1
        && ant.program.body.len() == 1
}

#[test]
fn the_whole_scenario_is_read(rt: HostRuntime) -> Result<(), Fail> {
    let alloc = rt.alloc();
    let text = changed(alloc, WHOLE.len(), "")?;
    let plan = read_short(alloc, text.as_bytes())?;
    assert!(rt; is_whole(&plan));
    Ok(())
}
