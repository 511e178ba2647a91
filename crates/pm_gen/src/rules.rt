ghost use Rattle.std.specs.Prelude.{◌≡◌, [], IfOk, OnOk};
ghost use Rattle.pm_gen.specs.Draws.{state_after};
ghost use Rattle.pm_gen.specs.Generated.{agent, agents};
ghost use Rattle.pm_gen.specs.Rules.{program, rule_text, table};

use crate::draws::Draws;
use crate::parts::name_of;
use pm_base::{ClassRow, List, Memory, Name, Program};
use pm_plan::AgentPart;
use pm_rules::{Names, RuleFault, parse};
use std::alloc::Global;

/// Rule 0: an agent that takes from the cell that it is at, and goes to a rich one where nothing is left.
const TAKING: &str = "reg at 0\n\
    read here = cell[at]\n\
    scan near = cell 5 9 0 9\n\
    if (here.x < 1)\n\
    let at = near.i\n\
    wait 3\n\
    else\n\
    set cell[at] = (here.x - 1), here.y\n\
    end\n";

/// Rule 1: an agent that adds to one cell after another.
const ADDING: &str = "reg at 0\n\
    read here = cell[(at + me)]\n\
    set cell[(at + me)] = ((here.x + 2) min 9), here.y\n\
    let at = (at + 5)\n\
    wait 4\n";

/// Rule 2: an agent that notes at its mark how many cells are rich, and the sum of their x.
const NOTING: &str = "scan rich = cell 6 9 0 9\n\
    read m = mark[me]\n\
    set mark[me] = rich.n, rich.sx\n\
    wait 2\n";

/// The text of a rule.
fn rule_text(rule: u32) -> &'static str
    ensures { result.now ≡ rule_text rule }
{
    match rule {
        0 => TAKING,
        1 => ADDING,
        _ => NOTING,
    }
}

/// The program of a rule.
fn program(alloc: Global, names: &Names<'_>, rule: u32) -> Result<Program, Memory>
    requires { names.now ≡ table [] }
    ensures { IfOk result (λ p. p ≡ program rule) }
{
    match parse(alloc, rule_text(rule), names, 1) {
        Ok(program) => Ok(program),
        Err(fault) => match fault {
            RuleFault::Memory => Err(Memory),
            _ => unreachable!(),
        },
    }
}

/// The agent of that number: its home, its start and its rule are drawn.
#[tactic(auto, unfolding(crate::specs::Draws::state_after))]
fn agent(
    alloc: Global,
    draws: &mut Draws,
    names: &Names<'_>,
    number: u32,
) -> Result<AgentPart, Memory>
    requires { names.now ≡ table [] }
    ensures part { IfOk result (λ part. part ≡ agent draws.old.state number) }
    ensures state { OnOk result (draws.new.state ≡ state_after draws.old.state 3) }
{
    let home = name_of(alloc, "p", draws.below(5))?;
    let start = u64::from(draws.below(8));
    let program = program(alloc, names, draws.below(3))?;
    Ok(AgentPart {
        name: name_of(alloc, "a", number)?,
        home,
        start,
        program,
    })
}

/// The agents, whose rules use those names.
#[tactic(auto, unfolding(crate::specs::Generated::agents))]
fn agents_with(
    alloc: Global,
    draws: &mut Draws,
    names: &Names<'_>,
) -> Result<List<AgentPart>, Memory>
    requires { names.now ≡ table [] }
    ensures { IfOk result (λ parts. parts ≡ agents draws.old.state) }
{
    let mut agents = List::new(alloc);
    for k in 0..12 {
        agents.push(agent(alloc, draws, names, k)?)?;
    }
    Ok(agents)
}

/// The classes with their members, which are all that the rules name.
fn classes(alloc: Global) -> Result<List<(Name, ClassRow)>, Memory>
    ensures { IfOk result (λ rows. rows ≡ (table []).classes) }
{
    let mut rows = List::new(alloc);
    rows.push((
        Name::make(alloc, "cell")?,
        ClassRow {
            first: 0,
            count: 24,
        },
    ))?;
    rows.push((
        Name::make(alloc, "mark")?,
        ClassRow {
            first: 24,
            count: 4,
        },
    ))?;
    Ok(rows)
}

/// The agents.
pub fn agents(alloc: Global, draws: &mut Draws) -> Result<List<AgentPart>, Memory>
    ensures { IfOk result (λ parts. parts ≡ agents draws.old.state) }
{
    let classes = classes(alloc)?;
    let vars = List::new(alloc);
    let names = Names::make(alloc, &classes, &vars)?;
    agents_with(alloc, draws, &names)
}
