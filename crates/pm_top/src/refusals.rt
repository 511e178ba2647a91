ghost use Rattle.std.specs.Prelude.{◌≡◌, ◌++◌, ◌∷◌, [], codes, decimal};
ghost use Rattle.pm_top.specs.Refusals.{kind_word, part_text, plan_reason, refusal, rule_reason, rule_text, shown, shown_byte};
ghost use Rattle.pm_top.specs.Speech.{Speaks, sight};

use itoa::Buffer;
use pm_base::Name;
use pm_io::{Failed, Sink, write_whole};
use pm_plan::{Kind, PlanFault};
use pm_rules::RuleFault;
use pm_scenario::ScenarioFault;

/// Says a text, without taking memory, as all of these do.
pub fn say<E: Sink>(err: &mut E, text: &str) -> Result<(), Failed>
    ensures { Speaks result (sight E.holds E.faults E.stalls err.old)
        (sight E.holds E.faults E.stalls err.new) text.now }
{
    write_whole(err, text.as_bytes())
}

fn say_number<E: Sink>(err: &mut E, n: u64) -> Result<(), Failed>
    ensures { Speaks result (sight E.holds E.faults E.stalls err.old)
        (sight E.holds E.faults E.stalls err.new) (decimal n) }
{
    let mut buffer = Buffer::new();
    say(err, buffer.format(n))
}

/// One text and then another.
fn say_both<E: Sink>(err: &mut E, first: &str, second: &str) -> Result<(), Failed>
    ensures { Speaks result (sight E.holds E.faults E.stalls err.old)
        (sight E.holds E.faults E.stalls err.new) (first.now ++ second.now) }
{
    say(err, first)?;
    say(err, second)
}

/// A text and then a number.
fn say_before<E: Sink>(err: &mut E, text: &str, n: u64) -> Result<(), Failed>
    ensures { Speaks result (sight E.holds E.faults E.stalls err.old)
        (sight E.holds E.faults E.stalls err.new) (text.now ++ decimal n) }
{
    say(err, text)?;
    say_number(err, n)
}

fn say_line<E: Sink>(err: &mut E, line: u64, reason: &str) -> Result<(), Failed>
    ensures { Speaks result (sight E.holds E.faults E.stalls err.old)
        (sight E.holds E.faults E.stalls err.new)
        ((codes ": line " ++ decimal line) ++ (codes ": " ++ reason.now)) }
{
    say_before(err, ": line ", line)?;
    say_both(err, ": ", reason)
}

/// `rule of agent A: line L: REASON`
fn say_rule_text<E: Sink>(err: &mut E, agent: u32, line: u64, reason: &str) -> Result<(), Failed>
    ensures { Speaks result (sight E.holds E.faults E.stalls err.old)
        (sight E.holds E.faults E.stalls err.new)
        (rule_text agent line reason.now) }
{
    say_before(err, "rule of agent ", agent as u64)?;
    say_line(err, line, reason)
}

fn say_rule<E: Sink>(err: &mut E, agent: u32, fault: &RuleFault) -> Result<(), Failed>
    ensures { Speaks result (sight E.holds E.faults E.stalls err.old)
        (sight E.holds E.faults E.stalls err.new)
        (rule_reason agent fault.now) }
{
    match fault {
        RuleFault::Word { line } => say_rule_text(err, agent, *line, "not a statement\n"),
        RuleFault::Order { line } => say_rule_text(err, agent, *line, "out of order\n"),
        RuleFault::Nesting { line } => {
            say_rule_text(err, agent, *line, "if, else and end do not match\n")
        }
        RuleFault::TooLong { line } => say_rule_text(err, agent, *line, "too long\n"),
        RuleFault::Twice { line } => say_rule_text(err, agent, *line, "a name is declared twice\n"),
        RuleFault::Unknown { line } => say_rule_text(err, agent, *line, "an unknown name\n"),
        RuleFault::Memory => say(err, "out of memory\n"),
    }
}

fn kind_word(kind: Kind) -> &'static str
    ensures { result.now ≡ kind_word kind }
{
    match kind {
        Kind::Clp => "clp",
        Kind::Class => "class",
        Kind::Var => "var",
        Kind::Agent => "agent",
        Kind::Time => "time",
    }
}

fn say_index<E: Sink>(err: &mut E, index: u32, reason: &str) -> Result<(), Failed>
    ensures { Speaks result (sight E.holds E.faults E.stalls err.old)
        (sight E.holds E.faults E.stalls err.new)
        (decimal index ++ (codes ": " ++ reason.now)) }
{
    say_number(err, index as u64)?;
    say_both(err, ": ", reason)
}

/// `KIND I: REASON`
fn say_part<E: Sink>(err: &mut E, kind: Kind, index: u32, reason: &str) -> Result<(), Failed>
    ensures { Speaks result (sight E.holds E.faults E.stalls err.old)
        (sight E.holds E.faults E.stalls err.new)
        (part_text kind index reason.now) }
{
    say_both(err, kind_word(kind), " ")?;
    say_index(err, index, reason)
}

fn say_limit<E: Sink>(err: &mut E, kind: Kind) -> Result<(), Failed>
    ensures { Speaks result (sight E.holds E.faults E.stalls err.old)
        (sight E.holds E.faults E.stalls err.new)
        (codes "limit of " ++ (kind_word kind ++ codes "\n")) }
{
    say(err, "limit of ")?;
    say_both(err, kind_word(kind), "\n")
}

fn say_plan<E: Sink>(err: &mut E, fault: &PlanFault) -> Result<(), Failed>
    ensures { Speaks result (sight E.holds E.faults E.stalls err.old)
        (sight E.holds E.faults E.stalls err.new)
        (plan_reason fault.now) }
{
    match fault {
        PlanFault::Limit { kind } => say_limit(err, *kind),
        PlanFault::Name { kind, index } => say_part(err, *kind, *index, "not a name\n"),
        PlanFault::Twice { kind, index } => {
            say_part(err, *kind, *index, "the name stands twice\n")
        }
        PlanFault::Tree { clp } => say_part(err, Kind::Clp, *clp, "not in the tree\n"),
        PlanFault::Place { kind, index } => {
            say_part(err, *kind, *index, "its place is not a clp\n")
        }
        PlanFault::Memory => say(err, "out of memory\n"),
    }
}

fn shown_byte(b: u8) -> u8
    ensures { result ≡ shown_byte b }
{
    if b < 32 || b == 127 { b'?' } else { b }
}

/// A key's bytes, one at a time: a control character shows as `?`.
fn say_key<E: Sink>(err: &mut E, key: &Name) -> Result<(), Failed>
    ensures { Speaks result (sight E.holds E.faults E.stalls err.old)
        (sight E.holds E.faults E.stalls err.new) (shown key.now) }
{
    for b in key.as_str().as_bytes() {
        say_byte(err, *b)?;
    }
    Ok(())
}

fn say_byte<E: Sink>(err: &mut E, b: u8) -> Result<(), Failed>
    ensures { Speaks result (sight E.holds E.faults E.stalls err.old)
        (sight E.holds E.faults E.stalls err.new)
        (shown_byte b ∷ []) }
{
    let piece = [shown_byte(b)];
    write_whole(err, &piece)
}

fn say_of_key<E: Sink>(err: &mut E, key: &Name, reason: &str) -> Result<(), Failed>
    ensures { Speaks result (sight E.holds E.faults E.stalls err.old)
        (sight E.holds E.faults E.stalls err.new)
        (shown key.now ++ reason.now) }
{
    say_key(err, key)?;
    say(err, reason)
}

fn say_reason<E: Sink>(err: &mut E, fault: &ScenarioFault) -> Result<(), Failed>
    ensures { Speaks result (sight E.holds E.faults E.stalls err.old)
        (sight E.holds E.faults E.stalls err.new)
        (refusal fault.now) }
{
    match fault {
        ScenarioFault::NotToml => say(err, "not a TOML document\n"),
        ScenarioFault::Version => say(err, "the version is not known\n"),
        ScenarioFault::Missing { key } => say_of_key(err, key, " is missing\n"),
        ScenarioFault::Kind { key } => say_of_key(err, key, " is of the wrong kind\n"),
        ScenarioFault::Strange { key } => say_of_key(err, key, " is not a key\n"),
        ScenarioFault::Rule { agent, fault } => say_rule(err, *agent, fault),
        ScenarioFault::Plan { fault } => say_plan(err, fault),
        ScenarioFault::Memory => say(err, "out of memory\n"),
    }
}

/// Why a scenario is refused, in one line.
pub fn say_refusal<E: Sink>(err: &mut E, fault: &ScenarioFault) -> Result<(), Failed>
    ensures { Speaks result (sight E.holds E.faults E.stalls err.old)
        (sight E.holds E.faults E.stalls err.new)
        (codes "pdesmas: scenario: " ++ refusal fault.now) }
{
    say(err, "pdesmas: scenario: ")?;
    say_reason(err, fault)
}

/// That this agent makes no further step, in one line.
pub fn say_retired<E: Sink>(err: &mut E, agent: u32) -> Result<(), Failed>
    ensures { Speaks result (sight E.holds E.faults E.stalls err.old)
        (sight E.holds E.faults E.stalls err.new)
        ((codes "pdesmas: cut: agent " ++ decimal agent) ++ codes " is retired\n") }
{
    say_before(err, "pdesmas: cut: agent ", agent as u64)?;
    say(err, " is retired\n")
}

/// That this line of a journal may not stand there, in one line.
pub fn say_illegal<E: Sink>(err: &mut E, line: u64) -> Result<(), Failed>
    ensures { Speaks result (sight E.holds E.faults E.stalls err.old)
        (sight E.holds E.faults E.stalls err.new)
        ((codes "pdesmas: journal: line " ++ decimal line) ++ codes "\n") }
{
    say_before(err, "pdesmas: journal: line ", line)?;
    say(err, "\n")
}
