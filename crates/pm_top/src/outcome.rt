ghost use Rattle.std.specs.Prelude.{◌≡◌, ◌≢◌};
ghost use Rattle.pm_top.specs.Endings.{error_line, status_of};
ghost use Rattle.pm_top.specs.Headline.{Offers};
ghost use Rattle.pm_top.specs.Speech.{Speaks, sight};

use crate::refusals::{say, say_illegal, say_refusal, say_retired};
use pm_io::{Failed, Sink};
use pm_scenario::ScenarioFault;

/// How a call of the program ended.
#[derive(Debug, Drop)]
pub enum Ending {
    /// The whole output was written.
    Done,
    /// The words are no command.
    Words,
    /// The input is no scenario.
    Refused(ScenarioFault),
    /// The scenario is longer than one may be.
    TooLong,
    /// The scenario with its journal is longer than that may be.
    InputTooLong,
    /// The budget of steps is spent, and the run goes on.
    BudgetSpent,
    /// The input failed.
    ReadFault,
    /// The output failed, or took nothing.
    WriteFault,
    /// Memory ran out.
    Memory,
    /// This line of the journal, the first such, is no event's, or of one that may not stand there.
    Illegal(u64),
    /// The scenario can't be cut there: this agent makes no further step, and no start is late enough for it.
    Retired(u32),
}

/// The status that the program ends with.
pub fn status_of(ending: &Ending) -> u8
    ensures { result ≡ status_of ending.now }
{
    match ending {
        Ending::Done => 0,
        Ending::Words => 1,
        Ending::Refused(_) | Ending::TooLong | Ending::InputTooLong => 2,
        Ending::BudgetSpent => 3,
        Ending::ReadFault => 4,
        Ending::WriteFault => 5,
        Ending::Memory => 6,
        Ending::Illegal(_) => 7,
        Ending::Retired(_) => 8,
    }
}

/// Says the line of an ending.
fn say_ending<E: Sink>(err: &mut E, ending: &Ending) -> Result<(), Failed>
    ensures said { ending.now ≢ Ending.Done → Speaks result
        (sight E.holds E.faults E.stalls err.old)
        (sight E.holds E.faults E.stalls err.new)
        (error_line ending.now) }
    ensures silent { ending.now ≡ Ending.Done → err.new ≡ err.old }
{
    match ending {
        Ending::Done => Ok(()),
        Ending::Words => say(err, "pdesmas: the words are not understood\n"),
        Ending::Refused(fault) => say_refusal(err, fault),
        Ending::TooLong => say(err, "pdesmas: the scenario is longer than 4194304 bytes\n"),
        Ending::BudgetSpent => say(err, "pdesmas: the budget is spent\n"),
        Ending::ReadFault => say(err, "pdesmas: the input cannot be read\n"),
        Ending::WriteFault => say(err, "pdesmas: the output cannot be written\n"),
        Ending::Memory => say(err, "pdesmas: out of memory\n"),
        Ending::InputTooLong => say(err, "pdesmas: the input is longer than 67108864 bytes\n"),
        Ending::Illegal(line) => say_illegal(err, *line),
        Ending::Retired(agent) => say_retired(err, *agent),
    }
}

/// Offers the line of an ending, but of `Done` nothing. It takes no memory, and that the sink fails changes nothing.
pub fn offer<E: Sink>(err: &mut E, ending: &Ending)
    ensures silent { ending.now ≡ Ending.Done → err.new ≡ err.old }
    ensures told { ending.now ≢ Ending.Done → Offers
        (sight E.holds E.faults E.stalls err.old)
        (sight E.holds E.faults E.stalls err.new)
        (error_line ending.now) }
{
    let _ = say_ending(err, ending);
}
