ghost use Rattle.std.specs.Prelude.{◌≡◌, IfOk};
ghost use Rattle.pm_replay.specs.Replays.{AreLines};

use pm_base::{Journal, Memory};
use pm_history::event;
use std::alloc::Global;

/// The events of the lines in front of a text, up to the first that is no journal line.
#[derive(Debug, Drop)]
pub struct Lines {
    pub journal: Journal,
    /// Whether all lines were read.
    pub whole: bool,
}

/// Reads the lines in front of a text, up to the first that is no journal line.
pub fn read_lines(alloc: Global, text: &[u8]) -> Result<Lines, Memory>
    ensures { IfOk result (λ lines. AreLines lines.journal lines.whole text.now) }
{
    let mut journal = Journal::new(alloc);
    let mut rest = text;
    'lines: while !rest.is_empty() {
        let Some((event, after)) = event(rest) else {
            return Ok(Lines {
                journal,
                whole: false,
            });
        };
        journal.push(event)?;
        rest = after;
    }
    Ok(Lines {
        journal,
        whole: true,
    })
}
