// Which words a call serves: those of a run by workers want threads.
ghost use Rattle.std.specs.Prelude.{◌≡◌, IfOk, IfErr, None, Some, map, string_bytes};
ghost use Rattle.pm_top.specs.Serving.{is_shared, settings_served, wants_threads};
ghost use Rattle.pm_words.specs.Ranges.{IsInRange};
ghost use Rattle.pm_words.specs.Words.{settings_of};

use pm_words::{Mode, Settings, WordsFault, read};
use std::alloc::Global;

/// Whether the mode makes an optimistic run, which workers can share.
fn is_shared(mode: Mode) -> bool
    ensures { result ≡ is_shared mode }
{
    match mode {
        Mode::Run | Mode::Demo => true,
        Mode::Seq
        | Mode::Check
        | Mode::Upgrade
        | Mode::Place
        | Mode::Cut
        | Mode::Replay
        | Mode::Lowest => false,
    }
}

/// Whether what is asked for wants threads.
fn wants_threads(settings: &Settings) -> bool
    ensures { result ≡ wants_threads settings.now }
{
    is_shared(settings.mode) && settings.run.workers >= 1
}

/// What the words ask for. Where there are no threads, words that want some are refused like any that aren't understood.
pub fn read_served(
    alloc: Global,
    words: &Vec<String>,
    threads: bool,
) -> Result<Settings, WordsFault>
    ensures ok { IfOk result (λ s. settings_served threads (settings_of (map string_bytes words.now.items)) ≡ Some s) }
    ensures range { IfOk result (λ s. IsInRange s.run) }
    ensures refused { IfErr result (λ e. e ≡ WordsFault.Words →
        settings_served threads (settings_of (map string_bytes words.now.items)) ≡ None) }
{
    let settings = read(alloc, words)?;
    if !threads && wants_threads(&settings) {
        return Err(WordsFault::Words);
    }
    Ok(settings)
}
