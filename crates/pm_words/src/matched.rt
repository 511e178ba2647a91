ghost use Rattle.std.specs.Prelude.{◌≡◌, ◌≤◌, IfSome, codes, option_and_then, option_map};
ghost use Rattle.clap.specs.Words.{first_of, found_of, rows_of};
ghost use Rattle.pm_words.specs.Ranges.{IsFrom, IsInRange};
ghost use Rattle.pm_words.specs.Rows.{number_in, optional_in, row_settings};
ghost use Rattle.pm_words.specs.Words.{is_true_text, mode_named};

use crate::settings::{Mode, Settings, mode_named};
use crate::values::value;
use clap::ArgMatches;
use pm_base::RunSettings;

fn text_of<'a>(matches: &ArgMatches<'a>, name: &str) -> Option<&'a str>
    ensures { option_map (λ s. s.now) result ≡ first_of name.now (rows_of (found_of matches.now)) }
{
    matches.get_str(name)
}

fn mode_of(matches: &ArgMatches<'_>) -> Option<Mode>
    ensures { result ≡ option_and_then mode_named (first_of (codes "mode") (rows_of (found_of matches.now))) }
{
    match text_of(matches, "mode") {
        Some(text) => mode_named(text),
        None => None,
    }
}

/// The value of the option of this name, or `default` where it doesn't stand.
fn number(matches: &ArgMatches<'_>, name: &str, least: u64, most: u64, default: u64) -> Option<u64>
    requires { IsFrom least most default }
    ensures value { result ≡ number_in least most default (first_of name.now (rows_of (found_of matches.now))) }
    ensures within { IfSome result (IsFrom least most) }
{
    match text_of(matches, name) {
        Some(text) => value(text, least, most),
        None => Some(default),
    }
}

/// The same, where there may be none.
fn optional(matches: &ArgMatches<'_>, name: &str, least: u64, most: u64) -> Option<Option<u64>>
    ensures value { result ≡ optional_in least most (first_of name.now (rows_of (found_of matches.now))) }
    ensures within { IfSome result (λ n. IfSome n (IsFrom least most)) }
{
    match text_of(matches, name) {
        Some(text) => {
            let number = value(text, least, most)?;
            Some(Some(number))
        }
        None => Some(None),
    }
}

fn has_journal(matches: &ArgMatches<'_>) -> bool
    ensures { result ≡ is_true_text (first_of (codes "journal") (rows_of (found_of matches.now))) }
{
    match text_of(matches, "journal") {
        Some(text) => text == "true",
        None => false,
    }
}

/// The settings that the matches give.
#[tactic(auto, unfolding(crate::specs::Rows::row_settings))]
pub fn settings_in(matches: &ArgMatches<'_>) -> Option<Settings>
    ensures settings { result ≡ row_settings (rows_of (found_of matches.now)) }
    ensures range { IfSome result (λ s. IsInRange s.run) }
    ensures from { IfSome result (λ s. s.from ≤ 1000000000000) }
{
    let mode = mode_of(matches)?;
    let workers = number(matches, "workers", 0, 64, 4)?;
    let budget = number(matches, "budget", 0, 20_000_000, 1_000_000)?;
    let epoch = number(matches, "epoch", 1, 1_000_000, 4096)?;
    let window = optional(matches, "window", 1, 1_000_000_000_000)?;
    let seed = number(matches, "seed", 0, u64::MAX, 1)?;
    let from = number(matches, "from", 0, 1_000_000_000_000, 0)?;
    let journal = has_journal(matches);
    let run = RunSettings {
        workers: workers as u32,
        budget,
        epoch,
        window,
        turns: true,
    };
    Some(Settings {
        mode,
        run,
        seed,
        journal,
        from,
    })
}
