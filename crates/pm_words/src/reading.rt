ghost use Rattle.std.specs.Prelude.{◌≡◌, ◌≢◌, ◌≤◌, ◌↔◌, [], IfErr, IfOk, IsTrue, None, Some, map, string_bytes};
ghost use Rattle.clap.specs.Words.{found_of, kind_of, rows_of};
ghost use Rattle.pm_words.specs.Line.{faults, rows};
ghost use Rattle.pm_words.specs.Ranges.{IsInRange};
ghost use Rattle.pm_words.specs.Words.{settings_of};
ghost use Rattle.pm_words.specs.declared.settings.WordsFault.TheVariants as fault;

use crate::command::command;
use crate::matched::settings_in;
use crate::settings::{Settings, WordsFault};
use clap::error::ErrorKind;
use clap::{ArgMatches, Error};
use std::alloc::Global;

fn is_memory(e: &Error) -> bool
    ensures { IsTrue result ↔ (kind_of e.now ≡ ErrorKind.OutOfMemory) }
{
    e.kind() == ErrorKind::OutOfMemory
}

/// The matches of the words, where the parser takes them.
fn parse<'a>(alloc: Global, words: &'a [String]) -> Result<ArgMatches<'a>, WordsFault>
    ensures rows { IfOk result (λ m. rows_of (found_of m) ≡ rows (map string_bytes words.entry.now)) }
    ensures taken { IfOk result (λ m. faults (map string_bytes words.entry.now) ≡ []) }
    ensures refused { IfErr result (λ e. e ≡ fault.Words → faults (map string_bytes words.entry.now) ≢ []) }
{
    let Ok(command) = command(alloc) else {
        return Err(WordsFault::Memory);
    };
    match command.try_get_matches_from(words) {
        Ok(matches) => Ok(matches),
        Err(e) => {
            if is_memory(&e) {
                Err(WordsFault::Memory)
            } else {
                Err(WordsFault::Words)
            }
        }
    }
}

/// The settings of the words after the program's name. `Words` tells that they have none, `Memory` that there was too
/// little of it to tell.
pub fn read(alloc: Global, words: &Vec<String>) -> Result<Settings, WordsFault>
    ensures ok { IfOk result (λ s. settings_of (map string_bytes words.now.items) ≡ Some s) }
    ensures refused { IfErr result (λ e. e ≡ fault.Words → settings_of (map string_bytes words.now.items) ≡ None) }
    ensures range { IfOk result (λ s. IsInRange s.run) }
    ensures from { IfOk result (λ s. s.from ≤ 1000000000000) }
{
    let matches = match parse(alloc, words.as_slice()) {
        Ok(matches) => matches,
        Err(fault) => return Err(fault),
    };
    match settings_in(&matches) {
        Some(settings) => Ok(settings),
        None => Err(WordsFault::Words),
    }
}
