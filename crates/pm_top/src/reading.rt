ghost use Rattle.std.specs.Prelude.{◌≡◌, ◌≤◌, ◌<◌, ◌+◌, ◌^◌, IfOk, IfErr, OnOk, Ok, true, false, length, vec_len, ◌++◌, List, ℕ};
ghost use Rattle.std.specs.Io.KnownBytes.{Consumes, IsAtEnd};
ghost use Rattle.pm_io.specs.Causes.{Rose};
ghost use Rattle.pm_top.specs.Readings.{IsReadPast, IsReadWhole, longest, scenario_in};

use pm_io::Source;
use pm_replay::parts;
use pm_words::Mode;
use std::alloc::{AllocError, Global};

/// Why the input was not read.
#[derive(Clone, Copy, Debug, PartialEq, Eq)]
pub enum Unread {
    Failed,
    Memory,
}

/// What was taken of the input: all of it, or more than a limit.
#[derive(Debug, Drop)]
pub struct Taken {
    pub bytes: Vec<u8>,
    /// Whether it is more than the limit; there may then be more.
    pub is_past: bool,
}

/// The most bytes that a scenario may have.
pub const LONGEST_SCENARIO: usize = 4_194_304;

/// The most bytes that a scenario with a journal may have.
const LONGEST_REPLAY: usize = 67_108_864;

/// The most bytes that are taken at once.
const PIECE: usize = 65_536;

fn buffer_of(alloc: Global, len: usize) -> Result<Vec<u8>, AllocError>
    ensures { IfOk result (λ v. vec_len v ≡ len) }
{
    vec![in alloc; 0u8; len]
}

/// The most bytes that an input of this mode may have.
pub fn longest(mode: Mode) -> usize
    ensures value { result ≡ longest mode }
    ensures few { result ≤ 67108864 }
{
    match mode {
        Mode::Replay => LONGEST_REPLAY,
        _ => LONGEST_SCENARIO,
    }
}

/// The scenario in an input of this mode.
pub fn scenario_in(mode: Mode, bytes: &[u8]) -> &[u8]
    ensures { result.now ≡ scenario_in mode bytes.now }
{
    match mode {
        Mode::Replay => parts(bytes).0,
        _ => bytes,
    }
}

/// Reads the input to its end. It stops at the first piece that fails, and at the first past the limit.
pub fn read_whole<S: Source>(alloc: Global, input: &mut S, limit: usize) -> Result<Taken, Unread>
    requires { limit ≤ 67108864 }
    ensures whole { IfOk result (λ t. t.is_past ≡ false →
        IsReadWhole limit (S.held input.old) (S.held input.new) t.bytes.items) }
    ensures past { IfOk result (λ t. t.is_past ≡ true →
        IsReadPast limit (S.held input.old) (S.held input.new) t.bytes.items) }
    ensures failed { IfErr result (λ e. e ≡ Unread.Failed →
        Rose (S.faults input.old) (S.faults input.new)) }
    ensures faults { S.faults input.old ≤ S.faults input.new }
{
    let mut buffer = match buffer_of(alloc, PIECE) {
        Ok(buffer) => buffer,
        Err(_) => return Err(Unread::Memory),
    };
    let mut bytes = Vec::new(alloc);
    'pieces: while bytes.len() <= limit {
        match take_piece(input, buffer.as_mut_slice(), &mut bytes) {
            Ok(true) => {}
            Ok(false) => {
                return Ok(Taken {
                    bytes,
                    is_past: false,
                });
            }
            Err(unread) => return Err(unread),
        }
    }
    Ok(Taken {
        bytes,
        is_past: true,
    })
}

/// Takes a piece and keeps it; false at the end of the input.
fn take_piece<S: Source>(
    input: &mut S,
    buffer: &mut [u8],
    bytes: &mut Vec<u8>,
) -> Result<bool, Unread>
    requires { length buffer.old ≡ 65536 }
    ensures piece { OnOk result ((xs : List ℕ) × (length xs ≤ 65536)
        × (bytes.new.items ≡ bytes.old.items ++ xs)
        × Consumes (S.held input.old) (S.held input.new) xs) }
    ensures end { result ≡ Ok false → (bytes.new.items ≡ bytes.old.items) × IsAtEnd (S.held input.new) }
    ensures more { result ≡ Ok true → vec_len bytes.old < vec_len bytes.new }
    ensures few { OnOk result (vec_len bytes.new ≤ vec_len bytes.old + 65536) }
    ensures faults { S.faults input.old ≤ S.faults input.new }
    ensures failed { IfErr result (λ e. e ≡ Unread.Failed →
        Rose (S.faults input.old) (S.faults input.new)) }
{
    let count = match input.take(buffer) {
        Ok(count) => count,
        Err(_) => return Err(Unread::Failed),
    };
    if count == 0 {
        return Ok(false);
    }
    match bytes.extend_from_slice(&buffer[..count]) {
        Ok(()) => Ok(true),
        Err(_) => Err(Unread::Memory),
    }
}
