ghost use Rattle.std.specs.Prelude.{◌≡◌, ◌↔◌, ◌⊎◌, ◌<◌, ◌≤◌, ◌≢◌, [], Some, IsErr, OnOk, OnErr, IfOk, length, take, drop, min};
ghost use Rattle.std.specs.Io.{ReadsAtMost, WritesAtMost};
ghost use Rattle.std.specs.Io.KnownBytes.{ReadConsumes, WriteAppends};
ghost use Rattle.pm_io.specs.Causes.{HasCause, HasStalled, Rose, CountsFaults, CountsStalls};
ghost use Rattle.pm_io.specs.Memory.{sink_bytes, sink_cues, sink_wants, sink_faults, sink_stalls, CountsWants, source_bytes, source_cues, source_faults, next_cue, allowed, in_source};

use crate::script::{Script, at_most, for_source};
use crate::{Cue, Failed, Sink, Source};
use std::alloc::Global;

/// A sink in memory. The k-th put follows the script's k-th cue, and a put past the script follows `All`.
#[derive(Debug, Drop)]
pub struct MemSink {
    bytes: Vec<u8>,
    script: Script,
    wants: u64,
    faults: u64,
    stalls: u64,
}

impl MemSink {
    /// A sink that holds nothing. It takes no memory: `alloc` is where a later `put` takes it from.
    pub fn new(alloc: Global, script: Vec<Cue>) -> MemSink
        ensures bytes { sink_bytes result ≡ [] }
        ensures cues { sink_cues result ≡ script.items }
        ensures wants { sink_wants result ≡ 0 }
        ensures faults { sink_faults result ≡ 0 }
        ensures stalls { sink_stalls result ≡ 0 }
    {
        MemSink {
            bytes: Vec::new(alloc),
            script: Script::new(script),
            wants: 0,
            faults: 0,
            stalls: 0,
        }
    }

    /// What the sink holds.
    pub fn bytes(&self) -> &[u8]
        ensures { result.now ≡ sink_bytes self.now }
    {
        &self.bytes
    }

    /// How many puts found no memory, up to `u64::MAX`.
    pub fn wants(&self) -> u64
        ensures { result ≡ sink_wants self.now }
    {
        self.wants
    }
}

impl Sink for MemSink {
    ghost holds = { λ m. Some (sink_bytes m) };

    ghost faults = { sink_faults };

    ghost stalls = { sink_stalls };

    fn put(&mut self, piece: &[u8]) -> Result<usize, Failed>
        ensures bound { WritesAtMost result piece.now }
        ensures bytes { WriteAppends (Some (sink_bytes self.old)) (Some (sink_bytes self.new)) result piece.now }
        ensures cause { HasCause (sink_faults self.old) (sink_faults self.new) result }
        ensures stall { HasStalled (sink_stalls self.old) (sink_stalls self.new) result piece.now }
        ensures cues { sink_cues self.new ≡ drop 1 (sink_cues self.old) }
        ensures count { IfOk result (λ n. n ≡ allowed (next_cue (sink_cues self.old)) (length piece.now)) }
        ensures nothing { 0 < length piece.now → (result ≡ Ok 0) ↔ (next_cue (sink_cues self.old) ≡ Cue.Take 0) }
        ensures only { OnErr result ((next_cue (sink_cues self.old) ≡ Cue.Fail) ⊎ Rose (sink_wants self.old) (sink_wants self.new)) }
        ensures fail { next_cue (sink_cues self.old) ≡ Cue.Fail → IsErr result }
        ensures want { sink_wants self.old < sink_wants self.new → IsErr result }
        ensures counts_wants { CountsWants (next_cue (sink_cues self.old)) (sink_wants self.old) (sink_wants self.new) result }
        ensures counts_faults { CountsFaults (sink_faults self.old) (sink_faults self.new) result }
        ensures counts_stalls { CountsStalls (sink_stalls self.old) (sink_stalls self.new) result piece.now }
    {
        let cue = self.script.follow();
        if cue == Cue::Fail {
            self.faults = self.faults.saturating_add(1);
            return Err(Failed);
        }
        let count = at_most(cue, piece.len());
        if count == 0 {
            if !piece.is_empty() {
                self.stalls = self.stalls.saturating_add(1);
            }
            return Ok(0);
        }
        if self.bytes.extend_from_slice(&piece[..count]).is_err() {
            self.wants = self.wants.saturating_add(1);
            self.faults = self.faults.saturating_add(1);
            return Err(Failed);
        }
        Ok(count)
    }
}

/// A source in memory. The k-th take follows the script's k-th cue, and a take past the script follows `All`.
/// `Take(0)` is as `Take(1)`, since no byte is the end of the input.
#[derive(Debug, Drop)]
pub struct MemSource {
    bytes: Vec<u8>,
    taken: usize,
    script: Script,
    faults: u64,
}

impl MemSource {
    /// A source of these bytes. It takes no memory.
    pub fn new(bytes: Vec<u8>, script: Vec<Cue>) -> MemSource
        ensures bytes { source_bytes result ≡ bytes.items }
        ensures cues { source_cues result ≡ script.items }
        ensures faults { source_faults result ≡ 0 }
    {
        MemSource {
            bytes,
            taken: 0,
            script: Script::new(script),
            faults: 0,
        }
    }
}

fn rest_of(bytes: &[u8], taken: usize) -> &[u8]
    ensures { result.now ≡ drop taken bytes.now }
{
    if taken < bytes.len() {
        &bytes[taken..]
    } else {
        &[]
    }
}

/// Copies as many of the first bytes as the cue and the buffer allow, and answers how many.
fn give(rest: &[u8], cue: Cue, buf: &mut [u8]) -> usize
    ensures count { result ≡ allowed (in_source cue) (min (length buf.old) (length rest.now)) }
    ensures bound { result ≤ length buf.new }
    ensures rest { result ≤ length rest.now }
    ensures bytes { take result buf.new ≡ take result rest.now }
    ensures end { cue ≢ Cue.Fail → result ≡ 0 → 0 < length buf.new → rest.now ≡ [] }
{
    let room = if buf.len() < rest.len() {
        buf.len()
    } else {
        rest.len()
    };
    let count = at_most(for_source(cue), room);
    buf[..count].copy_from_slice(&rest[..count]);
    count
}

impl Source for MemSource {
    ghost held = { λ m. Some (source_bytes m) };

    ghost faults = { source_faults };

    fn take(&mut self, buf: &mut [u8]) -> Result<usize, Failed>
        ensures bound { ReadsAtMost result buf.new }
        ensures bytes { ReadConsumes (Some (source_bytes self.old)) (Some (source_bytes self.new)) result buf.new }
        ensures cause { HasCause (source_faults self.old) (source_faults self.new) result }
        ensures cues { source_cues self.new ≡ drop 1 (source_cues self.old) }
        ensures count { IfOk result (λ n. n ≡ allowed (in_source (next_cue (source_cues self.old))) (min (length buf.old) (length (source_bytes self.old)))) }
        ensures fail { IsErr result ↔ (next_cue (source_cues self.old) ≡ Cue.Fail) }
        ensures counts_faults { CountsFaults (source_faults self.old) (source_faults self.new) result }
    {
        let cue = self.script.follow();
        if cue == Cue::Fail {
            self.faults = self.faults.saturating_add(1);
            return Err(Failed);
        }
        let count = give(rest_of(&self.bytes, self.taken), cue, buf);
        self.taken += count;
        Ok(count)
    }
}
