ghost use Rattle.std.specs.Prelude.{◌≡◌, ◌<◌, ◌↔◌, ◌⊎◌, [], ◌∷◌};
ghost use Rattle.pm_io.specs.Causes.{Rose, raised};
ghost use Rattle.pm_io.specs.Memory.{allowed, in_source, next_cue, wants_after};
ghost use Rattle.pm_io.specs.declared.script.Cue.TheVariants as cue;

/// What contracts mean by a count that rose in a call: it is greater after the call than before it, or stands at its
/// last value after the call. The function does nothing.
pub fn rose_law(before: u64, now: u64)
    ensures { Rose before now ↔ ((before < now) ⊎ (now ≡ 18446744073709551615)) }
{}

/// How devices in memory follow their cues: a call has the cue at its place of the script, and no limit past it; a
/// limit is a greatest number of bytes, and at least one byte in a source. A count goes up by one, and stays at its
/// last value; a put that fails at no cue to fail found no memory.
pub fn worked_cues()
    ensures first { next_cue (cue.Fail ∷ cue.All ∷ []) ≡ cue.Fail }
    ensures past { next_cue [] ≡ cue.All }
    ensures limit { allowed (cue.Take 3) 10 ≡ 3 }
    ensures less { allowed (cue.Take 30) 10 ≡ 10 }
    ensures all { allowed cue.All 10 ≡ 10 }
    ensures source { in_source (cue.Take 0) ≡ cue.Take 1 }
    ensures one_more { raised 4 ≡ 5 }
    ensures last { raised 18446744073709551615 ≡ 18446744073709551615 }
    ensures failed { wants_after cue.Fail 4 ≡ 4 }
    ensures want { wants_after cue.All 4 ≡ 5 }
{}
