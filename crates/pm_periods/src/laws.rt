// Laws of the definitions, and of every record.
ghost use Rattle.std.specs.Prelude.{◌≡◌, ◌≢◌, ◌↔◌, false, filter, IsTrue};
ghost use Rattle.pm_base.specs.declared.stamp.Line.{Line};
ghost use Rattle.pm_base.specs.Stamps.{is_below};
ghost use Rattle.pm_periods.specs.Periods.{periods_from, value_after_start, values_at};
ghost use Rattle.pm_periods.specs.Records.{HaveOneAgent, IsSettled, after_cut, after_put, after_watch, in_value_order};
ghost use Rattle.pm_periods.specs.Records.{is_seen, is_stale, record_hit, value_after, value_below};
ghost use Rattle.pm_periods.specs.Records.{record_value, settled, trimmed};
ghost use Rattle.pm_periods.specs.Rows.{IsInOrder, put_key};
ghost use Rattle.pm_periods.specs.Sample.{SampleRecord};

use crate::VarRecord;
use pm_base::{CutRow, Line, Parts, PutRow, ReadRow, Stamp};

/// Every record is settled, so `from_parts` of what `to_parts` tells is the same record.
pub fn records_are_settled(one: &VarRecord)
    ensures facts { IsSettled one.now.parts }
    ensures same { settled one.now.parts ≡ one.now.parts }
{
    let _ = &one.var;
}

/// A law of the definitions: any parts are settled at once.
pub fn settling_settles(parts: &Parts)
    ensures facts { IsSettled (settled parts.now) }
    ensures again { settled (settled parts.now) ≡ settled parts.now }
{}

/// A law of the definitions: what a settled record receives and what it forgets leave it settled.
pub fn receipts_keep_settled(parts: &Parts, put: PutRow, cut: CutRow, read: ReadRow, line: Line)
    ensures put { IsSettled parts.now → IsSettled (after_put put parts.now) }
    ensures cut { IsSettled parts.now → IsSettled (after_cut cut parts.now) }
    ensures watch { IsSettled parts.now → IsSettled (after_watch read parts.now) }
    ensures trim { IsSettled parts.now → IsSettled (trimmed line parts.now) }
{}

/// A law of the definitions: where puts of one stamp have one agent they change the value in the order of their list.
pub fn lists_have_value_order(parts: &Parts)
    ensures order { IsInOrder put_key parts.now.puts → HaveOneAgent parts.now.puts →
        in_value_order parts.now.puts ≡ parts.now.puts }
    ensures value { IsInOrder put_key parts.now.puts → HaveOneAgent parts.now.puts → (l : Line) →
        value_below parts.now l ≡ value_after (filter (is_seen parts.now.cuts l) parts.now.puts) parts.now.base }
{}

/// A law of the definitions: a read is given a hit exactly where it has another one than it was last given.
pub fn stale_reads_are_told(parts: &Parts, read: &ReadRow)
    ensures { IsTrue (is_stale (record_value parts.now) read.now) ↔ (record_hit parts.now read.now ≢ read.now.hit) }
{}

/// A law of the definitions: trimming keeps what is seen at every stamp not below the line.
pub fn trimming_keeps_values(parts: &Parts, line: Line, s: Stamp)
    ensures { IsSettled parts.now → is_below s line ≡ false →
        record_value (trimmed line parts.now) s ≡ record_value parts.now s }
{}

/// A law of the definitions: each stamp after the start is in one period, which has what a read there sees.
pub fn periods_cover(parts: &Parts, from: Option<Stamp>, s: Stamp)
    ensures { IsSettled parts.now → values_at s (periods_from parts.now from) ≡ value_after_start parts.now from s }
{}

/// What one record comes to by a read, a late write, a write that the read doesn't see, a withdrawal and a line.
pub fn sample_record()
    ensures { SampleRecord }
{}
