// Where the numbers that are known stand: an ordered map from each to the stamp of its row.
ghost use Rattle.std.specs.Prelude.{◌≡◌, false, cond, is_some, Some, None, OnOk, OnErr};
ghost use Rattle.std.specs.BTreeMap.{get};
ghost use Rattle.pm_base.specs.Stamps.{num_eq};
ghost use Rattle.pm_base.specs.declared.stamp.Num.{Num as TheNum};
ghost use Rattle.pm_periods.specs.Known.{num_cmp, stamp_kept};

use pm_base::{Line, Memory, Num, Stamp};
use std::collections::BTreeMap;

// Whether a row of that number is known.
pub fn knows(known: &BTreeMap<Num, Stamp>, num: Num) -> bool
    ensures { result ≡ is_some (get num_cmp known.now num) }
{
    known.contains_key(&num)
}

// A row of that number is known, and stands at the stamp. After `Memory` nothing is changed.
pub fn learn(known: &mut BTreeMap<Num, Stamp>, num: Num, stamp: Stamp) -> Result<(), Memory>
    ensures ok { OnOk result ((n : TheNum) → get num_cmp known.new n ≡
        cond (num_eq n num) (Some stamp) (get num_cmp known.old n)) }
    ensures err { OnErr result ((n : TheNum) → get num_cmp known.new n ≡ get num_cmp known.old n) }
{
    known.insert(num, stamp)?;
    Ok(())
}

// No row of that number is known.
pub fn forget(known: &mut BTreeMap<Num, Stamp>, num: Num)
    ensures { (n : TheNum) → get num_cmp known.new n ≡ cond (num_eq n num) None (get num_cmp known.old n) }
{
    known.remove(&num);
}

// Forgets those that stand below the line.
pub fn forget_below(known: &mut BTreeMap<Num, Stamp>, line: Line)
    ensures { (n : TheNum) → get num_cmp known.new n ≡ stamp_kept line false (get num_cmp known.old n) }
{
    known.retain(|_, s| !line.is_past(*s));
}

// Forgets the cuts that stand below the line and name none of these puts.
pub fn forget_cuts(cuts: &mut BTreeMap<Num, Stamp>, puts: &BTreeMap<Num, Stamp>, line: Line)
    ensures { (n : TheNum) → get num_cmp cuts.new n ≡
        stamp_kept line (is_some (get num_cmp puts.now n)) (get num_cmp cuts.old n) }
{
    cuts.retain(|n, s| !line.is_past(*s) || knows(puts, *n));
}
