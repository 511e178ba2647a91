// One kept step as it is held, and the senses in it.
ghost use Rattle.std.specs.Prelude.{◌≡◌, ℕ, ◌+◌, ◌<◌, ◌≤◌, ◌^◌, ◌++◌, ◌∷◌, [], true, is_some, length, slice_get, take};
ghost use Rattle.std.specs.Prelude.{None, Some, OnOk, OnErr};
ghost use Rattle.std.specs.Option.{option_copied, option_map};
ghost use Rattle.pm_base.specs.Stamps.{num_eq};
ghost use Rattle.pm_saved.specs.Inner.{Fits, SensesRise, is_ready, place_in, sense_place, step_of};
ghost use Rattle.pm_saved.specs.Senses.{add_kept};
ghost use Rattle.pm_saved.specs.Spots.{InStep, find_sense, sense_at};
ghost use Rattle.pm_saved.specs.Steps.{HasGrown, act_cuts, cuts_of};
ghost use Rattle.pm_saved.specs.declared.kept.KeptSense.{KeptSense as TheSense};

use crate::hits::keep;
use crate::kept::{KeptAct, KeptHit, KeptSense};
use pm_base::{Line, List, Memory, Num, Stamp, Write};
use pm_message::Message;

// A kept step, and an end of the numbers under which its senses and those of earlier steps asked.
#[derive(Debug, Drop)]
pub struct Held {
    pub next: u64,
    pub stamp: Stamp,
    pub senses: Vec<KeptSense>,
    pub act: Option<KeptAct>,
}

fn is_same(a: Num, b: Num) -> bool
    ensures { result ≡ num_eq a b }
{
    a.agent == b.agent && a.seq == b.seq
}

// How many senses asked under lesser numbers.
fn sense_place(senses: &[KeptSense], seq: u64) -> usize
    requires { (n : ℕ) × (m : ℕ) × SensesRise n senses.now m }
    ensures bound { result ≤ length senses.now }
    ensures place { result ≡ sense_place seq senses.now }
{
    senses.partition_point(|s| s.num.seq < seq)
}

fn num_at(senses: &[KeptSense], at: usize) -> Option<Num>
    ensures { result ≡ option_map (λ (s : TheSense). s.num) (slice_get senses.now at) }
{
    match senses.get(at) {
        Some(s) => Some(s.num),
        None => None,
    }
}

// The place of the sense of this number.
pub fn place_in(senses: &[KeptSense], num: Num) -> Option<usize>
    requires { (n : ℕ) × (m : ℕ) × SensesRise n senses.now m }
    ensures place { find_sense num senses.now ≡ place_in senses.now result }
    ensures variant { is_some (find_sense num senses.now) ≡ is_some result }
{
    let at = sense_place(senses, num.seq);
    match num_at(senses, at) {
        Some(there) => if is_same(num, there) { Some(at) } else { None },
        None => None,
    }
}

// The sense at this place.
pub fn sense_of<'a>(held: &'a Held, at: usize) -> Option<&'a KeptSense>
    ensures { option_copied result ≡ slice_get held.now.senses.items at }
{
    held.senses.get(at)
}

// The sense becomes complete.
pub fn finish_in(held: &mut Held, at: usize)
    ensures step { (i : InStep) → sense_at at held.old.senses.items ≡ Some i → step_of held.new ≡
        record (step_of held.old) { senses = i.before ++ record i.sense { complete = true } ∷ i.later } }
    ensures next { held.new.next ≡ held.old.next }
    ensures fits { (n : ℕ) → Fits n held.old → Fits n held.new }
{
    if let Some(sense) = held.senses.get_mut(at) {
        sense.complete = true;
    }
}

// Keeps a hit of the sense.
pub fn keep_in(held: &mut Held, at: usize, hit: KeptHit) -> Result<(), Memory>
    requires { (n : ℕ) × Fits n held.old }
    ensures step { OnOk result ((i : InStep) → sense_at at held.old.senses.items ≡ Some i → step_of held.new ≡
        record (step_of held.old) {
          senses = i.before ++ record i.sense { hits = add_kept hit i.sense.hits } ∷ i.later;
        }) }
    ensures same { OnErr result (step_of held.new ≡ step_of held.old) }
    ensures next { held.new.next ≡ held.old.next }
    ensures fits { (n : ℕ) → Fits n held.old → Fits n held.new }
{
    if let Some(sense) = held.senses.get_mut(at) {
        keep(&mut sense.hits, hit)?;
    }
    Ok(())
}

// Adds a sense.
pub fn ask_in(held: &mut Held, sense: KeptSense) -> Result<(), Memory>
    requires { sense.num.seq + 1 < 2 ^ 64 }
    ensures step { OnOk result (step_of held.new ≡
        record (step_of held.old) { senses = held.old.senses.items ++ sense ∷ [] }) }
    ensures next { OnOk result (held.new.next ≡ sense.num.seq + 1) }
    ensures same { OnErr result ((step_of held.new ≡ step_of held.old) × (held.new.next ≡ held.old.next)) }
{
    let next = sense.num.seq + 1;
    held.senses.push(sense)?;
    held.next = next;
    Ok(())
}

// Drops the senses after the one at this place.
fn keep_first(senses: &mut Vec<KeptSense>, at: usize)
    ensures { senses.new.items ≡ take (at + 1) senses.old.items }
{
    if at < senses.len() {
        senses.truncate(at + 1);
    }
}

// Drops what came after the sense.
pub fn cut_in(held: &mut Held, at: usize)
    ensures step { (i : InStep) → sense_at at held.old.senses.items ≡ Some i → step_of held.new ≡
        record (step_of held.old) { senses = i.before ++ i.sense ∷ []; act = None } }
    ensures next { held.new.next ≡ held.old.next }
    ensures fits { (n : ℕ) → Fits n held.old → Fits n held.new }
{
    keep_first(&mut held.senses, at);
    held.act = None;
}

// The step ends.
pub fn end_in(held: &mut Held, act: KeptAct)
    ensures step { step_of held.new ≡ record (step_of held.old) { act = Some act } }
    ensures next { held.new.next ≡ held.old.next }
{
    held.act = Some(act);
}

// Whether the step is below the line and has acted.
pub fn is_ready(held: &Held, line: Line) -> bool
    ensures { result ≡ is_ready line held.now }
{
    line.is_past(held.stamp) && held.act.is_some()
}

fn push_cut(num: Num, stamp: Stamp, write: &Write, out: &mut List<Message>) -> Result<(), Memory>
    ensures ok { OnOk result (out.new ≡ out.old ++ cuts_of stamp (num ∷ []) (write.now ∷ [])) }
    ensures err { OnErr result (out.new ≡ out.old) }
{
    let var = write.var;
    out.push(Message::Cut { num, stamp, var })
}

fn push_cuts(
    stamp: Stamp,
    nums: &[Num],
    writes: &[Write],
    out: &mut List<Message>,
) -> Result<(), Memory>
    ensures ok { OnOk result (out.new ≡ out.old ++ cuts_of stamp nums.now writes.now) }
    ensures grown { HasGrown out.old out.new }
{
    for (at, num) in nums.iter().enumerate() {
        match writes.get(at) {
            Some(write) => push_cut(*num, stamp, write, out)?,
            None => return Ok(()),
        }
    }
    Ok(())
}

// Sends the anti-messages of the step's writes.
pub fn withdraw(held: &Held, out: &mut List<Message>) -> Result<(), Memory>
    ensures ok { OnOk result (out.new ≡ out.old ++ act_cuts held.now.stamp held.now.act) }
    ensures grown { HasGrown out.old out.new }
{
    match &held.act {
        Some(act) => push_cuts(
            held.stamp,
            act.nums.as_slice(),
            act.entry.writes.as_slice(),
            out,
        ),
        None => Ok(()),
    }
}
