ghost use Rattle.std.specs.Prelude.{IsTrue};
ghost use Rattle.pm_periods.specs.Laid.{reads_of};
ghost use Rattle.pm_periods.specs.Records.{HaveTurns};

use crate::VarRecord;
use crate::held::Held;
use pm_base::{
    Change, GiveRow, Interval, Line, List, Num, Parts, Period, PutRow, ReadRow, Stamp, Value,
    Window,
};
use std::alloc::Global;
use std::process::Abort;
use std::test::Fail;

// What a record is told, with numbers and stamps as pairs of an agent and a count, and of a time and an agent, and
// what it must answer: the turn and the new hit of each read, by the agent and the count of its number.
#[derive(Clone, Copy, Debug)]
enum Told {
    Put((u32, u64), (u64, u32), Change),
    Cut((u32, u64), (u64, u32)),
    Watch((u32, u64), (u64, u32), Window),
    Trim(Line),
}

type Given = (u32, u64, u64, Option<Value>);

fn num(n: (u32, u64)) -> Num {
    Num {
        agent: n.0,
        seq: n.1,
    }
}

fn at(s: (u64, u32)) -> Stamp {
    Stamp {
        time: s.0,
        agent: s.1,
    }
}

fn pair(x: i64, y: i64) -> Value {
    Value { x, y }
}

fn set(x: i64) -> Change {
    Change::Set(pair(x, 0))
}

fn add(x: i64) -> Change {
    Change::Add(pair(x, 0))
}

fn small() -> Window {
    Window {
        x0: 0,
        x1: 5,
        y0: 0,
        y1: 5,
    }
}

fn one(alloc: Global, give: Option<GiveRow>) -> Result<List<GiveRow>, Fail> {
    let mut gives = List::new(alloc);
    if let Some(give) = give {
        gives.push(give)?;
    }
    Ok(gives)
}

// Whether each of these reads can be given one more hit.
#[tactic(auto, using(crate::proofs::Hits::have_more))]
fn have_turns(reads: &[ReadRow]) -> bool
    ensures { IsTrue result → HaveTurns reads.now }
{
    for q in reads {
        if q.turn >= 1 << 63 {
            return false;
        }
    }
    true
}

fn has_turns(one: &VarRecord) -> bool
    ensures { IsTrue result → HaveTurns one.now.parts.reads }
{
    have_all_turns(one.periods.as_slice())
}

fn have_all_turns(periods: &[Held]) -> bool
    ensures { IsTrue result → HaveTurns (reads_of periods.now) }
{
    for h in periods {
        if !have_turns(h.reads.as_slice()) {
            return false;
        }
    }
    true
}

fn tell(alloc: Global, record: &mut VarRecord, told: &Told) -> Result<List<GiveRow>, Fail> {
    if !has_turns(record) {
        return Err(Fail::new("turns"));
    }
    match told {
        Told::Put(n, s, change) => Ok(record.put(
            alloc,
            PutRow {
                num: num(*n),
                stamp: at(*s),
                change: *change,
            },
        )?),
        Told::Cut(n, s) => Ok(record.cut(alloc, num(*n), at(*s))?),
        Told::Watch(n, s, window) => one(alloc, record.watch(alloc, num(*n), at(*s), *window)?),
        Told::Trim(line) => {
            record.trim(*line);
            Ok(List::new(alloc))
        }
    }
}

// That the read of this number is given (x,0).
fn hit(agent: u32, seq: u64, turn: u64, x: i64) -> Given {
    (agent, seq, turn, Some(pair(x, 0)))
}

// That it is given no hit.
fn miss(agent: u32, seq: u64, turn: u64) -> Given {
    (agent, seq, turn, None)
}

fn given(give: &GiveRow) -> Given {
    (give.num.agent, give.num.seq, give.turn, give.hit)
}

// What a row of a table must give: at most two hits.
type Wants = (Option<Given>, Option<Given>);

// Tells a new record of variable 4, at (0,0), these rows one after another; each must give its hits.
fn follows(rt: &impl Abort, alloc: Global, rows: &[(Told, Wants)]) -> Result<(), Fail> {
    let mut record = VarRecord::new(alloc, 4, pair(0, 0))?;
    for (told, want) in rows {
        let gives = tell(alloc, &mut record, told)?;
        assert_eq!(rt; gives.get(0).map(given), want.0);
        assert_eq!(rt; gives.get(1).map(given), want.1);
        assert_eq!(rt; gives.get(2).map(given), None);
    }
    Ok(())
}

#[test]
fn worked_record(rt: HostRuntime) -> Result<(), Fail> {
    let whole = Window::whole();
    let rows = [
        (
            Told::Watch((1, 1), (5, 1), whole),
            (Some(hit(1, 1, 1, 0)), None),
        ),
        (
            Told::Put((0, 1), (3, 0), set(7)),
            (Some(hit(1, 1, 2, 7)), None),
        ),
        (Told::Put((1, 2), (5, 1), set(8)), (None, None)),
        (Told::Cut((0, 1), (3, 0)), (Some(hit(1, 1, 3, 0)), None)),
        (Told::Watch((1, 1), (5, 1), whole), (None, None)),
        (Told::Watch((2, 1), (5, 2), small()), (None, None)),
    ];
    follows(&rt, rt.alloc(), &rows)
}

#[test]
fn writes_that_add(rt: HostRuntime) -> Result<(), Fail> {
    let whole = Window::whole();
    let rows = [
        (Told::Put((0, 1), (1, 0), add(3)), (None, None)),
        (
            Told::Watch((5, 1), (9, 5), whole),
            (Some(hit(5, 1, 1, 3)), None),
        ),
        (
            Told::Put((1, 1), (0, 1), set(10)),
            (Some(hit(5, 1, 2, 13)), None),
        ),
        (Told::Cut((0, 1), (1, 0)), (Some(hit(5, 1, 3, 10)), None)),
    ];
    follows(&rt, rt.alloc(), &rows)
}

#[test]
fn received_twice(rt: HostRuntime) -> Result<(), Fail> {
    let whole = Window::whole();
    let rows = [
        (
            Told::Watch((2, 1), (7, 2), whole),
            (Some(hit(2, 1, 1, 0)), None),
        ),
        (
            Told::Put((0, 1), (3, 0), add(4)),
            (Some(hit(2, 1, 2, 4)), None),
        ),
        (Told::Put((0, 1), (3, 0), add(4)), (None, None)),
        (Told::Cut((0, 1), (3, 0)), (Some(hit(2, 1, 3, 0)), None)),
        (Told::Cut((0, 1), (3, 0)), (None, None)),
        (Told::Put((0, 1), (3, 0), add(4)), (None, None)),
    ];
    follows(&rt, rt.alloc(), &rows)
}

#[test]
fn withdrawal_before_its_write(rt: HostRuntime) -> Result<(), Fail> {
    let whole = Window::whole();
    let rows = [
        (
            Told::Watch((2, 1), (7, 2), whole),
            (Some(hit(2, 1, 1, 0)), None),
        ),
        (Told::Cut((0, 1), (3, 0)), (None, None)),
        (Told::Put((0, 1), (3, 0), set(9)), (None, None)),
    ];
    follows(&rt, rt.alloc(), &rows)
}

#[test]
fn two_writes_of_one_stamp(rt: HostRuntime) -> Result<(), Fail> {
    let whole = Window::whole();
    let rows = [
        (
            Told::Watch((0, 5), (3, 0), whole),
            (Some(hit(0, 5, 1, 0)), None),
        ),
        (
            Told::Watch((0, 6), (3, 1), whole),
            (Some(hit(0, 6, 1, 0)), None),
        ),
        (
            Told::Put((0, 8), (3, 0), add(1)),
            (Some(hit(0, 6, 2, 1)), None),
        ),
        (
            Told::Put((0, 7), (3, 0), set(5)),
            (Some(hit(0, 6, 3, 6)), None),
        ),
    ];
    follows(&rt, rt.alloc(), &rows)
}

#[test]
fn greater_agent_is_later(rt: HostRuntime) -> Result<(), Fail> {
    let whole = Window::whole();
    let rows = [
        (Told::Put((1, 7), (3, 0), set(2)), (None, None)),
        (Told::Put((0, 7), (3, 0), set(5)), (None, None)),
        (
            Told::Watch((2, 1), (4, 2), whole),
            (Some(hit(2, 1, 1, 2)), None),
        ),
    ];
    follows(&rt, rt.alloc(), &rows)
}

#[test]
fn greater_count_is_later(rt: HostRuntime) -> Result<(), Fail> {
    let whole = Window::whole();
    let rows = [
        (Told::Put((0, 9), (3, 0), set(5)), (None, None)),
        (Told::Put((1, 7), (3, 0), set(2)), (None, None)),
        (
            Told::Watch((2, 1), (4, 2), whole),
            (Some(hit(2, 1, 1, 5)), None),
        ),
        (Told::Put((1, 8), (3, 0), set(4)), (None, None)),
        (Told::Cut((0, 9), (3, 0)), (Some(hit(2, 1, 2, 4)), None)),
    ];
    follows(&rt, rt.alloc(), &rows)
}

#[test]
fn lists_of_one_stamp_are_by_agent(rt: HostRuntime) -> Result<(), Fail> {
    let alloc = rt.alloc();
    let mut record = VarRecord::new(alloc, 4, pair(0, 0))?;
    tell(alloc, &mut record, &Told::Put((1, 7), (3, 0), set(2)))?;
    tell(alloc, &mut record, &Told::Put((0, 9), (3, 0), set(5)))?;
    let parts = record.to_parts(alloc)?;
    let puts = [put((0, 9), (3, 0), set(5)), put((1, 7), (3, 0), set(2))];
    assert_eq!(rt; parts.puts.as_slice(), puts.as_slice());
    let again = VarRecord::from_parts(alloc, 4, &parts)?;
    check_same(&rt, alloc, &again, &record)?;
    assert_eq!(rt; again.value_at(at((4, 2))), pair(5, 0));
    Ok(())
}

#[test]
fn out_of_the_window(rt: HostRuntime) -> Result<(), Fail> {
    let rows = [
        (
            Told::Watch((3, 1), (8, 3), small()),
            (Some(hit(3, 1, 1, 0)), None),
        ),
        (
            Told::Watch((2, 1), (8, 2), small()),
            (Some(hit(2, 1, 1, 0)), None),
        ),
        (
            Told::Put((0, 1), (3, 0), set(9)),
            (Some(miss(2, 1, 2)), Some(miss(3, 1, 2))),
        ),
        (
            Told::Put((2, 2), (8, 2), set(2)),
            (Some(hit(3, 1, 3, 2)), None),
        ),
    ];
    follows(&rt, rt.alloc(), &rows)
}

#[test]
fn line_between_a_write_and_its_withdrawal(rt: HostRuntime) -> Result<(), Fail> {
    let whole = Window::whole();
    let rows = [
        (Told::Put((0, 1), (3, 0), set(9)), (None, None)),
        (Told::Trim(Line::At(at((3, 1)))), (None, None)),
        (
            Told::Watch((2, 1), (4, 2), whole),
            (Some(hit(2, 1, 1, 9)), None),
        ),
        (Told::Cut((0, 1), (3, 0)), (None, None)),
        (Told::Put((0, 1), (3, 0), set(5)), (None, None)),
    ];
    follows(&rt, rt.alloc(), &rows)
}

#[test]
fn line_at_a_read_and_a_write(rt: HostRuntime) -> Result<(), Fail> {
    let whole = Window::whole();
    let rows = [
        (
            Told::Watch((3, 1), (3, 3), whole),
            (Some(hit(3, 1, 1, 0)), None),
        ),
        (Told::Put((3, 2), (3, 3), set(1)), (None, None)),
        (Told::Trim(Line::At(at((3, 3)))), (None, None)),
        (
            Told::Put((2, 1), (3, 2), set(6)),
            (Some(hit(3, 1, 2, 6)), None),
        ),
    ];
    follows(&rt, rt.alloc(), &rows)
}

#[test]
fn withdrawal_at_another_stamp(rt: HostRuntime) -> Result<(), Fail> {
    let whole = Window::whole();
    let rows = [
        (Told::Put((0, 1), (3, 0), set(9)), (None, None)),
        (
            Told::Watch((2, 1), (4, 2), whole),
            (Some(hit(2, 1, 1, 9)), None),
        ),
        (Told::Cut((0, 1), (8, 0)), (Some(hit(2, 1, 2, 0)), None)),
    ];
    follows(&rt, rt.alloc(), &rows)
}

fn put(n: (u32, u64), s: (u64, u32), change: Change) -> PutRow {
    PutRow {
        num: num(n),
        stamp: at(s),
        change,
    }
}

// The worked record, up to its withdrawal and its second read.
fn worked(alloc: Global) -> Result<VarRecord, Fail> {
    let mut record = VarRecord::new(alloc, 4, pair(0, 0))?;
    let rows = [
        Told::Watch((1, 1), (5, 1), Window::whole()),
        Told::Put((0, 1), (3, 0), set(7)),
        Told::Put((1, 2), (5, 1), set(8)),
        Told::Cut((0, 1), (3, 0)),
        Told::Watch((2, 1), (5, 2), small()),
    ];
    for told in &rows {
        tell(alloc, &mut record, told)?;
    }
    Ok(record)
}

fn check_same(rt: &impl Abort, alloc: Global, a: &VarRecord, b: &VarRecord) -> Result<(), Fail> {
    let a = a.to_parts(alloc)?;
    let b = b.to_parts(alloc)?;
    assert_eq!(rt; a.base, b.base);
    assert_eq!(rt; a.puts.as_slice(), b.puts.as_slice());
    assert_eq!(rt; a.cuts.as_slice(), b.cuts.as_slice());
    assert_eq!(rt; a.reads.as_slice(), b.reads.as_slice());
    Ok(())
}

fn period(from: Option<(u64, u32)>, until: Option<(u64, u32)>, x: i64) -> Period {
    Period {
        when: Interval {
            from: from.map(at),
            until: until.map(at),
        },
        value: pair(x, 0),
    }
}

#[test]
fn worked_record_seen_and_trimmed(rt: HostRuntime) -> Result<(), Fail> {
    let alloc = rt.alloc();
    let mut record = worked(alloc)?;
    assert_eq!(rt; record.value_at(at((6, 0))), pair(8, 0));
    assert_eq!(rt; record.kept(), 5);
    let periods = record.periods_from(alloc, Some(at((4, 0))))?;
    let want = [
        period(Some((4, 0)), Some((5, 1)), 0),
        period(Some((5, 1)), None, 8),
    ];
    assert_eq!(rt; periods.as_slice(), want.as_slice());
    let again = VarRecord::from_parts(alloc, 4, &record.to_parts(alloc)?)?;
    check_same(&rt, alloc, &again, &record)?;
    record.trim(Line::At(at((6, 0))));
    assert_eq!(rt; record.kept(), 0);
    assert_eq!(rt; record.to_parts(alloc)?.base, pair(8, 0));
    let again = VarRecord::from_parts(alloc, 4, &record.to_parts(alloc)?)?;
    check_same(&rt, alloc, &again, &record)
}

#[test]
fn two_writes_of_one_stamp_end_one_period(rt: HostRuntime) -> Result<(), Fail> {
    let alloc = rt.alloc();
    let mut record = VarRecord::new(alloc, 0, pair(0, 0))?;
    tell(alloc, &mut record, &Told::Put((0, 2), (3, 0), add(1)))?;
    tell(alloc, &mut record, &Told::Put((0, 1), (3, 0), set(5)))?;
    let periods = record.periods_from(alloc, None)?;
    let want = [period(None, Some((3, 0)), 0), period(Some((3, 0)), None, 6)];
    assert_eq!(rt; periods.as_slice(), want.as_slice());
    Ok(())
}

#[test]
fn thousand_periods(rt: HostRuntime) -> Result<(), Fail> {
    let alloc = rt.alloc();
    let mut record = VarRecord::new(alloc, 0, pair(0, 0))?;
    for k in 0u32..1000 {
        let n = k as u64;
        let gives = tell(
            alloc,
            &mut record,
            &Told::Put((0, n), (2 * n, 0), set(k as i64)),
        )?;
        assert_eq!(rt; gives.len(), 0);
        let watch = Told::Watch((1, n), (2 * n + 1, 1), Window::whole());
        let gives = tell(alloc, &mut record, &watch)?;
        assert_eq!(rt; gives.len(), 1);
        for give in gives.as_slice() {
            assert_eq!(rt; given(give), hit(1, n, 1, k as i64));
        }
    }
    let gives = tell(alloc, &mut record, &Told::Cut((0, 500), (1000, 0)))?;
    assert_eq!(rt; gives.len(), 1);
    for give in gives.as_slice() {
        assert_eq!(rt; given(give), hit(1, 500, 2, 499));
    }
    let held = record.held();
    assert_eq!(rt; held.len(), 1000);
    for (k, h) in held.iter().enumerate() {
        let k = k as u64;
        let put = h.put.map(|p| p.num.seq);
        let reads = h.reads.as_slice();
        if k == 0 {
            assert_eq!(rt; put, None);
            assert_eq!(rt; reads.len(), 0);
        } else if k == 500 {
            assert_eq!(rt; put, Some(499));
            assert_eq!(rt; reads.len(), 2);
            assert_eq!(rt; h.reads.get(0).map(|q| q.num.seq), Some(499));
            assert_eq!(rt; h.reads.get(1).map(|q| q.num.seq), Some(500));
        } else {
            let n = if k < 500 { k - 1 } else { k };
            assert_eq!(rt; put, Some(n));
            assert_eq!(rt; reads.len(), 1);
            assert_eq!(rt; h.reads.get(0).map(|q| q.num.seq), Some(n));
        }
    }
    Ok(())
}

// The worked record's parts without its cut, with puts out of order and one number twice.
fn disordered(alloc: Global) -> Result<Parts, Fail> {
    let mut parts = worked(alloc)?.to_parts(alloc)?;
    parts.cuts.clear();
    parts.puts.clear();
    parts.puts.push(put((0, 2), (9, 0), set(3)))?;
    parts.puts.push(put((0, 1), (4, 0), set(2)))?;
    parts.puts.push(put((0, 1), (2, 0), set(1)))?;
    Ok(parts)
}

#[test]
fn disordered_parts_settle(rt: HostRuntime) -> Result<(), Fail> {
    let alloc = rt.alloc();
    let record = VarRecord::from_parts(alloc, 4, &disordered(alloc)?)?;
    let parts = record.into_parts(alloc)?;
    let puts = [put((0, 1), (2, 0), set(1)), put((0, 2), (9, 0), set(3))];
    assert_eq!(rt; parts.puts.as_slice(), puts.as_slice());
    let turns = [3, 0];
    for (read, turn) in parts.reads.as_slice().iter().zip(turns.iter()) {
        assert_eq!(rt; read.turn, *turn);
        assert_eq!(rt; read.hit, Some(pair(1, 0)));
    }
    assert_eq!(rt; parts.reads.len(), 2);
    Ok(())
}
