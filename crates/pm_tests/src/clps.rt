// A communication process by its Rust calls, one message after another. What is awaited of it is worked out by hand
// from the table in docs/CORE.md.

ghost use Rattle.std.specs.Prelude.{◌≡◌, ◌<◌, ◌^◌, length, IfOk};
ghost use Rattle.pm_base.specs.Layouts.{IsLayout, var_count};

use pm_base::{
    Change, ClassRow, CutRow, GiveRow, Layout, Line, List, Memory, Num, Parts, PutRow, Query,
    ReadRow, Stamp, Value, Window,
};
use pm_clp::{Clp, ClpParts, Sent};
use pm_message::Message;
use pm_routes::Way;
use std::alloc::Global;
use std::test::Fail;

// The tree ports. Agent 1 is behind the left one, agent 2 behind the right one.
const LEFT: u32 = 2;

const RIGHT: u32 = 7;

// Agent 0, whose home is here.
const OWN: u32 = 9;

fn at(time: u64, agent: u32) -> Stamp {
    Stamp { time, agent }
}

fn value(x: i64) -> Value {
    Value { x, y: 0 }
}

fn across(x0: i64, x1: i64) -> Window {
    Window {
        x0,
        x1,
        y0: 0,
        y1: 0,
    }
}

// A message as it is written down here: all that it carries. The record that a Move brings has no cuts.
#[derive(Clone, Copy)]
enum Note<'a> {
    Ask {
        num: Num,
        stamp: Stamp,
        query: Query,
    },
    Put {
        row: PutRow,
    },
    Cut {
        row: CutRow,
    },
    Give {
        row: GiveRow,
    },
    Finish {
        num: Num,
        stamp: Stamp,
    },
    Grow {
        from: Stamp,
        until: Option<Stamp>,
        window: Window,
    },
    Move {
        floor: Stamp,
        base: i64,
        puts: &'a [PutRow],
        reads: &'a [ReadRow],
    },
}

// Agent 0 has one number for each time, the other agents one for each message.
fn own(time: u64) -> Num {
    Num {
        agent: 0,
        seq: time,
    }
}

// Agent 0 reads variable 0.
fn read(time: u64) -> Note<'static> {
    Note::Ask {
        num: own(time),
        stamp: at(time, 0),
        query: Query::One { var: 0 },
    }
}

// Agent 0 asks for a class.
fn scan_of(time: u64, class: u32, window: Window) -> Note<'static> {
    Note::Ask {
        num: own(time),
        stamp: at(time, 0),
        query: Query::Class { class, window },
    }
}

// And for class 0.
fn scan(time: u64, window: Window) -> Note<'static> {
    scan_of(time, 0, window)
}

// Its query is done.
fn done(time: u64) -> Note<'static> {
    Note::Finish {
        num: own(time),
        stamp: at(time, 0),
    }
}

// A query of agent 1, which comes from the left port.
fn left_scan() -> Note<'static> {
    Note::Ask {
        num: Num { agent: 1, seq: 9 },
        stamp: at(9, 1),
        query: Query::Class {
            class: 0,
            window: Window::whole(),
        },
    }
}

// It is done.
fn left_done() -> Note<'static> {
    Note::Finish {
        num: Num { agent: 1, seq: 9 },
        stamp: at(9, 1),
    }
}

fn write_of(agent: u32, seq: u64, time: u64, x: i64) -> PutRow {
    PutRow {
        num: Num { agent, seq },
        stamp: at(time, agent),
        change: Change::Set(value(x)),
    }
}

// A write of variable 0 by that agent.
fn put(agent: u32, seq: u64, time: u64, x: i64) -> Note<'static> {
    Note::Put {
        row: write_of(agent, seq, time, x),
    }
}

// Its withdrawal.
fn cut(agent: u32, seq: u64, time: u64) -> Note<'static> {
    Note::Cut {
        row: CutRow {
            num: Num { agent, seq },
            stamp: at(time, agent),
        },
    }
}

// A hit of variable 0 for agent 0, or that there is none any more, to its home.
fn give_of(time: u64, turn: u64, hit: Option<Value>) -> (u32, Note<'static>) {
    let row = GiveRow {
        num: own(time),
        stamp: at(time, 0),
        var: 0,
        turn,
        hit,
    };
    (OWN, Note::Give { row })
}

fn give(time: u64, turn: u64, x: i64) -> (u32, Note<'static>) {
    give_of(time, turn, Some(value(x)))
}

// After the one stamp and up to the other a variable of class 0 may be x.
fn grow(from: Stamp, until: Option<Stamp>, x: i64) -> Note<'static> {
    Note::Grow {
        from,
        until,
        window: Window::point(value(x)),
    }
}

// Each neighbour is told so.
fn to_both(from: Stamp, until: Option<Stamp>, x: i64) -> [(u32, Note<'static>); 2] {
    let told = grow(from, until, x);
    [(LEFT, told), (RIGHT, told)]
}

// The query of agent 0 at time 9 has another hit, and each neighbour is told what the variable is from that stamp on.
fn changed(turn: u64, from: Stamp, x: i64) -> [(u32, Note<'static>); 3] {
    let told = grow(from, None, x);
    [give(9, turn, x), (LEFT, told), (RIGHT, told)]
}

// The whole query of agent 0 at time 9, in the record of variable 0.
fn query_row(turn: u64, x: i64) -> ReadRow {
    ReadRow {
        num: own(9),
        stamp: at(9, 0),
        window: Window::whole(),
        turn,
        hit: Some(value(x)),
    }
}

// The record of variable 0, which received these.
fn moved<'a>(floor: Stamp, base: i64, puts: &'a [PutRow], reads: &'a [ReadRow]) -> Note<'a> {
    Note::Move {
        floor,
        base,
        puts,
        reads,
    }
}

fn parts_of(alloc: Global, base: i64, puts: &[PutRow], reads: &[ReadRow]) -> Result<Parts, Memory> {
    Ok(Parts {
        base: value(base),
        puts: List::from_vec(Vec::from_slice(alloc, puts)?),
        cuts: List::new(alloc),
        reads: List::from_vec(Vec::from_slice(alloc, reads)?),
    })
}

// The message that is written down so.
fn message_of(alloc: Global, note: Note<'_>) -> Result<Message, Memory> {
    Ok(match note {
        Note::Ask { num, stamp, query } => Message::Ask { num, stamp, query },
        Note::Put { row } => Message::Put {
            num: row.num,
            stamp: row.stamp,
            var: 0,
            change: row.change,
        },
        Note::Cut { row } => Message::Cut {
            num: row.num,
            stamp: row.stamp,
            var: 0,
        },
        Note::Give { row } => Message::Give { row },
        Note::Finish { num, stamp } => Message::Finish { num, stamp },
        Note::Grow {
            from,
            until,
            window,
        } => Message::Grow {
            class: 0,
            from,
            until,
            window,
        },
        Note::Move {
            floor,
            base,
            puts,
            reads,
        } => Message::Move {
            var: 0,
            floor,
            parts: parts_of(alloc, base, puts, reads)?,
        },
    })
}

// Class 0 has so many variables, and class 1 has none.
fn layout(alloc: Global, count: u32) -> Result<Layout, Memory>
    ensures layout { IfOk result (λ layout. IsLayout layout) }
    ensures count { IfOk result (λ layout. var_count layout.classes ≡ count) }
{
    let mut classes = List::new(alloc);
    classes.push(ClassRow { first: 0, count })?;
    classes.push(ClassRow {
        first: count,
        count: 0,
    })?;
    Ok(Layout { classes })
}

fn list_of(alloc: Global, numbers: &[u32]) -> Result<List<u32>, Memory> {
    Ok(List::from_vec(Vec::from_slice(alloc, numbers)?))
}

// The process whose variables are these ways, each 0 at first.
fn first_clp(alloc: Global, ways: &[Way], move_after: u64) -> Result<Clp, Memory>
    requires { length ways.now < 2 ^ 32 }
{
    let values = vec![in alloc; value(0); ways.len()]?;
    let parts = ClpParts {
        ports: list_of(alloc, &[LEFT, RIGHT])?,
        to_agents: list_of(alloc, &[OWN, LEFT, RIGHT])?,
        ways: List::from_vec(Vec::from_slice(alloc, ways)?),
        layout: layout(alloc, ways.len() as u32)?,
        values: List::from_vec(values),
        move_after,
    };
    Clp::first(alloc, parts)
}

// The query or the read that a message asks.
fn asked(message: &Message) -> Option<(Num, Stamp, Query)> {
    match message {
        Message::Ask { num, stamp, query } => Some((*num, *stamp, *query)),
        _ => None,
    }
}

// The write that it brings, and its variable.
fn written(message: &Message) -> Option<(PutRow, u32)> {
    match message {
        Message::Put {
            num,
            stamp,
            var,
            change,
        } => {
            let row = PutRow {
                num: *num,
                stamp: *stamp,
                change: *change,
            };
            Some((row, *var))
        }
        _ => None,
    }
}

// What it takes back.
fn withdrawn(message: &Message) -> Option<(CutRow, u32)> {
    match message {
        Message::Cut { num, stamp, var } => {
            let row = CutRow {
                num: *num,
                stamp: *stamp,
            };
            Some((row, *var))
        }
        _ => None,
    }
}

// The hit that it gives.
fn given(message: &Message) -> Option<GiveRow> {
    match message {
        Message::Give { row } => Some(*row),
        _ => None,
    }
}

// The query that it ends.
fn finished(message: &Message) -> Option<(Num, Stamp)> {
    match message {
        Message::Finish { num, stamp } => Some((*num, *stamp)),
        _ => None,
    }
}

// What it tells of values.
fn told(message: &Message) -> Option<(u32, Stamp, Option<Stamp>, Window)> {
    match message {
        Message::Grow {
            class,
            from,
            until,
            window,
        } => Some((*class, *from, *until, *window)),
        _ => None,
    }
}

// Whether it moves variable 0 with these rows.
fn moves(message: &Message, line: Stamp, base: i64, puts: &[PutRow], reads: &[ReadRow]) -> bool {
    match message {
        Message::Move { var, floor, parts } => {
            *var == 0
                && *floor == line
                && parts.base == value(base)
                && parts.puts.as_slice() == puts
                && parts.cuts.len() == 0
                && parts.reads.as_slice() == reads
        }
        _ => false,
    }
}

// Whether the message is written down so.
fn is_so(message: &Message, note: Note<'_>) -> bool {
    match note {
        Note::Ask { num, stamp, query } => asked(message) == Some((num, stamp, query)),
        Note::Put { row } => written(message) == Some((row, 0)),
        Note::Cut { row } => withdrawn(message) == Some((row, 0)),
        Note::Give { row } => given(message) == Some(row),
        Note::Finish { num, stamp } => finished(message) == Some((num, stamp)),
        Note::Grow {
            from,
            until,
            window,
        } => told(message) == Some((0, from, until, window)),
        Note::Move {
            floor,
            base,
            puts,
            reads,
        } => moves(message, floor, base, puts, reads),
    }
}

fn are_so(sent: &[Sent], wanted: &[(u32, Note<'_>)]) -> bool {
    for (place, one) in sent.iter().enumerate() {
        match wanted.get(place) {
            Some((to, note)) if one.to == *to && is_so(&one.message, *note) => {}
            _ => return false,
        }
    }
    sent.len() == wanted.len()
}

// A process under test: where its memory comes from, how many steps were made, the first of them that went wrong, and
// whether memory was wanting.
#[derive(Drop)]
struct Trial {
    alloc: Global,
    clp: Clp,
    steps: u32,
    wrong: Option<u32>,
    wants: bool,
}

fn at_first(alloc: Global, ways: &[Way], move_after: u64) -> Result<Trial, Memory>
    requires { length ways.now < 2 ^ 32 }
{
    let clp = first_clp(alloc, ways, move_after)?;
    Ok(Trial {
        alloc,
        clp,
        steps: 0,
        wrong: None,
        wants: false,
    })
}

impl Trial {
    fn note(&mut self, is_right: bool) {
        self.steps = self.steps.saturating_add(1);
        if !is_right && self.wrong.is_none() {
            self.wrong = Some(self.steps);
        }
    }

    // What it sends at this message; none where it doesn't take it.
    fn delivered(&mut self, from: u32, note: Note<'_>) -> Result<Option<List<Sent>>, Memory> {
        let message = message_of(self.alloc, note)?;
        if !self.clp.takes(from, &message) {
            return Ok(None);
        }
        let mut out = List::new(self.alloc);
        self.clp.deliver(self.alloc, from, message, &mut out)?;
        Ok(Some(out))
    }

    // A step: at this message it sends exactly that, in order.
    fn sends(&mut self, from: u32, note: Note<'_>, wanted: &[(u32, Note<'_>)]) {
        match self.delivered(from, note) {
            Ok(Some(sent)) => self.note(are_so(sent.as_slice(), wanted)),
            Ok(None) => self.note(false),
            Err(Memory) => self.wants = true,
        }
    }

    // A step: it doesn't take this message.
    fn refuses(&mut self, from: u32, note: Note<'_>) {
        match self.delivered(from, note) {
            Ok(sent) => self.note(sent.is_none()),
            Err(Memory) => self.wants = true,
        }
    }

    // A step: a Commit.
    fn commits(&mut self, line: Line) {
        self.clp.commit(line);
        self.note(true);
    }

    // A step: it keeps so many rows and queries.
    fn keeps(&mut self, count: u64) {
        let kept = self.clp.kept();
        self.note(kept == count);
    }

    // A step: it made so many deliveries.
    fn has_made(&mut self, count: u64) {
        let made = self.clp.made();
        self.note(made == count);
    }

    // The first step that went wrong.
    fn end(self) -> Result<Option<u32>, Memory> {
        if self.wants {
            Err(Memory)
        } else {
            Ok(self.wrong)
        }
    }
}

// A write draws the record to where it comes from.
fn draws(clp: &mut Trial) {
    let all = Window::whole();
    let puts = [
        write_of(0, 2, 2, 3),
        write_of(1, 1, 3, 7),
        write_of(1, 2, 4, 8),
    ];
    let reads = [query_row(4, 8)];
    let record = moved(at(0, 0), 0, &puts, &reads);
    // no value stands behind a port, so the query is done at once
    clp.sends(OWN, scan(9, all), &[give(9, 1, 0), (OWN, done(9))]);
    // a write from the agent's home is counted, and draws nothing
    clp.sends(OWN, put(0, 2, 2, 3), &changed(2, at(2, 0), 3));
    // one from the left port isn't more than all others together
    clp.sends(LEFT, put(1, 1, 3, 7), &changed(3, at(3, 1), 7));
    // two are; the query, which wasn't sent there, catches up
    let [hit, left, right] = changed(4, at(4, 1), 8);
    let sent = [hit, left, right, (LEFT, record), (LEFT, scan(9, all))];
    clp.sends(LEFT, put(1, 2, 4, 8), &sent);
    // the query alone is left, for which no one waits
    clp.keeps(1);
    clp.sends(LEFT, done(9), &[]);
}

#[test]
fn a_write_draws_the_record_away(rt: HostRuntime) -> Result<(), Fail> {
    let mut clp = at_first(rt.alloc(), &[Way::Here], 1)?;
    draws(&mut clp);
    assert_eq!(rt; clp.end()?, None);
    Ok(())
}

// What comes for a record that has left.
fn goes_on(clp: &mut Trial) {
    let puts = [write_of(2, 1, 3, 7)];
    let record = moved(at(0, 0), 0, &puts, &[]);
    let [left, right] = to_both(at(3, 2), None, 7);
    clp.sends(RIGHT, put(2, 1, 3, 7), &[left, right, (RIGHT, record)]);
    // it goes on, and no one is told of anything
    clp.sends(OWN, put(0, 4, 4, 5), &[(RIGHT, put(0, 4, 4, 5))]);
    clp.sends(LEFT, cut(1, 1, 5), &[(RIGHT, cut(1, 1, 5))]);
    clp.sends(OWN, read(6), &[(RIGHT, read(6))]);
    // its values stand behind that port, each at its time
    let zero = across(0, 0);
    clp.sends(OWN, scan(3, zero), &[(RIGHT, scan(3, zero))]);
    clp.sends(OWN, scan(9, zero), &[(OWN, done(9))]);
    let seven = across(7, 7);
    clp.sends(OWN, scan(8, seven), &[(RIGHT, scan(8, seven))]);
}

#[test]
fn what_comes_after_the_record_left_goes_on(rt: HostRuntime) -> Result<(), Fail> {
    let mut clp = at_first(rt.alloc(), &[Way::Here], 1)?;
    goes_on(&mut clp);
    assert_eq!(rt; clp.end()?, None);
    Ok(())
}

// A record comes where queries are registered, and isn't taken a second time.
fn arrives(clp: &mut Trial) {
    let all = Window::whole();
    let puts = [write_of(1, 1, 1, 4)];
    let record = moved(at(0, 0), 0, &puts, &[]);
    clp.sends(OWN, scan(9, all), &[(LEFT, scan(9, all))]);
    clp.sends(OWN, scan(5, across(4, 6)), &[(OWN, done(5))]);
    clp.sends(OWN, scan(7, across(50, 60)), &[(OWN, done(7))]);
    // they watch it at once, in order of their stamps; one has no hit
    clp.sends(LEFT, record, &[give(5, 1, 4), give(9, 1, 4)]);
    clp.refuses(LEFT, record);
    clp.sends(LEFT, done(9), &[(OWN, done(9))]);
    // the port that it came from knows its values
    let right = (RIGHT, grow(at(6, 2), None, 4));
    clp.sends(RIGHT, put(2, 1, 6, 4), &[right]);
    clp.sends(RIGHT, put(2, 2, 8, 5), &changed(2, at(8, 2), 5));
}

#[test]
fn a_record_that_comes_meets_the_queries(rt: HostRuntime) -> Result<(), Fail> {
    let mut clp = at_first(rt.alloc(), &[Way::Port(LEFT)], 0)?;
    arrives(&mut clp);
    assert_eq!(rt; clp.end()?, None);
    Ok(())
}

// A query meets nothing behind a port at first.
fn catches_up(clp: &mut Trial) {
    let some = across(40, 60);
    clp.sends(OWN, scan(9, some), &[(OWN, done(9))]);
    // what begins at the query's own stamp is behind it
    let told = (RIGHT, grow(at(9, 0), None, 50));
    clp.sends(LEFT, grow(at(9, 0), None, 50), &[told]);
    // what ends there isn't
    let until = Some(at(9, 0));
    let told = (RIGHT, grow(at(3, 1), until, 50));
    let sent = [(LEFT, scan(9, some)), told];
    clp.sends(LEFT, grow(at(3, 1), until, 50), &sent);
    // once more it changes nothing, and so does what lies within what was told
    clp.sends(LEFT, grow(at(3, 1), until, 50), &[]);
    clp.sends(LEFT, grow(at(5, 0), Some(at(6, 0)), 20), &[]);
    // no process waits for a query that went out late
    clp.sends(LEFT, done(9), &[]);
    // what doesn't meet its window is told on alone
    let told = (LEFT, grow(at(3, 1), None, 70));
    clp.sends(RIGHT, grow(at(3, 1), None, 70), &[told]);
}

#[test]
fn a_grow_catches_queries_up(rt: HostRuntime) -> Result<(), Fail> {
    let mut clp = at_first(rt.alloc(), &[Way::Here], 0)?;
    catches_up(&mut clp);
    assert_eq!(rt; clp.end()?, None);
    Ok(())
}

// Values stand behind both ports.
fn finishes(clp: &mut Trial) {
    let all = Window::whole();
    let both = [(LEFT, scan(9, all)), (RIGHT, scan(9, all))];
    clp.sends(OWN, scan(9, all), &both);
    // asked again, also from elsewhere, it does nothing
    clp.sends(OWN, scan(9, all), &[]);
    clp.sends(RIGHT, scan(9, all), &[]);
    clp.sends(RIGHT, done(9), &[]);
    clp.sends(RIGHT, done(9), &[]);
    clp.sends(LEFT, done(9), &[(OWN, done(9))]);
    // one that comes from a port goes to the other, and its end goes back
    clp.sends(LEFT, left_scan(), &[(RIGHT, left_scan())]);
    clp.sends(RIGHT, left_done(), &[(LEFT, left_done())]);
    clp.keeps(2);
    clp.has_made(8);
}

#[test]
fn a_query_is_done_with_its_last_port(rt: HostRuntime) -> Result<(), Fail> {
    let mut clp = at_first(rt.alloc(), &[Way::Port(LEFT), Way::Port(RIGHT)], 0)?;
    finishes(&mut clp);
    assert_eq!(rt; clp.end()?, None);
    Ok(())
}

// A class without members, an inverted window, and one that the value isn't in.
fn hits_nothing(clp: &mut Trial) {
    clp.sends(OWN, scan_of(7, 1, Window::whole()), &[(OWN, done(7))]);
    clp.sends(OWN, scan(8, across(5, 1)), &[(OWN, done(8))]);
    clp.sends(OWN, scan(6, across(1, 5)), &[(OWN, done(6))]);
    // once the value is in it there is a hit, and then none any more
    let [left, right] = to_both(at(3, 1), None, 3);
    clp.sends(LEFT, put(1, 1, 3, 3), &[give(6, 1, 3), left, right]);
    clp.sends(LEFT, cut(1, 1, 3), &[give_of(6, 2, None)]);
}

#[test]
fn queries_that_hit_nothing(rt: HostRuntime) -> Result<(), Fail> {
    let mut clp = at_first(rt.alloc(), &[Way::Here], 0)?;
    hits_nothing(&mut clp);
    assert_eq!(rt; clp.end()?, None);
    Ok(())
}

#[test]
fn an_inverted_window_goes_nowhere(rt: HostRuntime) -> Result<(), Fail> {
    let mut clp = at_first(rt.alloc(), &[Way::Port(LEFT)], 0)?;
    clp.sends(OWN, scan(8, across(1, -1)), &[(OWN, done(8))]);
    assert_eq!(rt; clp.end()?, None);
    Ok(())
}

// A read, and then a put with its withdrawal. The read, the put and the cut are kept until a Commit.
fn put_first(clp: &mut Trial) {
    clp.sends(OWN, read(9), &[give(9, 1, 0)]);
    clp.sends(LEFT, put(1, 1, 3, 7), &changed(2, at(3, 1), 7));
    // each neighbour knows 0 already
    clp.sends(LEFT, cut(1, 1, 3), &[give(9, 3, 0)]);
    clp.keeps(3);
}

fn cut_first(clp: &mut Trial) {
    clp.sends(OWN, read(9), &[give(9, 1, 0)]);
    clp.sends(LEFT, cut(1, 1, 3), &[]);
    clp.sends(LEFT, put(1, 1, 3, 7), &[]);
    clp.keeps(3);
    clp.commits(Line::End);
    clp.keeps(0);
}

#[test]
fn a_put_and_then_its_withdrawal(rt: HostRuntime) -> Result<(), Fail> {
    let mut clp = at_first(rt.alloc(), &[Way::Here], 0)?;
    put_first(&mut clp);
    assert_eq!(rt; clp.end()?, None);
    Ok(())
}

#[test]
fn a_withdrawal_and_then_its_put(rt: HostRuntime) -> Result<(), Fail> {
    let mut clp = at_first(rt.alloc(), &[Way::Here], 0)?;
    cut_first(&mut clp);
    assert_eq!(rt; clp.end()?, None);
    Ok(())
}

// Writes about the stamp of a read.
fn sees_below(clp: &mut Trial) {
    clp.sends(OWN, read(9), &[give(9, 1, 0)]);
    // one at its own stamp, and one just above it, change no hit
    clp.sends(OWN, put(0, 10, 9, 8), &to_both(at(9, 0), None, 8));
    clp.sends(LEFT, put(1, 1, 9, 12), &to_both(at(9, 1), None, 12));
    // one below it does, up to where the next begins
    let until = Some(at(9, 0));
    let [left, right] = to_both(at(8, 2), until, 20);
    clp.sends(RIGHT, put(2, 1, 8, 20), &[give(9, 2, 20), left, right]);
    // an earlier one is overwritten, until the later one is withdrawn
    let sent = to_both(at(7, 1), Some(at(8, 2)), -5);
    clp.sends(LEFT, put(1, 2, 7, -5), &sent);
    let [left, right] = to_both(at(8, 2), until, -5);
    clp.sends(RIGHT, cut(2, 1, 8), &[give(9, 3, -5), left, right]);
}

#[test]
fn a_read_sees_what_is_below_its_stamp(rt: HostRuntime) -> Result<(), Fail> {
    let mut clp = at_first(rt.alloc(), &[Way::Here], 0)?;
    sees_below(&mut clp);
    assert_eq!(rt; clp.end()?, None);
    Ok(())
}

// Writes in a class query's window about its stamp.
fn meets_below(clp: &mut Trial) {
    clp.sends(OWN, scan(9, across(1, 30)), &[(OWN, done(9))]);
    // one at its own stamp, and one just above it, are no hits
    clp.sends(OWN, put(0, 10, 9, 8), &to_both(at(9, 0), None, 8));
    clp.sends(LEFT, put(1, 1, 9, 12), &to_both(at(9, 1), None, 12));
    // one below it is, until it is withdrawn
    let until = Some(at(9, 0));
    let [left, right] = to_both(at(8, 2), until, 20);
    clp.sends(RIGHT, put(2, 1, 8, 20), &[give(9, 1, 20), left, right]);
    clp.sends(RIGHT, cut(2, 1, 8), &[give_of(9, 2, None)]);
}

#[test]
fn a_query_sees_what_is_below_its_stamp(rt: HostRuntime) -> Result<(), Fail> {
    let mut clp = at_first(rt.alloc(), &[Way::Here], 0)?;
    meets_below(&mut clp);
    assert_eq!(rt; clp.end()?, None);
    Ok(())
}

// Two queries with a read each, and a put; a query with its read is left.
fn forgets(clp: &mut Trial) {
    let all = Window::whole();
    clp.sends(OWN, scan(5, all), &[give(5, 1, 0), (OWN, done(5))]);
    clp.sends(OWN, scan(9, all), &[give(9, 1, 0), (OWN, done(9))]);
    let [hit, left, right] = changed(2, at(2, 0), 7);
    clp.sends(OWN, put(0, 2, 2, 7), &[give(5, 2, 7), hit, left, right]);
    clp.keeps(5);
    clp.commits(Line::At(at(5, 1)));
    clp.keeps(2);
}

// What is below the line comes no more, what is at it does. The record leaves with the value at the line, above which
// its rows stand.
fn leaves_above(clp: &mut Trial) {
    let puts = [write_of(1, 1, 5, 9), write_of(1, 2, 6, 11)];
    let reads = [query_row(4, 11)];
    let record = moved(at(5, 1), 7, &puts, &reads);
    clp.refuses(RIGHT, put(2, 1, 4, 1));
    clp.sends(LEFT, put(1, 1, 5, 9), &changed(3, at(5, 1), 9));
    let [hit, left, right] = changed(4, at(6, 1), 11);
    let query = (LEFT, scan(9, Window::whole()));
    let sent = [hit, left, right, (LEFT, record), query];
    clp.sends(LEFT, put(1, 2, 6, 11), &sent);
}

#[test]
fn a_commit_forgets_what_is_below_its_line(rt: HostRuntime) -> Result<(), Fail> {
    let mut clp = at_first(rt.alloc(), &[Way::Here], 1)?;
    forgets(&mut clp);
    leaves_above(&mut clp);
    assert_eq!(rt; clp.end()?, None);
    Ok(())
}
