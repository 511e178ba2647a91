// The ports of one query.
ghost use Rattle.std.specs.Prelude.{◌≡◌, ◌++◌, [], ◌∷◌, if◌then◌else◌, IfOk, OnOk, OnErr};
ghost use Rattle.std.specs.Option.{option_to_list};
ghost use Rattle.pm_queries.specs.Queries.{HasGrown, asks_at, catches_by, caught_by, finish_if, has, without};
ghost use Rattle.pm_tables.specs.Tables.{known_in};

use crate::registered::{Registered, Sent};
use pm_base::{List, Memory, Query};
use pm_message::Message;
use pm_tables::Table;
use std::alloc::Global;
use std::mem;

pub fn has(port: u32, ports: &List<u32>) -> bool
    ensures { result ≡ has port ports.now }
{
    for p in ports.as_slice() {
        if *p == port {
            return true;
        }
    }
    false
}

fn without(port: u32, ports: List<u32>) -> List<u32>
    ensures { result ≡ without port ports }
{
    let mut ports = ports.into_vec();
    ports.retain(|p| port != *p);
    List::from_vec(ports)
}

// The query waits for the port no more; the Finish that it sends where none is left.
pub fn take_off(alloc: Global, row: &mut Registered, port: u32) -> Option<Sent>
    ensures row { row.new ≡ (if has port row.old.waits then record row.old { waits = without port row.old.waits } else row.old) }
    ensures sent { option_to_list result ≡ (if has port row.old.waits then finish_if (without port row.old.waits) row.old else []) }
{
    if !has(port, &row.waits) {
        return None;
    }
    let waits = mem::replace(&mut row.waits, List::new(alloc));
    row.waits = without(port, waits);
    if row.waits.len() > 0 {
        return None;
    }
    Some(Sent {
        to: row.from,
        message: Message::Finish {
            num: row.num,
            stamp: row.stamp,
        },
    })
}

fn catches(row: &Registered, port: u32, class: u32, table: &Table, place: usize) -> bool
    ensures { result ≡ catches_by (known_in place class table.now) port class row.now }
{
    if row.class != class || row.from == port || has(port, &row.sent) {
        return false;
    }
    table.may_hold(place, class, row.stamp, &row.window)
}

fn ask_at(row: &Registered, port: u32) -> Sent
    ensures { result ∷ [] ≡ asks_at port (row.now ∷ []) }
{
    Sent {
        to: port,
        message: Message::Ask {
            num: row.num,
            stamp: row.stamp,
            query: Query::Class {
                class: row.class,
                window: row.window,
            },
        },
    }
}

// Catches the query up at the port, where it has to be. After `Memory` it is as it was.
pub fn catch_one(
    row: &mut Registered,
    port: u32,
    class: u32,
    table: &Table,
    place: usize,
    out: &mut List<Sent>,
) -> Result<(), Memory>
    ensures row { OnOk result (row.new ≡ caught_by (known_in place class table.now) port class row.old) }
    ensures out { OnOk result (out.new ≡ out.old ++
        (if catches_by (known_in place class table.now) port class row.old then asks_at port (row.old ∷ []) else [])) }
    ensures grown { HasGrown out.old out.new }
    ensures err { OnErr result (row.new ≡ row.old) }
{
    if !catches(row, port, class, table, place) {
        return Ok(());
    }
    out.push(ask_at(row, port))?;
    row.sent.push(port)?;
    Ok(())
}
