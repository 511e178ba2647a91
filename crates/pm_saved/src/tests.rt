ghost use Rattle.std.specs.Prelude.{◌≡◌};

use crate::{Saved, Spot};
use pm_base::{Act, Change, Hit, Line, List, Memory, Num, Query, Stamp, Value, Write};
use pm_message::Message;
use std::alloc::Global;
use std::process::Abort;
use std::test::Fail;

fn num(seq: u64) -> Num {
    Num { agent: 1, seq }
}

fn pair(x: i64) -> Value {
    Value { x, y: 0 }
}

// The step sets variable 1 to (7,0), under number (1,2).
fn act_now(alloc: Global, saved: &mut Saved) -> Result<(), Memory> {
    let answers: List<List<Hit>> = saved.answers(alloc)?;
    let mut nums = List::new(alloc);
    nums.push(num(2))?;
    let mut writes = List::new(alloc);
    let change = Change::Set(pair(7));
    writes.push(Write { var: 1, change })?;
    let regs = List::new(alloc);
    let wait = 1;
    saved.act(nums, answers, Act { writes, regs, wait });
    Ok(())
}

fn var_of_cut(message: Option<&Message>) -> Option<(u64, u64, u32)> {
    match message {
        Some(Message::Cut { num, stamp, var }) => Some((num.seq, stamp.time, *var)),
        _ => None,
    }
}

#[test]
fn a_step_is_taken_back(rt: HostRuntime) -> Result<(), Fail> {
    let alloc = rt.alloc();
    let stamp = Stamp { time: 0, agent: 1 };
    let at = Spot { step: 0, sense: 0 };
    let mut saved = Saved::new(alloc, List::new(alloc));
    saved.begin(alloc, stamp)?;
    let asked = Num { agent: 1, seq: 1 };
    saved.ask(alloc, asked, Query::One { var: 0 })?;
    assert_eq!(rt; saved.find(asked), Some(at));
    assert_eq!(rt; saved.find(num(2)), None);
    saved.keep(at, 0, 1, Some(pair(0)))?;
    saved.finish(at);
    act_now(alloc, &mut saved)?;
    assert_eq!(rt; saved.ready(Line::End), 1);
    let mut cuts = List::new(alloc);
    saved.withdrawn(at, &mut cuts)?;
    assert_eq!(rt; cuts.len(), 1);
    assert_eq!(rt; var_of_cut(cuts.get(0)), Some((2, 0, 1)));
    saved.cut_back(at);
    assert!(rt; !saved.acted());
    assert_eq!(rt; saved.ready(Line::End), 0);
    assert!(rt; saved.give_out(Line::End).is_none());
    assert_eq!(rt; saved.kept(), 1);
    Ok(())
}
