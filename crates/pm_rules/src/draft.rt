ghost use Rattle.std.specs.Prelude.{◌≡◌, ◌&&◌, ◌||◌, List as Seq, ℕ, IfOk, length};
ghost use Rattle.pm_base.specs.Fits.{has_name, reg_names, sense_names};
ghost use Rattle.pm_rules.specs.Rules.{empty, is_empty, is_begun, is_out_of_order, last_frame, takes_else, is_unmatched, is_one_too_many, is_declared, is_twice, fault_of, opened, turned, whole_if, ended, with_said};

use crate::fault::RuleFault;
use crate::said::Said;
use pm_base::{Expr, List, Memory, RegRow, SenseRow, Stmt};
use std::alloc::Global;

/// An open `if`: its test, its first list where its `else` came already, and the list that it stands in.
#[derive(Debug, Drop)]
pub struct Frame {
    pub test: Expr,
    pub first: Option<List<Stmt>>,
    pub outer: List<Stmt>,
}

/// What the lines say so far. `body` is the innermost list that is open.
#[derive(Debug, Drop)]
pub struct Draft {
    pub regs: List<RegRow>,
    pub senses: List<SenseRow>,
    pub frames: List<Frame>,
    pub body: List<Stmt>,
}

/// What no line says yet.
pub fn empty(alloc: Global) -> Draft
    ensures { result ≡ empty }
{
    Draft {
        regs: List::new(alloc),
        senses: List::new(alloc),
        frames: List::new(alloc),
        body: List::new(alloc),
    }
}

pub fn is_empty<T>(items: &List<T>) -> bool
    ensures { result ≡ is_empty items.now }
{
    match items.as_slice() {
        [] => true,
        _ => false,
    }
}

fn is_begun(draft: &Draft) -> bool
    ensures { result ≡ is_begun draft.now }
{
    !(is_empty(&draft.frames) && is_empty(&draft.body))
}

fn is_out_of_order(draft: &Draft, said: &Said) -> bool
    ensures { result ≡ is_out_of_order draft.now said.now }
{
    match said {
        Said::Reg { .. } => !is_empty(&draft.senses) || is_begun(draft),
        Said::Sense { .. } => is_begun(draft),
        _ => false,
    }
}

/// Whether an `if` is open, and its `else` has not come.
fn takes_else(frames: &[Frame]) -> bool
    ensures { result ≡ takes_else (last_frame frames.now) }
{
    match frames {
        [.., last] => last.first.is_none(),
        [] => false,
    }
}

fn is_unmatched(draft: &Draft, said: &Said) -> bool
    ensures { result ≡ is_unmatched draft.now said.now }
{
    match said {
        Said::If(_) => draft.frames.len() >= 8,
        Said::Else => !takes_else(draft.frames.as_slice()),
        Said::End => is_empty(&draft.frames),
        _ => false,
    }
}

fn is_one_too_many(draft: &Draft, said: &Said) -> bool
    ensures { result ≡ is_one_too_many draft.now said.now }
{
    match said {
        Said::Reg { .. } => draft.regs.len() >= 16,
        Said::Sense { .. } => draft.senses.len() >= 16,
        _ => false,
    }
}

fn is_reg(regs: &[RegRow], name: &str) -> bool
    ensures { result ≡ has_name name.now (reg_names regs.now) }
{
    for row in regs {
        if row.name.as_str() == name {
            return true;
        }
    }
    false
}

fn is_sense(senses: &[SenseRow], name: &str) -> bool
    ensures { result ≡ has_name name.now (sense_names senses.now) }
{
    for row in senses {
        if row.name.as_str() == name {
            return true;
        }
    }
    false
}

fn is_declared(draft: &Draft, name: &str) -> bool
    ensures { result ≡ is_declared draft.now name.now }
{
    is_reg(draft.regs.as_slice(), name) || is_sense(draft.senses.as_slice(), name)
}

fn is_twice(draft: &Draft, said: &Said) -> bool
    ensures { result ≡ is_twice draft.now said.now }
{
    match said {
        Said::Reg { name, .. } => is_declared(draft, name.as_str()),
        Said::Sense { name, .. } => is_declared(draft, name.as_str()),
        _ => false,
    }
}

/// The first fault of a statement, which says whether all the names that it uses are known.
#[tactic(auto, unfolding(crate::specs::Rules::fault_of))]
pub fn fault_of(line: u64, draft: &Draft, said: &Said, known: bool) -> Option<RuleFault>
    ensures { result ≡ fault_of line draft.now (said.now, known) }
{
    if is_out_of_order(draft, said) {
        Some(RuleFault::Order { line })
    } else if is_unmatched(draft, said) {
        Some(RuleFault::Nesting { line })
    } else if is_one_too_many(draft, said) {
        Some(RuleFault::TooLong { line })
    } else if is_twice(draft, said) {
        Some(RuleFault::Twice { line })
    } else if !known {
        Some(RuleFault::Unknown { line })
    } else {
        None
    }
}

/// The frames before the last one, and the last one.
fn last_frame(frames: List<Frame>) -> Option<(List<Frame>, Frame)>
    ensures { result ≡ last_frame frames }
{
    let mut frames = frames.into_vec();
    let last = frames.pop()?;
    Some((List::from_vec(frames), last))
}

fn opened(alloc: Global, test: Expr, draft: Draft) -> Result<Draft, Memory>
    ensures { IfOk result (λ d. d ≡ opened test draft) }
{
    let Draft {
        regs,
        senses,
        frames,
        body,
    } = draft;
    let mut frames = frames;
    frames.push(Frame {
        test,
        first: None,
        outer: body,
    })?;
    let body = List::new(alloc);
    Ok(Draft {
        regs,
        senses,
        frames,
        body,
    })
}

fn turned(alloc: Global, draft: Draft) -> Result<Draft, Memory>
    ensures { IfOk result (λ d. d ≡ turned (last_frame draft.frames) draft) }
{
    let Draft {
        regs,
        senses,
        frames,
        body,
    } = draft;
    let Some((frames, last)) = last_frame(frames) else {
        let frames = List::new(alloc);
        return Ok(Draft {
            regs,
            senses,
            frames,
            body,
        });
    };
    let mut frames = frames;
    frames.push(Frame {
        test: last.test,
        first: Some(body),
        outer: last.outer,
    })?;
    let body = List::new(alloc);
    Ok(Draft {
        regs,
        senses,
        frames,
        body,
    })
}

fn whole_if(alloc: Global, test: Expr, first: Option<List<Stmt>>, body: List<Stmt>) -> Stmt
    ensures { result ≡ whole_if test first body }
{
    match first {
        None => Stmt::If {
            test,
            first: body,
            second: List::new(alloc),
        },
        Some(first) => Stmt::If {
            test,
            first,
            second: body,
        },
    }
}

fn ended(alloc: Global, draft: Draft) -> Result<Draft, Memory>
    ensures { IfOk result (λ d. d ≡ ended (last_frame draft.frames) draft) }
{
    let Draft {
        regs,
        senses,
        frames,
        body,
    } = draft;
    let Some((frames, last)) = last_frame(frames) else {
        let frames = List::new(alloc);
        return Ok(Draft {
            regs,
            senses,
            frames,
            body,
        });
    };
    let Frame { test, first, outer } = last;
    let stmt = whole_if(alloc, test, first, body);
    let mut body = outer;
    body.push(stmt)?;
    Ok(Draft {
        regs,
        senses,
        frames,
        body,
    })
}

/// One more statement.
#[tactic(auto, unfolding(crate::specs::Rules::with_said))]
pub fn with_said(alloc: Global, said: Said, draft: Draft) -> Result<Draft, Memory>
    ensures { IfOk result (λ d. d ≡ with_said said draft) }
{
    let mut draft = draft;
    match said {
        Said::Reg { name, start } => draft.regs.push(RegRow { name, start })?,
        Said::Sense { name, sense } => draft.senses.push(SenseRow { name, sense })?,
        Said::Does(stmt) => draft.body.push(stmt)?,
        Said::If(test) => return opened(alloc, test, draft),
        Said::Else => return turned(alloc, draft),
        Said::End => return ended(alloc, draft),
    }
    Ok(draft)
}
