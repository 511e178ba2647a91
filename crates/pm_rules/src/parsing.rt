ghost use Rattle.std.specs.Prelude.{◌≡◌, true, ◌≢◌, ◌<◌, ◌+◌, ◌^◌, Ok, Err, IfOk, IfErr, Some, length, map};
ghost use Rattle.pm_base.specs.Fits.{fits};
ghost use Rattle.pm_base.specs.Layouts.{var_count};
ghost use Rattle.pm_rules.specs.Faults.{Reads};
ghost use Rattle.pm_rules.specs.Reading.{class_rows};
ghost use Rattle.pm_tokens.specs.Lines.{lines_of};
ghost use Rattle.pm_rules.specs.Rules.{empty, after_read, after_tokens, after_line, after_lines, finished, parsed};
ghost use Rattle.pm_tokens.specs.Tokens.{toks};
ghost use Rattle.pm_rules.specs.declared.fault.RuleFault.TheVariants as fault;

use crate::draft::{Draft, empty, fault_of, is_empty, with_said};
use crate::expression::Lent;
use crate::fault::RuleFault;
use crate::names::Names;
use crate::said::Said;
use crate::statements::statement;
use pm_base::Program;
use pm_tokens::{Stop, Token, code, lex, lines_of};
use std::alloc::Global;

/// After a statement, which says whether all the names that it uses are known.
fn after_said(
    alloc: Global,
    line: u64,
    said: Said,
    known: bool,
    draft: Draft,
) -> Result<Draft, RuleFault>
    ensures { Reads result (after_read line (Some (said, known)) draft) }
{
    if let Some(fault) = fault_of(line, &draft, &said, known) {
        return Err(fault);
    }
    Ok(with_said(alloc, said, draft)?)
}

/// After the tokens of a line, of which there are some.
fn after_tokens<'a>(
    alloc: Global,
    names: &Names<'_>,
    version: u32,
    line: u64,
    tokens: &[Token<'a>],
    draft: Draft,
) -> Result<Draft, RuleFault>
    ensures { Reads result (after_tokens names.now version line (Some (toks tokens.now)) draft) }
{
    if tokens.is_empty() {
        return Ok(draft);
    }
    if line > 200 || tokens.len() > 64 {
        return Err(RuleFault::TooLong { line });
    }
    let scope = Lent {
        names,
        regs: draft.regs.as_slice(),
        senses: draft.senses.as_slice(),
    };
    match statement(alloc, &scope, version, tokens) {
        Ok((said, known)) => after_said(alloc, line, said, known, draft),
        Err(Stop::Memory) => Err(RuleFault::Memory),
        Err(Stop::Word) => Err(RuleFault::Word { line }),
    }
}

/// After the line of that number.
#[tactic(auto, unfolding(crate::specs::Rules::after_line))]
fn after_line(
    alloc: Global,
    names: &Names<'_>,
    version: u32,
    line: u64,
    text: &[u8],
    draft: Draft,
) -> Result<Draft, RuleFault>
    ensures { Reads result (after_line names.now version line text.now draft) }
{
    match lex(alloc, code(text)) {
        Ok(tokens) => after_tokens(alloc, names, version, line, tokens.as_slice(), draft),
        Err(Stop::Memory) => Err(RuleFault::Memory),
        Err(Stop::Word) if line > 200 => Err(RuleFault::TooLong { line }),
        Err(Stop::Word) => Err(RuleFault::Word { line }),
    }
}

/// After all of the lines.
#[tactic(auto, unfolding(crate::specs::Rules::after_lines))]
fn after_lines(
    alloc: Global,
    names: &Names<'_>,
    version: u32,
    lines: &[&[u8]],
) -> Result<Draft, RuleFault>
    ensures { Reads result (after_lines names.now version 1 (map (λ l. l.now) lines.now) empty) }
{
    let mut draft = empty(alloc);
    for (i, text) in lines.iter().enumerate() {
        draft = after_line(alloc, names, version, i as u64 + 1, text, draft)?;
    }
    Ok(draft)
}

/// After the last line, which has the number before `line`.
#[tactic(auto, unfolding(crate::specs::Rules::finished))]
fn finished(line: u64, draft: Draft) -> Result<Program, RuleFault>
    ensures { Reads result (finished line draft) }
{
    if !is_empty(&draft.frames) {
        return Err(RuleFault::Nesting { line });
    }
    let Draft {
        regs,
        senses,
        body,
        ..
    } = draft;
    Ok(Program { regs, senses, body })
}

/// The program of a text, or its first fault.
#[tactic(auto, unfolding(crate::specs::Rules::parsed))]
fn parse_lines(
    alloc: Global,
    text: &str,
    names: &Names<'_>,
    version: u32,
) -> Result<Program, RuleFault>
    ensures tree { IfOk result (λ p. parsed names.now version text.now ≡ Ok p) }
    ensures fault { IfErr result (λ f. f ≢ fault.Memory → parsed names.now version text.now ≡ Err f) }
{
    let lines = lines_of(alloc, text.as_bytes())?;
    let draft = after_lines(alloc, names, version, lines.as_slice())?;
    finished(lines.len() as u64 + 1, draft)
}

/// The program of a rule's text in that version of the rule language, where the names stand for what is given.
///
/// # Errors
///
/// The first fault of the first faulty line, or `Memory`.
pub fn parse(
    alloc: Global,
    text: &str,
    names: &Names<'_>,
    version: u32,
) -> Result<Program, RuleFault>
    ensures tree { IfOk result (λ p. parsed names.now version text.now ≡ Ok p) }
    ensures fault { IfErr result (λ f. f ≢ fault.Memory → parsed names.now version text.now ≡ Err f) }
    ensures fits { length names.now.vars ≡ var_count (class_rows names.now) →
        IfOk result (λ p. fits p (record { classes = class_rows names.now }) ≡ true) }
{
    let program = parse_lines(alloc, text, names, version)?;
    Ok(program)
}
