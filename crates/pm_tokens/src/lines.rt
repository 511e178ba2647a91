ghost use Rattle.std.specs.Prelude.{◌≡◌, ◌<◌, ◌+◌, ◌≤◌, IfOk, length, map, take, drop};
ghost use Rattle.pm_tokens.specs.Lines.{lines_of, line_len, without_return, code_len, code};

use pm_base::Memory;
use std::alloc::Global;

fn line_len(text: &[u8]) -> usize
    ensures value { result ≡ line_len text.now }
    ensures within { result ≤ length text.now }
{
    for (i, b) in text.iter().enumerate() {
        if *b == b'\n' {
            return i;
        }
    }
    text.len()
}

/// The text before a place and after the byte there.
fn around(text: &[u8], at: usize) -> (&[u8], &[u8])
    requires { at < length text.now }
    ensures before { result.0.now ≡ take at text.now }
    ensures after { result.1.now ≡ drop (at + 1) text.now }
{
    (&text[..at], &text[at + 1..])
}

/// The lines of a text, without their line feeds.
pub fn lines_of<'a>(alloc: Global, text: &'a [u8]) -> Result<Vec<&'a [u8]>, Memory>
    ensures { IfOk result (λ v. map (λ l. l.now) v.items ≡ lines_of text.now) }
{
    let mut out = Vec::new(alloc);
    let mut rest = text;
    let mut len = line_len(rest);
    while len < rest.len() {
        let (line, after) = around(rest, len);
        out.push(line)?;
        rest = after;
        len = line_len(rest);
    }
    out.push(rest)?;
    Ok(out)
}

#[tactic(auto, unfolding(crate::specs::Lines::without_return))]
fn without_return(line: &[u8]) -> &[u8]
    ensures { result.now ≡ without_return line.now }
{
    match line {
        [rest @ .., b'\r'] => rest,
        _ => line,
    }
}

fn code_len(line: &[u8]) -> usize
    ensures value { result ≡ code_len line.now }
    ensures within { result ≤ length line.now }
{
    for (i, b) in line.iter().enumerate() {
        if *b == b'#' {
            return i;
        }
    }
    line.len()
}

/// What a line says: all before its comment, without a carriage return at its end.
#[tactic(auto, unfolding(crate::specs::Lines::code))]
pub fn code(line: &[u8]) -> &[u8]
    ensures { result.now ≡ code line.now }
{
    let told = without_return(line);
    &told[..code_len(told)]
}
