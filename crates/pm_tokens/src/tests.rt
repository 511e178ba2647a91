use crate::{Stop, Symbol, Token, code, lex, lines_of, name_of};
use pm_base::Memory;
use std::alloc::Global;
use std::test::Fail;

/// How many tokens a line has, none where some of its characters are no token.
fn count_of(alloc: Global, line: &str) -> Result<Option<usize>, Memory> {
    match lex(alloc, line.as_bytes()) {
        Ok(tokens) => Ok(Some(tokens.len())),
        Err(Stop::Word) => Ok(None),
        Err(Stop::Memory) => Err(Memory),
    }
}

fn is_name(token: &Token<'_>, word: &[u8]) -> bool {
    match token {
        Token::Name(name) => *name == word,
        _ => false,
    }
}

#[test]
fn a_line_is_cut_by_longest_match(rt: HostRuntime) -> Result<(), Fail> {
    let tokens = lex(rt.alloc(), b"a_1<=-9223372036854775808-b")?;
    match tokens.as_slice() {
        [a, at_most, least, minus, b] => {
            assert!(rt; is_name(a, b"a_1"));
            assert!(rt; matches!(at_most, Token::Symbol(Symbol::AtMost)));
            assert!(rt; matches!(least, Token::Number(i64::MIN)));
            assert!(rt; matches!(minus, Token::Symbol(Symbol::Minus)));
            assert!(rt; is_name(b, b"b"));
        }
        _ => assert!(rt; false, "five tokens"),
    }
    Ok(())
}

#[test]
fn tokens_are_counted_or_refused(rt: HostRuntime) -> Result<(), Fail> {
    let alloc = rt.alloc();
    let rows = [
        ("", 0),
        (" \t", 0),
        ("a.b", 3),
        ("===", 2),
        ("<=<", 2),
        ("(1 -1)", 4),
    ];
    for (line, count) in rows {
        assert!(rt; count_of(alloc, line)? == Some(count), "{line}");
    }
    for line in [
        "!",
        "A",
        "é",
        "0x",
        "9223372036854775808",
        "-9223372036854775809",
        "a\r",
    ] {
        assert!(rt; count_of(alloc, line)?.is_none(), "{line}");
    }
    Ok(())
}

#[test]
fn a_text_has_lines_and_a_line_has_code(rt: HostRuntime) -> Result<(), Fail> {
    let lines = lines_of(rt.alloc(), b"wait 1\r\n# all\n")?;
    match lines.as_slice() {
        [first, second, third] => {
            assert!(rt; code(first) == b"wait 1".as_slice());
            assert!(rt; code(second) == b"".as_slice());
            assert!(rt; code(third) == b"".as_slice());
        }
        _ => assert!(rt; false, "three lines"),
    }
    assert!(rt; name_of(b"a_1") == Some("a_1"));
    assert!(rt; name_of(b"1a").is_none());
    Ok(())
}
