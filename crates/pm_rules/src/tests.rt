use crate::{Names, RuleFault, parse};
use pm_base::{ClassRow, Expr, Field, List, Memory, Name, Op, Place, Program, Sense, Stmt};
use std::alloc::{AllocError, Global};
use std::test::Fail;

/// The program of a text, with the class `c` of `c0` and `c1`, a class without members, and the variables `twice`,
/// which stands twice, `now` and `min`.
fn read(alloc: Global, text: &str, version: u32) -> Result<Program, RuleFault> {
    let mut classes = List::new(alloc);
    classes.push((Name::make(alloc, "c")?, ClassRow { first: 0, count: 2 }))?;
    classes.push((Name::make(alloc, "none")?, ClassRow { first: 2, count: 0 }))?;
    let mut vars = List::new(alloc);
    vars.push(Name::make(alloc, "c0")?)?;
    vars.push(Name::make(alloc, "c1")?)?;
    vars.push(Name::make(alloc, "twice")?)?;
    vars.push(Name::make(alloc, "twice")?)?;
    vars.push(Name::make(alloc, "now")?)?;
    vars.push(Name::make(alloc, "min")?)?;
    let names = Names::make(alloc, &classes, &vars)?;
    parse(alloc, text, &names, version)
}

/// Why a text is no rule, none where it is one.
fn fault_of(alloc: Global, text: &str, version: u32) -> Result<Option<RuleFault>, Memory> {
    match read(alloc, text, version) {
        Ok(_) => Ok(None),
        Err(RuleFault::Memory) => Err(Memory),
        Err(fault) => Ok(Some(fault)),
    }
}

fn word(line: u64) -> Option<RuleFault> {
    Some(RuleFault::Word { line })
}

fn order(line: u64) -> Option<RuleFault> {
    Some(RuleFault::Order { line })
}

fn nesting(line: u64) -> Option<RuleFault> {
    Some(RuleFault::Nesting { line })
}

fn too_long(line: u64) -> Option<RuleFault> {
    Some(RuleFault::TooLong { line })
}

fn twice(line: u64) -> Option<RuleFault> {
    Some(RuleFault::Twice { line })
}

fn unknown(line: u64) -> Option<RuleFault> {
    Some(RuleFault::Unknown { line })
}

/// The first of these texts of version 1 that has another fault than it should.
fn mistold<'a>(
    alloc: Global,
    rows: &[(&'a str, Option<RuleFault>)],
) -> Result<Option<&'a str>, Memory> {
    for (text, want) in rows {
        if fault_of(alloc, text, 1)? != *want {
            return Ok(Some(text));
        }
    }
    Ok(None)
}

#[test]
fn lines_and_tokens_are_cut(rt: HostRuntime) -> Result<(), Fail> {
    let rows = [
        ("", None),
        ("\n\n", None),
        (" \t\n# a comment\n\r\n", None),
        ("# é", None),
        (
            "reg n 0\nread a=c0\nif(a.x<1)\nset c0=(n - 1),-2\nend\n",
            None,
        ),
        ("set c0 = (n -1), 0", word(1)),
        ("\twait\t1# a comment", None),
        ("wait 1\r\nwait 2\r\n", None),
        ("wait 1\r\r\n", word(1)),
        ("wait 1\r# a comment", word(1)),
        ("wait 1 é", word(1)),
        ("wait 1 A", word(1)),
        ("reg n 007", None),
        ("reg n 9223372036854775807", None),
        ("reg n 9223372036854775808", word(1)),
        ("reg n -9223372036854775808", None),
        ("reg n -9223372036854775809", word(1)),
        ("reg n - 1", word(1)),
        ("reg a123456789_123456789_123456789_1 0", None),
        ("reg a123456789_123456789_123456789_12 0", word(1)),
        ("wait 1a", word(1)),
        ("wait", word(1)),
        ("wait 1 1", word(1)),
        ("wait 1\nwait 1 1", word(2)),
    ];
    assert_eq!(rt; mistold(rt.alloc(), &rows)?, None);
    Ok(())
}

#[test]
fn words_and_expressions_are_read(rt: HostRuntime) -> Result<(), Fail> {
    let rows = [
        ("5", word(1)),
        ("give 1", word(1)),
        ("reg n", word(1)),
        ("reg now 0", word(1)),
        ("reg add 0", None),
        ("read max = c0", word(1)),
        ("else 1", word(1)),
        ("wait min", word(1)),
        ("wait set", word(1)),
        ("wait set.x", word(1)),
        ("wait (1 + 2", word(1)),
        ("wait (1 = 2)", word(1)),
        ("wait ((1 min 2) <= (now % me))", None),
    ];
    assert_eq!(rt; mistold(rt.alloc(), &rows)?, None);
    Ok(())
}

#[test]
fn places_and_windows_are_read(rt: HostRuntime) -> Result<(), Fail> {
    let rows = [
        ("set c0 = 1", word(1)),
        ("set c[1 = 1, 2", word(1)),
        ("set c[-1] = 1, 2", None),
        ("set none[0] = 1, 2", unknown(1)),
        ("set c0[0] = 1, 2", unknown(1)),
        ("set c = 1, 2", unknown(1)),
        ("set now = 1, 2", None),
        ("set me = 1, 2", unknown(1)),
        ("read s = min", None),
        ("read s = max", unknown(1)),
        ("read s = c[s.x]", unknown(1)),
        ("read s = c0\nread t = c[s.x]", None),
        ("scan s = none 0 1 0 1", None),
        ("scan s = c0 0 1 0 1", unknown(1)),
        ("scan s = c 0 1 0", word(1)),
    ];
    assert_eq!(rt; mistold(rt.alloc(), &rows)?, None);
    Ok(())
}

#[test]
fn names_stand_for_what_was_declared(rt: HostRuntime) -> Result<(), Fail> {
    let rows = [
        ("let now = 5", unknown(1)),
        ("let n = 5", unknown(1)),
        ("reg n 0\nlet n = (n + 1)", None),
        ("reg n 0\nwait n.x", unknown(2)),
        ("read s = c0\nwait s", unknown(2)),
        ("read s = c0\nlet s = 1", unknown(2)),
        ("read s = c0\nwait s.sx\nwait s.z", word(3)),
        ("add c0 = 1, 2", word(1)),
        ("\nadd c0 = 1, 2", word(2)),
    ];
    assert_eq!(rt; mistold(rt.alloc(), &rows)?, None);
    Ok(())
}

#[test]
fn the_first_fault_is_told(rt: HostRuntime) -> Result<(), Fail> {
    let rows = [
        ("reg n 0\nreg n 0", twice(2)),
        ("reg n 0\nread n = c0", twice(2)),
        ("read s = c0\nreg n 0", order(2)),
        ("wait 1\nreg n 0", order(2)),
        ("wait 1\n\nread s = c0", order(3)),
        ("if 1\nscan s = c 0 1 0 1", order(2)),
        ("if 1\nend\nreg n 0", order(3)),
        ("else", nesting(1)),
        ("end", nesting(1)),
        ("if 1\nelse\nwait 1\nelse", nesting(4)),
        ("if 1\nif 2\nelse\nend\nelse\nend\nend", nesting(7)),
        ("if 1\nelse\nif 2\nelse\nend\nelse", nesting(6)),
        ("if 1", nesting(2)),
        ("if 1\n", nesting(3)),
        // two faults of one line
        ("wait 1\nreg now 0", word(2)),
        ("reg n 0\nwait 1\nreg n 0", order(3)),
        ("read s = c0\nread s = c2", twice(2)),
        ("reg n 0\nread n = c[m]", twice(2)),
        // of two lines
        ("wait m\nwait (1", unknown(1)),
        ("end\nwait (1", nesting(1)),
        ("wait (1\nwait m", word(1)),
        ("if 1\nwait m", unknown(2)),
    ];
    assert_eq!(rt; mistold(rt.alloc(), &rows)?, None);
    Ok(())
}

#[test]
fn changes_by_addition_are_of_version_2(rt: HostRuntime) -> Result<(), Fail> {
    let alloc = rt.alloc();
    assert!(rt; fault_of(alloc, "add c[me] = 1, 2\nreg add 0", 2)? == order(2));
    assert!(rt; fault_of(alloc, "reg add 0\nadd c0 = add, 2\n", 2)? == None);
    assert!(rt; fault_of(alloc, "\nadd c2 = 1, 2", 2)? == unknown(2));
    Ok(())
}

/// A text of parts, each with how often it stands there.
fn text_of(alloc: Global, parts: &[(&str, usize)]) -> Result<String, AllocError> {
    let mut text = String::new(alloc);
    for (part, times) in parts {
        for _ in 0..*times {
            text.push_str(part)?;
        }
    }
    Ok(text)
}

#[test]
fn what_is_too_long_is_refused(rt: HostRuntime) -> Result<(), Fail> {
    let alloc = rt.alloc();
    let cases: [(&[(&str, usize)], Option<RuleFault>); 11] = [
        // lines
        (&[("\n", 199), ("wait 1", 1)], None),
        (&[("\n", 200), ("wait 1", 1)], too_long(201)),
        (&[("\n", 200), (" # a comment\n", 1)], None),
        (&[("\n", 200), ("A", 1)], too_long(201)),
        (&[("wait 1\n", 201)], too_long(201)),
        (&[("if 1\n", 1), ("\n", 299)], nesting(302)),
        // 64 and 65 tokens
        (
            &[
                ("read a = c0\nset c0 = ", 1),
                ("(", 14),
                ("a.x", 1),
                (" + 1)", 14),
                (", 0", 1),
            ],
            None,
        ),
        (
            &[
                ("read a = c0\nread b = c[", 1),
                ("(", 14),
                ("a.x", 1),
                (" + 1)", 14),
                ("]", 1),
            ],
            too_long(2),
        ),
        (&[("(", 65)], too_long(1)),
        // open `if`s
        (&[("if 1\n", 8), ("end\n", 8)], None),
        (&[("if 1\n", 8), ("if m\n", 1), ("end\n", 9)], nesting(9)),
    ];
    for (i, (parts, want)) in cases.iter().enumerate() {
        let text = text_of(alloc, parts)?;
        assert!(rt; fault_of(alloc, text.as_str(), 1)? == *want, "{i}");
    }
    Ok(())
}

/// Lines with a number in each, and another line.
fn numbered(
    alloc: Global,
    before: &str,
    after: &str,
    count: usize,
    last: &str,
) -> Result<String, AllocError> {
    let mut text = String::new(alloc);
    for i in 0..count {
        text.push_str(before)?;
        text.push_str(format!(in alloc; "{i}")?.as_str())?;
        text.push_str(after)?;
    }
    text.push_str(last)?;
    Ok(text)
}

#[test]
fn there_are_at_most_16_registers_and_16_senses(rt: HostRuntime) -> Result<(), Fail> {
    let alloc = rt.alloc();
    let cases = [
        ("reg n", " 0\n", 16, "", None),
        ("reg n", " 0\n", 17, "", too_long(17)),
        ("reg n", " 0\n", 16, "reg n0 0", too_long(17)),
        ("reg n", " 0\n", 16, "read s = c0", None),
        ("reg n", " 0\n", 16, "wait 1\nreg n0 0", order(18)),
        ("read s", " = c0\n", 16, "", None),
        ("read s", " = c0\n", 17, "", too_long(17)),
        ("read s", " = c0\n", 16, "scan s0 = m 0 1 0 1", too_long(17)),
    ];
    for (before, after, count, last, want) in cases {
        let text = numbered(alloc, before, after, count, last)?;
        assert!(rt;
            fault_of(alloc, text.as_str(), 1)? == want,
            "{before} {count} {last}"
        );
    }
    Ok(())
}

/// Whether it is the set of the worked row.
fn is_worked_set(stmt: &Stmt) -> bool {
    match stmt {
        Stmt::Set {
            place: Place::Var { var: 0 },
            x,
            y: Expr::Num(-2),
        } => {
            match x {
                Expr::Bin {
                    op: Op::Sub,
                    left,
                    right,
                } => { matches!(left.get(), Expr::Reg(0)) && matches!(right.get(), Expr::Num(1)) }
                _ => false,
            }
        }
        _ => false,
    }
}

/// Whether it is the test of the worked row.
fn is_worked_test(test: &Expr) -> bool {
    match test {
        Expr::Bin {
            op: Op::Less,
            left,
            right,
        } => {
            let field = matches!(
                left.get(),
                Expr::Part {
                    sense: 0,
                    field: Field::X
                }
            );
            field && matches!(right.get(), Expr::Num(1))
        }
        _ => false,
    }
}

#[test]
fn trees_are_as_written(rt: HostRuntime) -> Result<(), Fail> {
    let alloc = rt.alloc();
    let text = "reg n 0\nread a=c0\nif(a.x<1)\nset c0=(n - 1),-2\nend";
    let program = read(alloc, text, 1)?;
    match program.regs.as_slice() {
        [row] => assert!(rt; row.name.as_str() == "n" && row.start == 0),
        _ => assert!(rt; false, "one register"),
    }
    match program.senses.as_slice() {
        [row] => {
            let read = matches!(
                row.sense,
                Sense::Read {
                    place: Place::Var { var: 0 }
                }
            );
            assert!(rt; row.name.as_str() == "a" && read);
        }
        _ => assert!(rt; false, "one sense"),
    }
    match program.body.as_slice() {
        [
            Stmt::If {
                test,
                first,
                second,
            },
        ] => {
            assert!(rt; is_worked_test(test) && second.len() == 0);
            match first.as_slice() {
                [stmt] => assert!(rt; is_worked_set(stmt)),
                _ => assert!(rt; false, "one statement"),
            }
        }
        _ => assert!(rt; false, "one `if`"),
    }
    Ok(())
}

#[test]
fn the_first_number_of_a_name_counts(rt: HostRuntime) -> Result<(), Fail> {
    let program = read(rt.alloc(), "set twice = 1, 2", 1)?;
    match program.body.as_slice() {
        [
            Stmt::Set {
                place: Place::Var { var },
                ..
            },
        ] => assert!(rt; *var == 2),
        _ => assert!(rt; false, "one `set`"),
    }
    Ok(())
}
