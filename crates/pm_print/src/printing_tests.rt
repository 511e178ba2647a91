use crate::print;
use pm_base::{
    Boxed, ClassRow, Expr, Field, List, Memory, Name, Op, Place, Program, RegRow, Sense, SenseRow,
    Stmt,
};
use pm_rules::Names;
use std::alloc::Global;

fn bin(alloc: Global, op: Op, left: Expr, right: Expr) -> Result<Expr, Memory> {
    Ok(Expr::Bin {
        op,
        left: Boxed::new(alloc, left)?,
        right: Boxed::new(alloc, right)?,
    })
}

fn part(sense: u32, field: Field) -> Expr {
    Expr::Part { sense, field }
}

fn reg(alloc: Global, name: &str, start: i64) -> Result<RegRow, Memory> {
    let name = Name::make(alloc, name)?;
    Ok(RegRow { name, start })
}

fn sense(alloc: Global, name: &str, sense: Sense) -> Result<SenseRow, Memory> {
    let name = Name::make(alloc, name)?;
    Ok(SenseRow { name, sense })
}

fn class(alloc: Global, name: &str, first: u32, count: u32) -> Result<(Name, ClassRow), Memory> {
    let name = Name::make(alloc, name)?;
    Ok((name, ClassRow { first, count }))
}

/// What the program prints where the classes are `cell` with `c0` and `c1`, and `mark` with `m0`.
fn printed(alloc: Global, program: &Program) -> Result<String, Memory> {
    let mut classes = List::new(alloc);
    classes.push(class(alloc, "cell", 0, 2)?)?;
    classes.push(class(alloc, "mark", 2, 1)?)?;
    let mut vars = List::new(alloc);
    vars.push(Name::make(alloc, "c0")?)?;
    vars.push(Name::make(alloc, "c1")?)?;
    vars.push(Name::make(alloc, "m0")?)?;
    if classes.len() > 2 || vars.len() > 3 {
        return Err(Memory);
    }
    let names = Names::make(alloc, &classes, &vars)?;
    print(alloc, program, &names)
}

/// The rule of a text that isn't laid out as printing does.
fn worked(alloc: Global) -> Result<Program, Memory> {
    let mut regs = List::new(alloc);
    regs.push(reg(alloc, "n", 0)?)?;
    let mut senses = List::new(alloc);
    let place = Place::Var { var: 0 };
    senses.push(sense(alloc, "a", Sense::Read { place })?)?;
    let mut first = List::new(alloc);
    first.push(Stmt::Set {
        place: Place::Var { var: 0 },
        x: bin(alloc, Op::Sub, Expr::Reg(0), Expr::Num(1))?,
        y: Expr::Num(-2),
    })?;
    let mut body = List::new(alloc);
    body.push(Stmt::If {
        test: bin(alloc, Op::Less, part(0, Field::X), Expr::Num(1))?,
        first,
        second: List::new(alloc),
    })?;
    Ok(Program { regs, senses, body })
}

fn senses_of_each_form(alloc: Global) -> Result<List<SenseRow>, Memory> {
    let mut senses = List::new(alloc);
    let place = Place::Var { var: 2 };
    senses.push(sense(alloc, "a", Sense::Read { place })?)?;
    let at = bin(alloc, Op::Add, Expr::Reg(1), Expr::Me)?;
    let place = Place::Member { class: 0, at };
    senses.push(sense(alloc, "b", Sense::Read { place })?)?;
    let window = Sense::Scan {
        class: 0,
        x0: Expr::Num(-1),
        x1: bin(alloc, Op::Min, Expr::Reg(0), Expr::Num(9))?,
        y0: part(1, Field::X),
        y1: Expr::Num(5),
    };
    senses.push(sense(alloc, "s", window)?)?;
    Ok(senses)
}

/// An `if` within an `if`, both with a second list.
fn nested(alloc: Global) -> Result<Stmt, Memory> {
    let mut low = List::new(alloc);
    let at = Expr::Num(0);
    low.push(Stmt::Add {
        place: Place::Member { class: 1, at },
        x: Expr::Num(1),
        y: Expr::Num(-1),
    })?;
    let mut high = List::new(alloc);
    high.push(Stmt::Set {
        place: Place::Var { var: 1 },
        x: part(2, Field::I),
        y: Expr::Reg(0),
    })?;
    let mut first = List::new(alloc);
    first.push(Stmt::If {
        test: bin(alloc, Op::Less, Expr::Now, Expr::Me)?,
        first: low,
        second: high,
    })?;
    let mut second = List::new(alloc);
    let value = Expr::Num(i64::MAX);
    second.push(Stmt::Wait { value })?;
    let sums = bin(alloc, Op::AtMost, part(0, Field::X), part(2, Field::Sx))?;
    let others = bin(alloc, Op::Differ, part(1, Field::Y), part(2, Field::Sy))?;
    let test = bin(alloc, Op::Equal, sums, others)?;
    Ok(Stmt::If {
        test,
        first,
        second,
    })
}

fn each_form(alloc: Global) -> Result<Program, Memory> {
    let mut regs = List::new(alloc);
    regs.push(reg(alloc, "n", i64::MIN)?)?;
    regs.push(reg(alloc, "at", 7)?)?;
    let sum = bin(alloc, Op::Add, Expr::Reg(0), Expr::Num(1))?;
    let difference = bin(alloc, Op::Sub, sum, Expr::Num(-2))?;
    let product = bin(alloc, Op::Mul, difference, part(0, Field::I))?;
    let value = bin(alloc, Op::Div, product, Expr::Num(3))?;
    let mut body = List::new(alloc);
    body.push(Stmt::Let { reg: 0, value })?;
    let remainder = bin(alloc, Op::Rem, Expr::Reg(1), Expr::Num(4))?;
    let value = bin(alloc, Op::Max, remainder, part(2, Field::N))?;
    body.push(Stmt::Let { reg: 1, value })?;
    body.push(nested(alloc)?)?;
    body.push(Stmt::If {
        test: Expr::Num(0),
        first: List::new(alloc),
        second: List::new(alloc),
    })?;
    Ok(Program {
        regs,
        senses: senses_of_each_form(alloc)?,
        body,
    })
}

#[test]
fn a_rule_is_printed_in_its_layout(rt: HostRuntime) {
    let alloc = rt.alloc();
    let program = worked(alloc).expect(&rt, "memory");
    let text = printed(alloc, &program).expect(&rt, "memory");
    let expected = "reg n 0\nread a = c0\nif (a.x < 1)\nset c0 = (n - 1), -2\nend\n";
    assert!(rt; text.as_str() == expected);
}

#[test]
fn each_form_is_printed(rt: HostRuntime) {
    let alloc = rt.alloc();
    let program = each_form(alloc).expect(&rt, "memory");
    let text = printed(alloc, &program).expect(&rt, "memory");
    let expected = "reg n -9223372036854775808
reg at 7
read a = m0
read b = cell[(at + me)]
scan s = cell -1 (n min 9) b.x 5
let n = ((((n + 1) - -2) * a.i) / 3)
let at = ((at % 4) max s.n)
if ((a.x <= s.sx) == (b.y != s.sy))
if (now < me)
add mark[0] = 1, -1
else
set c1 = s.i, n
end
else
wait 9223372036854775807
end
if 0
end
";
    assert!(rt; text.as_str() == expected);
}
