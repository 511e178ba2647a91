ghost use Rattle.std.specs.Prelude.{◌≡◌, Ok, ◌∷◌, [], ◌++◌, ◌||◌, ◌&&◌, true, string_bytes, List as Seq, ℕ, map, OnOk, IfOk, codes, if◌then◌else◌};
ghost use Rattle.std.specs.Fmt.{signed_decimal};
ghost use Rattle.std.specs.List.{flat_map};
ghost use Rattle.pm_base.specs.Fits.{fits, reg_names, sense_names};
ghost use Rattle.pm_rules.specs.Grammar.{IsTable};
ghost use Rattle.pm_rules.specs.Rules.{parsed};
ghost use Rattle.pm_print.specs.Printing.{IsNamed, change_sized, else_text, in_i64, is_sized, piece_tok, pieces, place_sized, program_sized, regs_sized, scope_of, sense_sized, senses_sized, stmt_sized, stmts_sized};
ghost use Rattle.pm_rules.specs.Reading.{class_names, class_rows};
ghost use Rattle.pm_rules.specs.Spelling.{field_word, name_in, op_token, program_scope, reg_said, says, says_all, sense_said, spell, spell_change, spell_place, spell_said, spell_sense};
ghost use Rattle.pm_print.specs.Printed.{gap, joins_left, joins_right, line_text, printed, said_text, symbol_text, text_behind, token_text};
ghost use Rattle.pm_tokens.specs.Tokens.{name, number, symbol};
ghost use Rattle.pm_rules.specs.declared.said.Said.TheVariants as said;
ghost use Rattle.pm_tokens.specs.declared.token.Symbol.TheVariants as sym;

use itoa::Buffer;
use pm_base::{
    ClassRow, Expr, Field, List, Memory, Name, Op, Place, Program, RegRow, Sense, SenseRow, Stmt,
};
use pm_rules::Names;
use pm_tokens::Symbol;
use std::alloc::Global;

/// A token that is to be written, which borrows its name.
#[derive(Clone, Copy, Debug)]
pub enum Piece<'a> {
    Name(&'a str),
    Number(i64),
    Symbol(Symbol),
}

/// The names that a program's numbers stand for.
#[derive(Clone, Copy, Debug)]
pub struct Words<'a> {
    pub classes: &'a [(Name, ClassRow)],
    pub vars: &'a [Name],
    pub regs: &'a [RegRow],
    pub senses: &'a [SenseRow],
}

fn symbol_text(symbol: Symbol) -> &'static str
    ensures { result.now ≡ symbol_text symbol }
{
    match symbol {
        Symbol::Open => "(",
        Symbol::Close => ")",
        Symbol::LeftBracket => "[",
        Symbol::RightBracket => "]",
        Symbol::Dot => ".",
        Symbol::Comma => ",",
        Symbol::Assign => "=",
        Symbol::Equal => "==",
        Symbol::Differ => "!=",
        Symbol::Less => "<",
        Symbol::AtMost => "<=",
        Symbol::Plus => "+",
        Symbol::Minus => "-",
        Symbol::Star => "*",
        Symbol::Slash => "/",
        Symbol::Percent => "%",
    }
}

fn joins_right(piece: &Piece<'_>) -> bool
    ensures { result ≡ joins_right (piece_tok piece.now) }
{
    matches!(
        piece,
        Piece::Symbol(Symbol::Open | Symbol::LeftBracket | Symbol::Dot)
    )
}

fn joins_left(piece: &Piece<'_>) -> bool
    ensures { result ≡ joins_left (piece_tok piece.now) }
{
    match piece {
        Piece::Symbol(symbol) => match symbol {
            Symbol::Close => true,
            Symbol::LeftBracket => true,
            Symbol::RightBracket => true,
            Symbol::Dot => true,
            Symbol::Comma => true,
            _ => false,
        },
        _ => false,
    }
}

fn add(out: &mut String, text: &str) -> Result<(), Memory>
    ensures { OnOk result (string_bytes out.new ≡ string_bytes out.old ++ text.now) }
{
    out.push_str(text)?;
    Ok(())
}

fn add_number(out: &mut String, n: i64) -> Result<(), Memory>
    ensures { OnOk result (string_bytes out.new ≡ string_bytes out.old ++ signed_decimal n) }
{
    let mut buffer = Buffer::new();
    add(out, buffer.format(n))
}

fn add_piece(out: &mut String, piece: &Piece<'_>) -> Result<(), Memory>
    ensures { OnOk result (string_bytes out.new ≡ string_bytes out.old ++ token_text (piece_tok piece.now)) }
{
    match piece {
        Piece::Name(word) => add(out, word),
        Piece::Number(n) => add_number(out, *n),
        Piece::Symbol(symbol) => add(out, symbol_text(*symbol)),
    }
}

fn add_gap(out: &mut String, a: &Piece<'_>, b: &Piece<'_>) -> Result<(), Memory>
    ensures { OnOk result (string_bytes out.new ≡ string_bytes out.old ++ gap (piece_tok a.now) (piece_tok b.now)) }
{
    if joins_right(a) || joins_left(b) {
        Ok(())
    } else {
        add(out, " ")
    }
}

fn add_behind<'a, 'b>(
    out: &mut String,
    first: &'b Piece<'a>,
    rest: &'b [Piece<'a>],
) -> Result<(), Memory>
    ensures { OnOk result (string_bytes out.new ≡
        string_bytes out.old ++ text_behind (piece_tok first.now) (pieces rest.now)) }
{
    let mut before = first;
    for piece in rest {
        add_gap(out, before, piece)?;
        add_piece(out, piece)?;
        before = piece;
    }
    Ok(())
}

/// The text of a line's tokens.
fn add_line(out: &mut String, line: &[Piece<'_>]) -> Result<(), Memory>
    ensures { OnOk result (string_bytes out.new ≡ string_bytes out.old ++ line_text (pieces line.now)) }
{
    match line {
        [] => Ok(()),
        [first, rest @ ..] => {
            add_piece(out, first)?;
            add_behind(out, first, rest)
        }
    }
}

fn push<'a>(line: &mut Vec<Piece<'a>>, piece: Piece<'a>) -> Result<(), Memory>
    ensures { OnOk result (pieces line.new.items ≡ pieces line.old.items ++ piece_tok piece.entry ∷ []) }
{
    line.push(piece)?;
    Ok(())
}

fn push_name<'a>(line: &mut Vec<Piece<'a>>, word: &'a str) -> Result<(), Memory>
    ensures { OnOk result (pieces line.new.items ≡ pieces line.old.items ++ name word.now ∷ []) }
{
    push(line, Piece::Name(word))
}

fn push_symbol<'a>(line: &mut Vec<Piece<'a>>, s: Symbol) -> Result<(), Memory>
    ensures { OnOk result (pieces line.new.items ≡ pieces line.old.items ++ symbol s ∷ []) }
{
    push(line, Piece::Symbol(s))
}

/// A line of this word.
fn begin<'a>(line: &mut Vec<Piece<'a>>, word: &'a str) -> Result<(), Memory>
    ensures { OnOk result (pieces line.new.items ≡ name word.now ∷ []) }
{
    line.clear();
    push_name(line, word)
}

fn push_op<'a>(line: &mut Vec<Piece<'a>>, op: Op) -> Result<(), Memory>
    ensures { OnOk result (pieces line.new.items ≡ pieces line.old.items ++ op_token op ∷ []) }
{
    let piece = match op {
        Op::Add => Piece::Symbol(Symbol::Plus),
        Op::Sub => Piece::Symbol(Symbol::Minus),
        Op::Mul => Piece::Symbol(Symbol::Star),
        Op::Div => Piece::Symbol(Symbol::Slash),
        Op::Rem => Piece::Symbol(Symbol::Percent),
        Op::Min => Piece::Name("min"),
        Op::Max => Piece::Name("max"),
        Op::Less => Piece::Symbol(Symbol::Less),
        Op::AtMost => Piece::Symbol(Symbol::AtMost),
        Op::Equal => Piece::Symbol(Symbol::Equal),
        Op::Differ => Piece::Symbol(Symbol::Differ),
    };
    push(line, piece)
}

fn field_word(field: Field) -> &'static str
    ensures { result.now ≡ field_word field }
{
    match field {
        Field::N => "n",
        Field::I => "i",
        Field::X => "x",
        Field::Y => "y",
        Field::Sx => "sx",
        Field::Sy => "sy",
    }
}

#[tactic(auto, using(crate::proofs::PrintingNames::name_steps))]
fn reg_name<'a>(words: &Words<'a>, reg: u32) -> &'a str
    ensures { result.now ≡ name_in (scope_of words.now).regs reg }
{
    match words.regs.get(reg as usize) {
        Some(row) => row.name.as_str(),
        None => "",
    }
}

#[tactic(auto, using(crate::proofs::PrintingNames::name_steps))]
fn sense_name<'a>(words: &Words<'a>, sense: u32) -> &'a str
    ensures { result.now ≡ name_in (scope_of words.now).senses sense }
{
    match words.senses.get(sense as usize) {
        Some(row) => row.name.as_str(),
        None => "",
    }
}

fn class_name<'a>(words: &Words<'a>, class: u32) -> &'a str
    ensures { result.now ≡ name_in (class_names (scope_of words.now).table) class }
{
    match words.classes.get(class as usize) {
        Some(row) => row.0.as_str(),
        None => "",
    }
}

fn var_name<'a>(words: &Words<'a>, var: u32) -> &'a str
    ensures { result.now ≡ name_in (scope_of words.now).table.vars var }
{
    match words.vars.get(var as usize) {
        Some(name) => name.as_str(),
        None => "",
    }
}

fn push_part<'a>(line: &mut Vec<Piece<'a>>, sense: &'a str, field: Field) -> Result<(), Memory>
    ensures { OnOk result (pieces line.new.items ≡
        pieces line.old.items ++ name sense.now ∷ symbol sym.Dot ∷ name (field_word field) ∷ []) }
{
    push_name(line, sense)?;
    push_symbol(line, Symbol::Dot)?;
    push_name(line, field_word(field))
}

#[cycle(push_expr)]
fn push_expr<'a>(line: &mut Vec<Piece<'a>>, words: &Words<'a>, e: &Expr) -> Result<(), Memory>
    ensures tokens { OnOk result (pieces line.new.items ≡ pieces line.old.items ++ spell (scope_of words.now) e.now) }
    ensures sized { OnOk result (is_sized e.now ≡ true) }
{
    match e {
        Expr::Num(n) => push(line, Piece::Number(*n)),
        Expr::Now => push_name(line, "now"),
        Expr::Me => push_name(line, "me"),
        Expr::Reg(reg) => push_name(line, reg_name(words, *reg)),
        Expr::Part { sense, field } => push_part(line, sense_name(words, *sense), *field),
        Expr::Bin { op, left, right } => {
            push_symbol(line, Symbol::Open)?;
            push_expr(line, words, left.get())?;
            push_op(line, *op)?;
            push_expr(line, words, right.get())?;
            push_symbol(line, Symbol::Close)
        }
    }
}

fn push_place<'a>(line: &mut Vec<Piece<'a>>, words: &Words<'a>, place: &Place) -> Result<(), Memory>
    ensures tokens { OnOk result (pieces line.new.items ≡
        pieces line.old.items ++ spell_place (scope_of words.now) place.now) }
    ensures sized { OnOk result (place_sized place.now ≡ true) }
{
    match place {
        Place::Var { var } => push_name(line, var_name(words, *var)),
        Place::Member { class, at } => {
            push_name(line, class_name(words, *class))?;
            push_symbol(line, Symbol::LeftBracket)?;
            push_expr(line, words, at)?;
            push_symbol(line, Symbol::RightBracket)
        }
    }
}

/// The rest of a line that declares a sense, behind its first word.
fn push_assigned<'a>(line: &mut Vec<Piece<'a>>, word: &'a str) -> Result<(), Memory>
    ensures { OnOk result (pieces line.new.items ≡ pieces line.old.items ++ name word.now ∷ symbol sym.Assign ∷ []) }
{
    push_name(line, word)?;
    push_symbol(line, Symbol::Assign)
}

fn push_two<'a>(
    line: &mut Vec<Piece<'a>>,
    words: &Words<'a>,
    a: &Expr,
    b: &Expr,
) -> Result<(), Memory>
    ensures tokens { OnOk result (pieces line.new.items ≡
        pieces line.old.items ++ (spell (scope_of words.now) a.now ++ spell (scope_of words.now) b.now)) }
    ensures sized { OnOk result ((is_sized a.now && is_sized b.now) ≡ true) }
{
    push_expr(line, words, a)?;
    push_expr(line, words, b)
}

fn read_line<'a>(
    line: &mut Vec<Piece<'a>>,
    words: &Words<'a>,
    word: &'a str,
    place: &Place,
) -> Result<(), Memory>
    ensures tokens { OnOk result (pieces line.new.items ≡
        name (codes "read") ∷ name word.now ∷ symbol sym.Assign ∷ spell_place (scope_of words.now) place.now) }
    ensures sized { OnOk result (place_sized place.now ≡ true) }
{
    begin(line, "read")?;
    push_assigned(line, word)?;
    push_place(line, words, place)
}

fn sense_line<'a>(
    line: &mut Vec<Piece<'a>>,
    words: &Words<'a>,
    word: &'a str,
    sense: &Sense,
) -> Result<(), Memory>
    ensures tokens { OnOk result (pieces line.new.items ≡ spell_sense (scope_of words.now) word.now sense.now) }
    ensures sized { OnOk result (sense_sized sense.now ≡ true) }
{
    match sense {
        Sense::Read { place } => read_line(line, words, word, place),
        Sense::Scan {
            class,
            x0,
            x1,
            y0,
            y1,
        } => {
            begin(line, "scan")?;
            push_assigned(line, word)?;
            push_name(line, class_name(words, *class))?;
            push_two(line, words, x0, x1)?;
            push_two(line, words, y0, y1)
        }
    }
}

fn change_line<'a>(
    line: &mut Vec<Piece<'a>>,
    words: &Words<'a>,
    word: &'a str,
    place: &Place,
    x: &Expr,
    y: &Expr,
) -> Result<(), Memory>
    ensures tokens { OnOk result (pieces line.new.items ≡
        spell_change (scope_of words.now) word.now place.now x.now y.now) }
    ensures sized { OnOk result (change_sized place.now x.now y.now ≡ true) }
{
    begin(line, word)?;
    push_place(line, words, place)?;
    push_symbol(line, Symbol::Assign)?;
    push_expr(line, words, x)?;
    push_symbol(line, Symbol::Comma)?;
    push_expr(line, words, y)
}

fn let_line<'a>(
    line: &mut Vec<Piece<'a>>,
    words: &Words<'a>,
    reg: u32,
    value: &Expr,
) -> Result<(), Memory>
    ensures tokens { OnOk result (pieces line.new.items ≡
        name (codes "let") ∷ name (name_in (scope_of words.now).regs reg) ∷ symbol sym.Assign ∷
        spell (scope_of words.now) value.now) }
    ensures sized { OnOk result (is_sized value.now ≡ true) }
{
    begin(line, "let")?;
    push_assigned(line, reg_name(words, reg))?;
    push_expr(line, words, value)
}

/// A word and an expression.
fn value_line<'a>(
    line: &mut Vec<Piece<'a>>,
    words: &Words<'a>,
    word: &'a str,
    value: &Expr,
) -> Result<(), Memory>
    ensures tokens { OnOk result (pieces line.new.items ≡ name word.now ∷ spell (scope_of words.now) value.now) }
    ensures sized { OnOk result (is_sized value.now ≡ true) }
{
    begin(line, word)?;
    push_expr(line, words, value)
}

fn reg_line<'a>(line: &mut Vec<Piece<'a>>, word: &'a str, start: i64) -> Result<(), Memory>
    ensures tokens { OnOk result (pieces line.new.items ≡ name (codes "reg") ∷ name word.now ∷ number start ∷ []) }
    ensures sized { OnOk result (in_i64 start ≡ true) }
{
    begin(line, "reg")?;
    push_name(line, word)?;
    push(line, Piece::Number(start))
}

/// The lines that are written, and the tokens of the line that is begun.
#[derive(Debug, Drop)]
struct Page<'a> {
    text: String,
    line: Vec<Piece<'a>>,
}

/// Ends the line.
fn end_line<'a>(page: &mut Page<'a>) -> Result<(), Memory>
    ensures { OnOk result (string_bytes page.new.text ≡
        string_bytes page.old.text ++ (line_text (pieces page.old.line.items) ++ codes "\n")) }
{
    add_line(&mut page.text, page.line.as_slice())?;
    add(&mut page.text, "\n")
}

fn print_word<'a>(page: &mut Page<'a>, word: &'a str) -> Result<(), Memory>
    ensures { OnOk result (string_bytes page.new.text ≡ string_bytes page.old.text ++ (word.now ++ codes "\n")) }
{
    begin(&mut page.line, word)?;
    end_line(page)
}

fn print_if<'a>(page: &mut Page<'a>, words: &Words<'a>, test: &Expr) -> Result<(), Memory>
    ensures text { OnOk result (string_bytes page.new.text ≡
        string_bytes page.old.text ++ said_text (scope_of words.now) (said.If test.now)) }
    ensures sized { OnOk result (is_sized test.now ≡ true) }
{
    value_line(&mut page.line, words, "if", test)?;
    end_line(page)
}

/// An `else`, where its list isn't empty.
fn print_else<'a>(page: &mut Page<'a>, second: &[Stmt]) -> Result<(), Memory>
    ensures { OnOk result (string_bytes page.new.text ≡ string_bytes page.old.text ++ else_text second.now) }
{
    if second.len() == 0 {
        Ok(())
    } else {
        print_word(page, "else")
    }
}

#[cycle(print_stmts)]
fn print_stmt<'a>(page: &mut Page<'a>, words: &Words<'a>, stmt: &Stmt) -> Result<(), Memory>
    ensures text { OnOk result (string_bytes page.new.text ≡
        string_bytes page.old.text ++ flat_map (said_text (scope_of words.now)) (says stmt.now)) }
    ensures sized { OnOk result (stmt_sized stmt.now ≡ true) }
{
    match stmt {
        Stmt::Let { reg, value } => {
            let_line(&mut page.line, words, *reg, value)?;
            end_line(page)
        }
        Stmt::If {
            test,
            first,
            second,
        } => {
            print_if(page, words, test)?;
            print_stmts(page, words, first.as_slice())?;
            print_else(page, second.as_slice())?;
            print_stmts(page, words, second.as_slice())?;
            print_word(page, "end")
        }
        Stmt::Set { place, x, y } => {
            change_line(&mut page.line, words, "set", place, x, y)?;
            end_line(page)
        }
        Stmt::Add { place, x, y } => {
            change_line(&mut page.line, words, "add", place, x, y)?;
            end_line(page)
        }
        Stmt::Wait { value } => {
            value_line(&mut page.line, words, "wait", value)?;
            end_line(page)
        }
    }
}

#[cycle(print_stmts)]
fn print_stmts<'a>(page: &mut Page<'a>, words: &Words<'a>, stmts: &[Stmt]) -> Result<(), Memory>
    ensures text { OnOk result (string_bytes page.new.text ≡
        string_bytes page.old.text ++ flat_map (said_text (scope_of words.now)) (says_all stmts.now)) }
    ensures sized { OnOk result (stmts_sized stmts.now ≡ true) }
{
    for stmt in stmts {
        print_stmt(page, words, stmt)?;
    }
    Ok(())
}

fn print_regs<'a>(page: &mut Page<'a>, words: &Words<'a>) -> Result<(), Memory>
    ensures text { OnOk result (string_bytes page.new.text ≡
        string_bytes page.old.text ++ flat_map (said_text (scope_of words.now)) (reg_said words.now.regs.now)) }
    ensures sized { OnOk result (regs_sized words.now.regs.now ≡ true) }
{
    for row in words.regs {
        reg_line(&mut page.line, row.name.as_str(), row.start)?;
        end_line(page)?;
    }
    Ok(())
}

fn print_senses<'a>(page: &mut Page<'a>, words: &Words<'a>) -> Result<(), Memory>
    ensures text { OnOk result (string_bytes page.new.text ≡
        string_bytes page.old.text ++ flat_map (said_text (scope_of words.now)) (sense_said words.now.senses.now)) }
    ensures sized { OnOk result (senses_sized words.now.senses.now ≡ true) }
{
    for row in words.senses {
        sense_line(&mut page.line, words, row.name.as_str(), &row.sense)?;
        end_line(page)?;
    }
    Ok(())
}

/// The printed form of a program over these classes and variables: one statement a line, each ended by a line feed.
/// A number that has no name is written as nothing.
#[tactic(auto, unfolding(crate::specs::Printed::printed))]
fn print_with(
    alloc: Global,
    program: &Program,
    classes: &[(Name, ClassRow)],
    vars: &[Name],
) -> Result<String, Memory>
    ensures text { IfOk result (λ s. string_bytes s ≡
        printed (record { classes = classes.now; vars = vars.now }) program.now) }
    ensures sized { IfOk result (λ _. program_sized program.now ≡ true) }
{
    let words = Words {
        classes,
        vars,
        regs: program.regs.as_slice(),
        senses: program.senses.as_slice(),
    };
    let mut page = Page {
        text: String::new(alloc),
        line: Vec::new(alloc),
    };
    print_regs(&mut page, &words)?;
    print_senses(&mut page, &words)?;
    print_stmts(&mut page, &words, program.body.as_slice())?;
    let Page { text, .. } = page;
    Ok(text)
}

/// The same over the names of a scenario.
fn print_text(alloc: Global, program: &Program, names: &Names<'_>) -> Result<String, Memory>
    ensures text { IfOk result (λ s. string_bytes s ≡ printed names.now program.now) }
    ensures sized { IfOk result (λ _. program_sized program.now ≡ true) }
{
    print_with(alloc, program, names.classes(), names.vars())
}

/// The printed form of a program: a statement a line, each ended by a line feed, without indentation. A number without
/// a name prints nothing.
///
/// # Errors
///
/// Want of memory alone.
pub fn print(alloc: Global, program: &Program, names: &Names<'_>) -> Result<String, Memory>
    ensures text { IfOk result (λ s. string_bytes s ≡ printed names.now program.now) }
    ensures again { IsTable names.now → IsNamed names.now →
        fits program.now (record { classes = class_rows names.now }) ≡ true →
        IfOk result (λ s. parsed names.now 2 (string_bytes s) ≡ Ok program.now) }
{
    let text = print_text(alloc, program, names)?;
    Ok(text)
}
