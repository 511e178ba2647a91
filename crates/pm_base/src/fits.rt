ghost use Rattle.std.specs.Prelude.{◌≡◌, List as Seq, [], ◌∷◌, ◌≤◌, ◌<◌, ◌+◌, ◌^◌};
ghost use Rattle.std.specs.Prelude.{◌++◌, ◌&&◌, true, not, nat_lt, min, max, drop, length};
ghost use Rattle.pm_base.specs.Layouts.{IsLayout, class_row};
ghost use Rattle.pm_base.specs.Names.{is_name, is_reserved};
ghost use Rattle.pm_base.specs.Fits.{tokens_of, place_tokens, sense_tokens, change_tokens, in_line, else_lines};
ghost use Rattle.pm_base.specs.Fits.{lines_of, lines_of_all, depth_of, depth_of_all, is_known, place_known};
ghost use Rattle.pm_base.specs.Fits.{sense_known, change_known, stmt_fits, stmts_fit, senses_fit, reg_names};
ghost use Rattle.pm_base.specs.Fits.{sense_names, has_name, names_fit, are_few, is_short, tree_fits, fits};
ghost use Rattle.pm_base.specs.declared.program.Expr.TheVariants.{Bin};
ghost use Rattle.pm_base.specs.declared.program.Stmt.TheVariants.{If};

use crate::{
    ClassRow, Expr, Layout, List, Op, Place, Program, RegRow, Sense, SenseRow, Stmt, is_name,
    is_reserved,
};

/// What an expression may use: the number of variables, of registers and of senses.
#[derive(Clone, Copy, Debug, PartialEq, Eq)]
pub struct Known {
    pub vars: u32,
    pub regs: usize,
    pub senses: usize,
}

/// The number of tokens, or one more than a line may have where there are more.
fn in_sixty_five(tokens: u32) -> u32
    ensures { result ≡ min tokens 65 }
{
    if tokens < 65 { tokens } else { 65 }
}

#[cycle(tokens)]
fn tokens(e: &Expr) -> u32
    ensures { result ≡ min (tokens_of e.now) 65 }
{
    match e {
        Expr::Num(_) => 1,
        Expr::Now => 1,
        Expr::Me => 1,
        Expr::Reg(_) => 1,
        Expr::Part { .. } => 3,
        Expr::Bin { left, right, .. } => in_sixty_five(
            3 + tokens(left.get()) + tokens(right.get()),
        ),
    }
}

fn place_tokens(place: &Place) -> u32
    ensures { result ≡ min (place_tokens place.now) 65 }
{
    match place {
        Place::Var { .. } => 1,
        Place::Member { at, .. } => in_sixty_five(3 + tokens(at)),
    }
}

fn sense_tokens(sense: &Sense) -> u32
    ensures { result ≡ min (sense_tokens sense.now) 65 }
{
    match sense {
        Sense::Read { place } => in_sixty_five(3 + place_tokens(place)),
        Sense::Scan { x0, x1, y0, y1, .. } => in_sixty_five(
            4 + tokens(x0) + tokens(x1) + tokens(y0) + tokens(y1),
        ),
    }
}

fn change_tokens(place: &Place, x: &Expr, y: &Expr) -> u32
    ensures { result ≡ min (change_tokens place.now x.now y.now) 65 }
{
    in_sixty_five(3 + place_tokens(place) + tokens(x) + tokens(y))
}

/// The number of lines, or one more than a rule may have where there are more.
fn in_two_hundred_one(lines: usize) -> usize
    ensures { result ≡ min lines 201 }
{
    if lines < 201 { lines } else { 201 }
}

#[cycle(lines)]
fn stmt_lines(stmt: &Stmt) -> usize
    ensures { result ≡ min (lines_of stmt.now) 201 }
{
    match stmt {
        Stmt::Let { .. } => 1,
        Stmt::If { first, second, .. } => {
            let first = all_lines(first.as_slice());
            let other = all_lines(second.as_slice());
            if second.len() == 0 {
                in_two_hundred_one(2 + first)
            } else {
                in_two_hundred_one(3 + first + other)
            }
        }
        Stmt::Set { .. } => 1,
        Stmt::Add { .. } => 1,
        Stmt::Wait { .. } => 1,
    }
}

#[cycle(lines)]
fn all_lines(stmts: &[Stmt]) -> usize
    ensures { result ≡ min (lines_of_all stmts.now) 201 }
{
    let mut lines = 0;
    for stmt in stmts {
        lines = in_two_hundred_one(lines + stmt_lines(stmt));
    }
    lines
}

fn deeper(a: u32, b: u32) -> u32
    ensures { result ≡ max a b }
{
    if a < b { b } else { a }
}

/// The number of `if` that are open at once, or 9 where there are more.
#[cycle(depth)]
fn stmt_depth(stmt: &Stmt) -> u32
    ensures { result ≡ min (depth_of stmt.now) 9 }
{
    match stmt {
        Stmt::Let { .. } => 0,
        Stmt::If { first, second, .. } => {
            let inner = deeper(all_depth(first.as_slice()), all_depth(second.as_slice()));
            if inner < 9 { inner + 1 } else { 9 }
        }
        Stmt::Set { .. } => 0,
        Stmt::Add { .. } => 0,
        Stmt::Wait { .. } => 0,
    }
}

#[cycle(depth)]
fn all_depth(stmts: &[Stmt]) -> u32
    ensures { result ≡ min (depth_of_all stmts.now) 9 }
{
    let mut depth = 0;
    for stmt in stmts {
        depth = deeper(depth, stmt_depth(stmt));
    }
    depth
}

#[cycle(is_known)]
fn is_known(known: Known, e: &Expr) -> bool
    ensures { result ≡ is_known known e.now }
{
    match e {
        Expr::Num(_) => true,
        Expr::Now => true,
        Expr::Me => true,
        Expr::Reg(r) => (*r as usize) < known.regs,
        Expr::Part { sense, .. } => (*sense as usize) < known.senses,
        Expr::Bin { left, right, .. } => is_known(known, left.get())
            && is_known(known, right.get()),
    }
}

fn place_known(classes: &[ClassRow], known: Known, place: &Place) -> bool
    ensures { result ≡ place_known classes.now known place.now }
{
    match place {
        Place::Var { var } => *var < known.vars,
        Place::Member { class, at } => has_member(classes, *class) && is_known(known, at),
    }
}

fn has_member(classes: &[ClassRow], class: u32) -> bool
    ensures { result ≡ nat_lt 0 (class_row classes.now class).count }
{
    match classes.get(class as usize) {
        Some(row) => row.count > 0,
        None => false,
    }
}

fn sense_known(classes: &[ClassRow], known: Known, sense: &Sense) -> bool
    ensures { result ≡ sense_known classes.now known sense.now }
{
    match sense {
        Sense::Read { place } => place_known(classes, known, place),
        Sense::Scan {
            class,
            x0,
            x1,
            y0,
            y1,
        } => {
            (*class as usize) < classes.len()
                && (is_known(known, x0) && is_known(known, x1))
                && (is_known(known, y0) && is_known(known, y1))
        }
    }
}

fn change_known(classes: &[ClassRow], known: Known, place: &Place, x: &Expr, y: &Expr) -> bool
    ensures { result ≡ change_known classes.now known place.now x.now y.now }
{
    place_known(classes, known, place) && (is_known(known, x) && is_known(known, y))
}

fn change_fits(classes: &[ClassRow], known: Known, place: &Place, x: &Expr, y: &Expr) -> bool
    ensures { result ≡ (in_line (change_tokens place.now x.now y.now) &&
        change_known classes.now known place.now x.now y.now) }
{
    change_tokens(place, x, y) <= 64 && change_known(classes, known, place, x, y)
}

#[cycle(stmts_fit)]
fn stmt_fits(classes: &[ClassRow], known: Known, stmt: &Stmt) -> bool
    ensures { result ≡ stmt_fits classes.now known stmt.now }
{
    match stmt {
        Stmt::Let { reg, value } => {
            tokens(value) <= 61 && ((*reg as usize) < known.regs && is_known(known, value))
        }
        Stmt::If {
            test,
            first,
            second,
        } => {
            tokens(test) <= 63
                && is_known(known, test)
                && (stmts_fit(classes, known, first.as_slice())
                    && stmts_fit(classes, known, second.as_slice()))
        }
        Stmt::Set { place, x, y } => change_fits(classes, known, place, x, y),
        Stmt::Add { place, x, y } => change_fits(classes, known, place, x, y),
        Stmt::Wait { value } => tokens(value) <= 63 && is_known(known, value),
    }
}

#[cycle(stmts_fit)]
fn stmts_fit(classes: &[ClassRow], known: Known, stmts: &[Stmt]) -> bool
    ensures { result ≡ stmts_fit classes.now known stmts.now }
{
    for stmt in stmts {
        if !stmt_fits(classes, known, stmt) {
            return false;
        }
    }
    true
}

fn sense_fits(classes: &[ClassRow], known: Known, sense: &Sense) -> bool
    ensures { result ≡ (in_line (sense_tokens sense.now) && sense_known classes.now known sense.now) }
{
    sense_tokens(sense) <= 64 && sense_known(classes, known, sense)
}

/// Whether each of these senses fits, where the first may use so many before it.
fn senses_fit(classes: &[ClassRow], known: Known, senses: &[SenseRow]) -> bool
    requires { known.senses + length senses.now < 2 ^ 64 }
    ensures { result ≡ senses_fit classes.now known senses.now }
{
    let mut before = known;
    for row in senses {
        if !sense_fits(classes, before, &row.sense) {
            return false;
        }
        before.senses += 1;
    }
    true
}

fn is_reg(name: &str, regs: &[RegRow]) -> bool
    ensures { result ≡ has_name name.now (reg_names regs.now) }
{
    for row in regs {
        if row.name.as_str() == name {
            return true;
        }
    }
    false
}

fn is_sense(name: &str, senses: &[SenseRow]) -> bool
    ensures { result ≡ has_name name.now (sense_names senses.now) }
{
    for row in senses {
        if row.name.as_str() == name {
            return true;
        }
    }
    false
}

fn name_fits(name: &str) -> bool
    ensures { result ≡ (is_name name.now && not (is_reserved name.now)) }
{
    is_name(name) && !is_reserved(name)
}

fn after<T>(items: &[T], count: usize) -> &[T]
    requires { count ≤ length items.now }
    ensures { result.now ≡ drop count items.now }
{
    &items[count..]
}

fn sense_names_fit(senses: &[SenseRow]) -> bool
    ensures { result ≡ names_fit (sense_names senses.now) }
{
    for (k, row) in senses.iter().enumerate() {
        let name = row.name.as_str();
        if !(name_fits(name) && !is_sense(name, after(senses, k + 1))) {
            return false;
        }
    }
    true
}

#[tactic(auto, using(crate::proofs::Names::name_steps))]
fn is_declared(name: &str, regs: &[RegRow], senses: &[SenseRow]) -> bool
    ensures { result ≡ has_name name.now (reg_names regs.now ++ sense_names senses.now) }
{
    is_reg(name, regs) || is_sense(name, senses)
}

fn names_fit(regs: &[RegRow], senses: &[SenseRow]) -> bool
    ensures { result ≡ names_fit (reg_names regs.now ++ sense_names senses.now) }
{
    for (k, row) in regs.iter().enumerate() {
        let name = row.name.as_str();
        if !(name_fits(name) && !is_declared(name, after(regs, k + 1), senses)) {
            return false;
        }
    }
    sense_names_fit(senses)
}

impl Program {
    fn are_few(&self) -> bool
        ensures { result ≡ are_few self.now }
    {
        self.regs.len() <= 16 && self.senses.len() <= 16
    }

    fn is_short(&self) -> bool
        requires { are_few self.now ≡ true }
        ensures { result ≡ is_short self.now }
    {
        self.regs.len() + self.senses.len() + all_lines(self.body.as_slice()) <= 200
            && all_depth(self.body.as_slice()) <= 8
    }

    #[tactic(auto, unfolding(crate::specs::Fits::tree_fits))]
    fn tree_fits(&self, layout: &Layout) -> bool
        requires few { are_few self.now ≡ true }
        requires layout { IsLayout layout.now }
        ensures { result ≡ tree_fits self.now layout.now }
    {
        let classes = layout.classes.as_slice();
        let at_first = Known {
            vars: layout.var_count(),
            regs: self.regs.len(),
            senses: 0,
        };
        let in_body = Known {
            senses: self.senses.len(),
            ..at_first
        };
        self.is_short()
            && (senses_fit(classes, at_first, self.senses.as_slice())
                && stmts_fit(classes, in_body, self.body.as_slice()))
    }

    /// Whether the rule fits a plan with these classes: the names of its registers and senses are names, distinct and
    /// not reserved; there are at most 16 of either; its printed form has at most 200 lines, at most 64 tokens in a
    /// line, and at most 8 `if` open at once; each variable, class and register that is used exists, and an indexed
    /// class has a member; a sense uses only senses before it, and the body only senses that exist.
    #[tactic(auto, unfolding(crate::specs::Fits::fits))]
    pub fn fits(&self, layout: &Layout) -> bool
        requires { IsLayout layout.now }
        ensures { result ≡ fits self.now layout.now }
    {
        if !self.are_few() {
            return false;
        }
        names_fit(self.regs.as_slice(), self.senses.as_slice()) && self.tree_fits(layout)
    }
}

/// A law of the definitions: how the printed forms are counted.
pub fn printed_forms_are_counted(
    op: Op,
    a: &Expr,
    b: &Expr,
    test: &Expr,
    first: &List<Stmt>,
    second: &List<Stmt>,
)
    ensures tokens { tokens_of (Bin op a.now b.now) ≡ 3 + tokens_of a.now + tokens_of b.now }
    ensures alone { second.now ≡ [] → lines_of (If test.now first.now second.now) ≡ 2 + lines_of_all first.now }
    ensures both { (s : Stmt) (more : Seq Stmt) → second.now ≡ s ∷ more →
        lines_of (If test.now first.now second.now) ≡ 3 + lines_of_all first.now + lines_of_all second.now }
    ensures depth { depth_of (If test.now first.now second.now) ≡
        1 + max (depth_of_all first.now) (depth_of_all second.now) }
{}
