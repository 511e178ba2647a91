ghost use Rattle.std.specs.Prelude.{◌≡◌, Some, Ok, List, [], ◌∷◌, ◌++◌, length, map, true};
ghost use Rattle.pm_base.specs.Fits.{fits};
ghost use Rattle.pm_base.specs.Layouts.{var_count};
ghost use Rattle.pm_base.specs.declared.program.Program.{Program as Tree};
ghost use Rattle.pm_rules.specs.Grammar.{IsRule, IsTable, rows_from};
ghost use Rattle.pm_tokens.specs.Lexing.{lex};
ghost use Rattle.pm_tokens.specs.Lines.{lines_of, code, IsOneLine};
ghost use Rattle.pm_print.specs.Printing.{AreWritable, AreWritten, IsNamed, numbered, program_sized};
ghost use Rattle.pm_rules.specs.Reading.{Table, class_rows};
ghost use Rattle.pm_rules.specs.Rules.{parsed};
ghost use Rattle.pm_rules.specs.Samples.{worked_printed, worked_program, worked_table};
ghost use Rattle.pm_rules.specs.Spelling.{program_says, program_scope, spell_said};
ghost use Rattle.pm_print.specs.Printed.{line_text, printed};
ghost use Rattle.pm_tokens.specs.Tokens.{Tok};

/// Laws of the printed form of tokens: the text of a line's tokens is one line without a comment, and is cut into
/// these tokens. The printed form of a worked program is computed from the definitions.
pub fn printed_tokens_are_read()
    ensures worked { printed worked_table worked_program ≡ worked_printed }
    ensures tokens { (ts : List Tok) → AreWritable ts → lex (line_text ts) ≡ Some ts }
    ensures code { (ts : List Tok) → AreWritable ts → code (line_text ts) ≡ line_text ts }
    ensures one_line { (ts : List Tok) → AreWritable ts → IsOneLine (line_text ts) }
{}

/// Laws of the printed form of a program: all tokens of a program that fits can be written; the printed form is its
/// lines' texts, with an empty line behind the last line feed; and its rows are the tokens of what its lines say.
pub fn printed_lines_are_read()
    ensures written { (t : Table) (p : Tree) → IsNamed t → length t.vars ≡ var_count (class_rows t) →
        fits p (record { classes = class_rows t }) ≡ true → program_sized p ≡ true → AreWritten t p }
    ensures lines { (t : Table) (p : Tree) → AreWritten t p →
        lines_of (printed t p) ≡ map (λ s. line_text (spell_said (program_scope t p) s)) (program_says p) ++ [] ∷ [] }
    ensures rows { (t : Table) (p : Tree) → AreWritten t p →
        rows_from 1 (lines_of (printed t p)) ≡
        Some (numbered 1 (map (spell_said (program_scope t p)) (program_says p))) }
{}

/// What is printed is a rule, and reads back: of a program that fits, whose numbers have 64 bits, and of names that are
/// names and distinct.
pub fn printed_rules_read_back()
    ensures rule { (t : Table) (p : Tree) → IsTable t → IsNamed t → fits p (record { classes = class_rows t }) ≡ true →
        program_sized p ≡ true → IsRule t 2 (printed t p) p }
    ensures again { (t : Table) (p : Tree) → IsTable t → IsNamed t → fits p (record { classes = class_rows t }) ≡ true →
        program_sized p ≡ true → parsed t 2 (printed t p) ≡ Ok p }
{}
