//! Laws of spelling and reading, for proofs: each function does nothing, and its contract is the law.

ghost use Rattle.std.specs.Prelude.{◌≡◌, ◌≤◌, List, ℕ, length, ◌++◌, Some, None, true};
ghost use Rattle.pm_base.specs.Fits.{change_tokens, is_known, place_known, place_tokens, sense_tokens, tokens_of};
ghost use Rattle.pm_base.specs.declared.program.Expr.{Expr};
ghost use Rattle.pm_base.specs.declared.program.Place.{Place};
ghost use Rattle.pm_base.specs.declared.program.Sense.{Sense};
ghost use Rattle.pm_rules.specs.Reading.{Scope, after, class_rows, expression, is_dot, is_left, place};
ghost use Rattle.pm_rules.specs.Sayable.{IsScope, extended, is_sayable, known_in};
ghost use Rattle.pm_rules.specs.Spelling.{spell, spell_change, spell_place, spell_said, spell_sense};
ghost use Rattle.pm_rules.specs.Statements.{statement};
ghost use Rattle.pm_tokens.specs.Tokens.{Tok};
ghost use Rattle.pm_rules.specs.declared.said.Said.{Said};

/// What is spelled is read, where the names are distinct within their kind and those of registers and senses may be
/// declared. Behind an expression any tokens may stand but a dot, and behind a place any but a bracket.
pub fn spelled_is_read()
    ensures expressions { (sc : Scope) → IsScope sc → (e : Expr) (n : ℕ) (rest : List Tok) →
        is_known (known_in sc) e ≡ true → tokens_of e ≤ n → after is_dot rest ≡ None →
        expression sc n (spell sc e ++ rest) ≡ Some ((e, true), rest) }
    ensures places { (sc : Scope) → IsScope sc → (p : Place) (rest : List Tok) →
        place_known (class_rows sc.table) (known_in sc) p ≡ true → place_tokens p ≤ 64 → after is_left rest ≡ None →
        place sc (spell_place sc p ++ rest) ≡ Some ((p, true), rest) }
    ensures lines { (sc : Scope) (version : ℕ) → IsScope sc → (s : Said) →
        is_sayable sc version s ≡ true → length (spell_said sc s) ≤ 64 →
        statement sc version (spell_said sc s) ≡ Some (s, true) }
{}

/// What is read with all its names there was spelled, and may be said.
pub fn read_was_spelled()
    ensures expressions { (sc : Scope) (n : ℕ) (ts : List Tok) (e : Expr) (rest : List Tok) →
        expression sc n ts ≡ Some ((e, true), rest) →
        (ts ≡ spell sc e ++ rest) × (is_known (known_in sc) e ≡ true) }
    ensures places { (sc : Scope) (ts : List Tok) (p : Place) (rest : List Tok) →
        place sc ts ≡ Some ((p, true), rest) →
        (ts ≡ spell_place sc p ++ rest) × (place_known (class_rows sc.table) (known_in sc) p ≡ true) }
    ensures lines { (sc : Scope) (version : ℕ) (ts : List Tok) (s : Said) →
        statement sc version ts ≡ Some (s, true) →
        (ts ≡ spell_said sc s) × (is_sayable sc version s ≡ true) }
{}

/// What is spelled in a scope is spelled so too where more registers and senses stand behind those of the scope.
pub fn spelled_in_a_larger_scope()
    ensures expressions { (sc : Scope) (regs senses : List (List ℕ)) (e : Expr) →
        is_known (known_in sc) e ≡ true → spell (extended sc regs senses) e ≡ spell sc e }
    ensures lines { (sc : Scope) (regs senses : List (List ℕ)) (version : ℕ) (s : Said) →
        is_sayable sc version s ≡ true → spell_said (extended sc regs senses) s ≡ spell_said sc s }
{}

/// Each form is spelled in as many tokens as `Program::fits` counts.
pub fn spelled_tokens_are_counted()
    ensures expressions { (sc : Scope) (e : Expr) → length (spell sc e) ≡ tokens_of e }
    ensures places { (sc : Scope) (p : Place) → length (spell_place sc p) ≡ place_tokens p }
    ensures senses { (sc : Scope) (w : List ℕ) (s : Sense) → length (spell_sense sc w s) ≡ sense_tokens s }
    ensures changes { (sc : Scope) (w : List ℕ) (p : Place) (x y : Expr) →
        length (spell_change sc w p x y) ≡ change_tokens p x y }
{}
