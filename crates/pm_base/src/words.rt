ghost use Rattle.std.specs.Prelude.{◌≡◌, codes, length, true, false};
ghost use Rattle.std.specs.List.{list_all};
ghost use Rattle.pm_base.specs.Names.{is_lower, is_word, starts_lower, is_name, is_reserved};

fn is_lower(b: u8) -> bool
    ensures { result ≡ is_lower b }
{
    b >= b'a' && b <= b'z'
}

fn is_word(b: u8) -> bool
    ensures { result ≡ is_word b }
{
    (is_lower(b) || (b >= b'0' && b <= b'9')) || b == b'_'
}

fn starts_lower(bytes: &[u8]) -> bool
    ensures { result ≡ starts_lower bytes.now }
{
    match bytes.first() {
        Some(b) => is_lower(*b),
        None => false,
    }
}

fn all_words(bytes: &[u8]) -> bool
    ensures { result ≡ list_all is_word bytes.now }
{
    bytes.iter().all(|b| is_word(*b))
}

/// Whether the text may name a part of a scenario: 1 to 32 bytes, a letter a to z, then letters a to z, digits and `_`.
#[tactic(auto, unfolding(crate::specs::Names::is_name))]
pub fn is_name(text: &str) -> bool
    ensures { result ≡ is_name text.now }
{
    let bytes = text.as_bytes();
    bytes.len() <= 32 && starts_lower(bytes) && all_words(bytes)
}

/// Whether the text is a word of the rule language that can't be declared as a register or a sense.
#[tactic(auto, unfolding(crate::specs::Names::is_reserved))]
pub fn is_reserved(text: &str) -> bool
    ensures { result ≡ is_reserved text.now }
{
    text == "reg"
        || text == "read"
        || text == "scan"
        || text == "let"
        || text == "if"
        || text == "else"
        || text == "end"
        || text == "set"
        || text == "wait"
        || text == "now"
        || text == "me"
        || text == "min"
        || text == "max"
}

/// A law of the definitions: what is and what isn't a name or a reserved word.
#[tactic(auto, unfolding(crate::specs::Names::is_name, crate::specs::Names::is_reserved))]
pub fn names_are_told()
    ensures begins { (is_name (codes "a_1") ≡ true) × (is_name (codes "1a") ≡ false) × (is_name (codes "_a") ≡ false) }
    ensures bytes { (is_name (codes "aB") ≡ false) × (is_name (codes "a-b") ≡ false) × (is_name (codes "") ≡ false) }
    ensures longest { is_name (codes "a0123456789abcdefghijklmnopqrstu") ≡ true }
    ensures longer { is_name (codes "a0123456789abcdefghijklmnopqrstuv") ≡ false }
    ensures reserved { (is_reserved (codes "max") ≡ true) × (is_reserved (codes "maxi") ≡ false) ×
        (is_reserved (codes "add") ≡ false) }
{}
