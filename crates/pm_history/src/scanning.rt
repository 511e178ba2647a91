ghost use Rattle.std.specs.Prelude.{◌≡◌, ◌≤◌, ◌<◌, ◌^◌, IfSome, length, option_map};
ghost use Rattle.pm_history.specs.Scans.{after, at_most, commit_at, deliver_at, digits_len, event_at, is_plain, number_at, pair_at};

use pm_base::{Event, Line, Stamp};

fn digits_len(text: &[u8]) -> usize
    ensures value { result ≡ digits_len text.now }
    ensures within { result ≤ length text.now }
{
    for (i, b) in text.iter().enumerate() {
        if !b.is_ascii_digit() {
            return i;
        }
    }
    text.len()
}

/// Whether there are digits, and no needless zero before them.
fn is_plain(digits: &[u8]) -> bool
    ensures { result ≡ is_plain digits.now }
{
    match digits {
        [] => false,
        [_] => true,
        [first, ..] => *first != b'0',
    }
}

#[tactic(auto, unfolding(crate::specs::Scans::at_most))]
fn at_most(most: u64, digits: &[u8]) -> Option<u64>
    ensures value { result ≡ at_most most digits.now }
    ensures within { IfSome result (λ n. n ≤ most) }
{
    let mut n = 0u64;
    for c in digits {
        let more = n as u128 * 10 + c.saturating_sub(48) as u128;
        if more > most as u128 {
            return None;
        }
        n = more as u64;
    }
    Some(n)
}

/// The number at the front, which is at most `most`, and what comes after it.
#[tactic(auto, unfolding(crate::specs::Scans::number_at))]
fn number(most: u64, text: &[u8]) -> Option<(u64, &[u8])>
    ensures value { option_map (λ r. (r.0, r.1.now)) result ≡ number_at most text.now }
    ensures within { IfSome result (λ r. r.0 ≤ most) }
{
    let (digits, rest) = text.split_at(digits_len(text));
    if !is_plain(digits) {
        return None;
    }
    let n = at_most(most, digits)?;
    Some((n, rest))
}

/// What comes after this word, where the text begins with it.
#[tactic(auto, unfolding(crate::specs::Scans::after))]
fn after<'a>(word: &[u8], text: &'a [u8]) -> Option<&'a [u8]>
    ensures { option_map (λ r. r.now) result ≡ after word.now text.now }
{
    if text.starts_with(word) {
        Some(&text[word.len()..])
    } else {
        None
    }
}

/// Two numbers with a space between them and a line feed behind them, and what comes after.
#[tactic(auto, unfolding(crate::specs::Scans::pair_at))]
fn pair(most: u64, text: &[u8]) -> Option<(u64, u32, &[u8])>
    ensures value { option_map (λ r. (r.0, r.1, r.2.now)) result ≡ pair_at most text.now }
    ensures within { IfSome result (λ r. r.0 ≤ most) }
{
    let (first, rest) = number(most, text)?;
    let rest = after(b" ", rest)?;
    let (second, rest) = number(u32::MAX as u64, rest)?;
    let rest = after(b"\n", rest)?;
    Some((first, second as u32, rest))
}

#[tactic(auto, unfolding(crate::specs::Scans::deliver_at))]
fn deliver(text: &[u8]) -> Option<(Event, &[u8])>
    ensures { option_map (λ r. (r.0, r.1.now)) result ≡ deliver_at text.now }
{
    let rest = after(b"#j d ", text)?;
    let (to, from, rest) = pair(u32::MAX as u64, rest)?;
    let event = Event::Deliver {
        to: to as u32,
        from,
    };
    Some((event, rest))
}

#[tactic(auto, unfolding(crate::specs::Scans::commit_at))]
fn commit(text: &[u8]) -> Option<(Event, &[u8])>
    ensures { option_map (λ r. (r.0, r.1.now)) result ≡ commit_at text.now }
{
    let rest = after(b"#j c ", text)?;
    if let Some((time, agent, rest)) = pair(u64::MAX, rest) {
        let line = Line::At(Stamp { time, agent });
        return Some((Event::Commit { line }, rest));
    }
    let rest = after(b"end\n", rest)?;
    Some((Event::Commit { line: Line::End }, rest))
}

/// The event whose line stands at the front, and what comes after it.
#[tactic(auto, unfolding(crate::specs::Scans::event_at))]
pub fn event(text: &[u8]) -> Option<(Event, &[u8])>
    ensures { option_map (λ r. (r.0, r.1.now)) result ≡ event_at text.now }
{
    if let Some(found) = deliver(text) {
        return Some(found);
    }
    commit(text)
}
