//! The first messages of the links, and which comes first of all.
ghost use Rattle.std.specs.Prelude.{◌≡◌, ◌<◌, ◌+◌, ℕ, None, Some, IfNone, IfSome};
ghost use Rattle.pm_core.specs.Leasts.{IsBest, IsNextTo, LeadsBelow, LeadsTo};
ghost use Rattle.pm_core.specs.Leasts.{front_lt, front_of, is_moving, link_lt, move_at, move_lt};
ghost use Rattle.pm_mail.specs.Links.{IsIdle};

use pm_base::Stamp;
use pm_mail::Mail;
use pm_message::Message;

/// A link by its receiver and its sender, with what orders its first message among those of other links.
#[derive(Clone, Copy, Debug)]
pub struct Front {
    pub stamp: Stamp,
    pub moves: bool,
    pub to: u32,
    pub from: u32,
}

fn is_moving(message: &Message) -> bool
    ensures { result ≡ is_moving message.now }
{
    match message {
        Message::Move { .. } => true,
        _ => false,
    }
}

fn front_of(to: u32, from: u32, message: &Message) -> Front
    ensures { result ≡ front_of to from message.now }
{
    Front {
        stamp: message.stamp(),
        moves: is_moving(message),
        to,
        from,
    }
}

fn is_lesser_link(a: &Front, b: &Front) -> bool
    ensures { result ≡ link_lt a.now b.now }
{
    a.to < b.to || (a.to == b.to && a.from < b.from)
}

fn moves_before(a: &Front, b: &Front) -> bool
    ensures { result ≡ move_lt a.now b.now }
{
    (a.moves && !b.moves) || (!(b.moves && !a.moves) && is_lesser_link(a, b))
}

fn is_before(a: &Front, b: &Front) -> bool
    ensures { result ≡ front_lt a.now b.now }
{
    let earlier = a.stamp.is_before(&b.stamp);
    earlier || (!b.stamp.is_before(&a.stamp) && moves_before(a, b))
}

// The first message of that link, where it is a Move and not later than that moment.
fn move_at(mail: &Mail, to: u32, stamp: Stamp, from: u32) -> Option<Front>
    ensures { result ≡ move_at mail.now to stamp from }
{
    let Some(message) = mail.first(to, from) else {
        return None;
    };
    if is_moving(message) && !stamp.is_before(&message.stamp()) {
        Some(front_of(to, from, message))
    } else {
        None
    }
}

// Of the first messages from the first so many processes to one, the first that is a Move and not later than that moment.
fn first_move(mail: &Mail, clps: u32, to: u32, stamp: Stamp) -> Option<Front>
    ensures some { IfSome result (λ a. move_at mail.now to stamp a.from ≡ Some a) }
    ensures first { IfSome result (λ a. (g : ℕ) → g < a.from → move_at mail.now to stamp g ≡ None) }
    ensures none { IfNone result ((g : ℕ) → g < clps → move_at mail.now to stamp g ≡ None) }
{
    for from in 0..clps {
        if let Some(front) = move_at(mail, to, stamp, from) {
            return Some(front);
        }
    }
    None
}

// Of the links to that process, the one whose first message comes first by moment, then by sender.
fn next_front(mail: &Mail, to: u32) -> Option<Front>
    ensures some { IfSome result (IsNextTo mail.now to) }
    ensures none { result ≡ None → IsIdle to mail.now }
{
    let Some(from) = mail.next(to) else {
        return None;
    };
    match mail.first(to, from) {
        Some(message) => Some(front_of(to, from, message)),
        None => None,
    }
}

// The same where Moves come first of those of one moment. Only the first `clps` processes send Moves to one another.
fn moves_first(mail: &Mail, clps: u32, found: Front) -> Front
    ensures { (to : ℕ) → IsNextTo mail.now to found → LeadsTo mail.now clps to result }
{
    if found.to >= clps {
        return found;
    }
    match first_move(mail, clps, found.to, found.stamp) {
        Some(front) => front,
        None => found,
    }
}

// The one of two that comes first.
fn lesser(mail: &Mail, clps: u32, best: Front, found: Front) -> Front
    ensures { (k : ℕ) → LeadsBelow mail.now clps k best → IsNextTo mail.now k found →
        LeadsBelow mail.now clps (k + 1) result }
{
    if best.stamp.is_before(&found.stamp) {
        return best;
    }
    let found = moves_first(mail, clps, found);
    if is_before(&found, &best) {
        found
    } else {
        best
    }
}

// The first of the links to the processes below that number, and of those to that process.
fn better(mail: &Mail, clps: u32, best: Option<Front>, to: u32) -> Option<Front>
    ensures { IsBest mail.now clps to best → IsBest mail.now clps (to + 1) result }
{
    let Some(found) = next_front(mail, to) else {
        return best;
    };
    match best {
        Some(best) => Some(lesser(mail, clps, best, found)),
        None => Some(moves_first(mail, clps, found)),
    }
}

/// Of the links to the first `count` processes, the one whose first message comes first. Only the first `clps` processes
/// send Moves to one another. It takes no memory, and looks at each receiver's next message, but at more of its links only
/// where that has the least moment so far.
pub fn least_front(mail: &Mail, clps: u32, count: u32) -> Option<Front>
    ensures { IsBest mail.now clps count result }
{
    let mut best: Option<Front> = None;
    for to in 0..count {
        best = better(mail, clps, best, to);
    }
    best
}
