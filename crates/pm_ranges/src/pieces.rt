ghost use Rattle.std.specs.Prelude.{◌≡◌, ◌≤◌, ◌&&◌, ◌||◌, not, false, length, drop, slice_get, map, filter, if◌then◌else◌, Some, IfOk};
ghost use Rattle.std.specs.Option.{option_copied};
ghost use Rattle.pm_base.specs.Stamps.{holds, is_below};
ghost use Rattle.pm_base.specs.Windows.{is_inverted};
ghost use Rattle.pm_ranges.specs.Joins.{joined, lies_in};
ghost use Rattle.pm_ranges.specs.Known.{bound_of, grown_pieces, parted, parted_at, raised, raised_one, raised_rest};
ghost use Rattle.pm_ranges.specs.Laid.{AllUpright, Rising, Upright, before, ends_at, piece_covers, pieces_cover};

use crate::boxes::{joined, lies_in};
use crate::piece::Piece;
use pm_base::{Interval, Line, Memory, Stamp, Window};
use std::alloc::Global;

/// How many pieces end before the stamp.
fn before(pieces: &[Piece], s: Stamp) -> usize
    requires { Rising pieces.now }
    ensures bound { result ≤ length pieces.now }
    ensures value { result ≡ before s pieces.now }
{
    pieces.partition_point(|p| p.until.is_before(&s))
}

fn piece_at(pieces: &[Piece], place: usize) -> Option<&Piece>
    ensures { option_copied result ≡ slice_get pieces.now place }
{
    pieces.get(place)
}

/// The bound at the stamp.
pub fn bound_of(pieces: &[Piece], rest: &Option<Window>, s: Stamp) -> Option<Window>
    requires { Rising pieces.now }
    ensures { result ≡ bound_of pieces.now rest.now s }
{
    match piece_at(pieces, before(pieces, s)) {
        Some(piece) => piece.window,
        None => *rest,
    }
}

/// Whether the window is within the bounds of all pieces that may be asked for.
pub fn pieces_cover(line: &Line, pieces: &[Piece], when: &Interval, window: &Window) -> bool
    ensures { result ≡ pieces_cover line.now when.now window.now pieces.now }
{
    for piece in pieces {
        if !piece_covers(line, piece, when, window) {
            return false;
        }
    }
    true
}

fn piece_covers(line: &Line, piece: &Piece, when: &Interval, window: &Window) -> bool
    ensures { result ≡ piece_covers line.now when.now window.now piece.now }
{
    line.is_past(piece.until) || (!when.holds(piece.until) || lies_in(window, &piece.window))
}

/// A copy of the pieces, with one that ends at this stamp.
fn parted(
    alloc: Global,
    e: Stamp,
    pieces: &[Piece],
    rest: &Option<Window>,
) -> Result<Vec<Piece>, Memory>
    requires { Rising pieces.now }
    ensures { IfOk result (λ parts. parts.items ≡ parted e pieces.now rest.now) }
{
    let mut parts = Vec::from_slice(alloc, pieces)?;
    let place = before(pieces, e);
    if ends_at(pieces, place, e) {
        return Ok(parts);
    }
    let window = bound_of(pieces, rest, e);
    parts.insert(place, Piece { until: e, window })?;
    Ok(parts)
}

fn ends_at(pieces: &[Piece], place: usize, e: Stamp) -> bool
    ensures { result ≡ ends_at e (drop place pieces.now) }
{
    match pieces.get(place) {
        Some(piece) => piece.until == e,
        None => false,
    }
}

/// The same where there may be no such stamp.
fn parted_at(
    alloc: Global,
    at: &Option<Stamp>,
    pieces: &[Piece],
    rest: &Option<Window>,
) -> Result<Vec<Piece>, Memory>
    requires { Rising pieces.now }
    ensures { IfOk result (λ parts. parts.items ≡ parted_at at.now pieces.now rest.now) }
{
    match at {
        Some(e) => parted(alloc, *e, pieces, rest),
        None => Ok(Vec::from_slice(alloc, pieces)?),
    }
}

/// A copy of the pieces, in which the window is joined to the bounds of the interval.
pub fn grown(
    alloc: Global,
    when: &Interval,
    window: &Window,
    pieces: &[Piece],
    rest: &Option<Window>,
) -> Result<Vec<Piece>, Memory>
    requires window { is_inverted window.now ≡ false }
    requires rising { Rising pieces.now }
    requires upright { AllUpright pieces.now }
    requires rest { Upright rest.now }
    ensures { IfOk result (λ g. g.items ≡ grown_pieces when.now window.now pieces.now rest.now) }
{
    let first = parted_at(alloc, &when.from, pieces, rest)?;
    let mut pieces = parted_at(alloc, &when.until, first.as_slice(), rest)?;
    raise(&mut pieces, when, window);
    Ok(pieces)
}

/// Joins the window to the pieces whose ends the interval holds.
fn raise(pieces: &mut Vec<Piece>, when: &Interval, window: &Window)
    requires window { is_inverted window.now ≡ false }
    requires upright { AllUpright pieces.old.items }
    ensures { pieces.new.items ≡ raised when.now window.now pieces.old.items }
{
    for at in 0..pieces.len() {
        pieces[at] = raised_one(&pieces[at], when, window);
    }
}

fn raised_one(piece: &Piece, when: &Interval, window: &Window) -> Piece
    requires window { is_inverted window.now ≡ false }
    requires piece { Upright piece.now.window }
    ensures { result ≡ raised_one when.now window.now piece.now }
{
    if !when.holds(piece.until) {
        return *piece;
    }
    Piece {
        until: piece.until,
        window: Some(joined(window, &piece.window)),
    }
}

/// Joins the window to the bound behind all pieces, where the interval has no end.
pub fn raised_rest(when: &Interval, window: &Window, rest: &Option<Window>) -> Option<Window>
    requires window { is_inverted window.now ≡ false }
    requires rest { Upright rest.now }
    ensures { result ≡ raised_rest when.now window.now rest.now }
{
    match when.until {
        Some(_) => *rest,
        None => Some(joined(window, rest)),
    }
}

/// How many pieces end below the line.
fn below(pieces: &[Piece], line: &Line) -> usize
    requires { Rising pieces.now }
    ensures within { result ≤ length pieces.now }
    ensures others { drop result pieces.now ≡ filter (λ p. not (is_below p.until line.now)) pieces.now }
{
    pieces.partition_point(|p| line.is_past(p.until))
}

/// Drops the first so many pieces, and moves up the others, where there is one to drop.
fn drop_first(pieces: &mut Vec<Piece>, count: usize)
    requires { count ≤ length pieces.old.items }
    ensures { pieces.new.items ≡ drop count pieces.old.items }
{
    if count > 0 {
        drop(pieces.drain(..count));
    }
}

/// Drops the pieces that end below the line. They stand first, and their end is found by halving.
pub fn drop_below(pieces: &mut Vec<Piece>, line: &Line)
    requires { Rising pieces.old.items }
    ensures { pieces.new.items ≡ filter (λ p. not (is_below p.until line.now)) pieces.old.items }
{
    let count = below(pieces.as_slice(), line);
    drop_first(pieces, count);
}
