ghost use Rattle.std.specs.Prelude.{◌≡◌, ◌↔◌, false, not, IsTrue, IfOk, OnOk, OnErr};
ghost use Rattle.pm_base.specs.Windows.{is_inverted};
ghost use Rattle.pm_ranges.specs.Known.{Grows, IsCovered, bound_at, covers, grown, last_covered, nothing_known, trimmed};

use crate::boxes::lies_in;
use crate::piece::Piece;
use crate::pieces::{bound_of, drop_below, grown, pieces_cover, raised_rest};
use pm_base::{Interval, Line, Memory, Stamp, Window};
use std::alloc::Global;
use std::marker::Model;

/// Which values of one class may stand behind one tree port: at each stamp a window that holds them all, or none where
/// there is nothing. Below the line nothing is asked, and nothing is kept. Contracts see the line and the bound at
/// each stamp, in pieces.
#[derive(Debug, Drop)]
pub struct Bounds {
    line: Line,
    pieces: Vec<Piece>,
    rest: Option<Window>,
}

impl Model for Bounds {
    ghost use Rattle.pm_ranges.specs.Known.{Known};
    ghost use Rattle.pm_ranges.specs.Laid.{IsLaid};

    ghost Value = { Known };

    ghost view = { λ b. record { line = b.line; pieces = b.pieces.items; rest = b.rest } };

    ghost invariant = { λ b. IsLaid b.pieces.items b.rest };
}

impl Bounds {
    /// Nothing grown yet, and the line at the first moment. It takes no memory: `alloc` is where `grow` takes it from.
    pub fn new(alloc: Global) -> Bounds
        ensures { result ≡ nothing_known }
    {
        Bounds {
            line: Line::At(Stamp { time: 0, agent: 0 }),
            pieces: Vec::new(alloc),
            rest: None,
        }
    }

    /// Joins the window to the bounds of the interval, and tells whether that changed one that may be asked for. After
    /// `Memory` nothing changed.
    pub fn grow(&mut self, alloc: Global, when: Interval, window: Window) -> Result<bool, Memory>
        requires { is_inverted window ≡ false }
        ensures bounds { OnOk result (self.new ≡ grown when window self.old) }
        ensures value { IfOk result (λ grew. grew ≡ not (covers self.old when window)) }
        ensures exactly { IfOk result (λ grew. IsTrue grew ↔ Grows when window self.old) }
        ensures line { self.new.line ≡ self.old.line }
        ensures err { OnErr result (self.new ≡ self.old) }
    {
        if self.covers(&when, &window) {
            return Ok(false);
        }
        let pieces = grown(alloc, &when, &window, self.pieces.as_slice(), &self.rest)?;
        self.rest = raised_rest(&when, &window, &self.rest);
        self.pieces = pieces;
        Ok(true)
    }

    /// The join of the windows that were grown over the stamp: none exactly where there is none. Its piece is found by
    /// halving. At a stamp below the line it tells what is left of the pieces there, which means nothing.
    pub fn bound_at(&self, s: Stamp) -> Option<Window>
        ensures { result ≡ bound_at self.now s }
    {
        bound_of(self.pieces.as_slice(), &self.rest, s)
    }

    /// Whether `grow` would change no bound that may be asked for. It looks once at each piece that is kept. A growth
    /// adds at most two pieces, which end where its interval begins and ends, and `trim` drops those below the line.
    pub fn covers(&self, when: &Interval, window: &Window) -> bool
        requires { is_inverted window.now ≡ false }
        ensures value { result ≡ covers self.now when.now window.now }
        ensures exactly { IsTrue result ↔ IsCovered self.now when.now window.now }
    {
        let ends = pieces_cover(&self.line, self.pieces.as_slice(), when, window);
        ends && self.last_covered(when, window)
    }

    /// Whether the window is within the bound at the end of the interval, or behind all pieces where it has no end.
    fn last_covered(&self, when: &Interval, window: &Window) -> bool
        ensures { result ≡ last_covered self.now when.now window.now when.now.until }
    {
        match &when.until {
            None => self.line == Line::End || lies_in(window, &self.rest),
            Some(u) => {
                let bound = bound_of(self.pieces.as_slice(), &self.rest, *u);
                self.line.is_past(*u) || (!when.holds(*u) || lies_in(window, &bound))
            }
        }
    }

    /// Sets the line. The bounds that aren't below it stay. Those below it are no longer kept: a lower line later
    /// brings none of them back. It looks at the pieces that go, whose end is found by halving.
    pub fn trim(&mut self, line: Line)
        ensures { self.new ≡ trimmed line self.old }
    {
        drop_below(&mut self.pieces, &line);
        self.line = line;
    }
}
