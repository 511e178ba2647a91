ghost use Rattle.std.specs.Prelude.{◌≡◌, IsTrue, ◌↔◌};
ghost use Rattle.pm_base.specs.Stamps.{IsBefore, IsBelow, IsStrictOrder, IsLeast, IsWithin, ordering_by, stamp_lt};
ghost use Rattle.pm_base.specs.Stamps.{is_below, line_lt, num_lt, or_lower, least_line_of, holds};

/// The moment of one step: a time, and the number of the agent that acts at it. An agent does at most one step at a
/// time, so a stamp names one step. Stamps are ordered by time, then by agent.
#[derive(Clone, Copy, Debug, PartialEq, Eq, PartialOrd, Ord)]
pub struct Stamp {
    pub time: u64,
    pub agent: u32,
}

/// A bound between stamps: a stamp is below it where it is less than the line's stamp; every stamp is below the end.
/// Lines are ordered by their stamps, and the end is above every other line.
#[derive(Clone, Copy, Debug, PartialEq, Eq, PartialOrd, Ord)]
pub enum Line {
    At(Stamp),
    End,
}

/// The number of a message that an agent sent: the agent, and how many it had sent before. Numbers are ordered by
/// agent, then by how many were sent before.
#[derive(Clone, Copy, Debug, PartialEq, Eq, PartialOrd, Ord)]
pub struct Num {
    pub agent: u32,
    pub seq: u64,
}

/// The stamps after `from` up to `until`, that one included. Where an end is absent, the interval has no end there.
#[derive(Clone, Copy, Debug, PartialEq, Eq)]
pub struct Interval {
    pub from: Option<Stamp>,
    pub until: Option<Stamp>,
}

impl Stamp {
    /// Whether this moment comes before the other.
    pub fn is_before(&self, other: &Stamp) -> bool
        ensures { result ≡ stamp_lt self.now other.now }
    {
        self < other
    }
}

impl Num {
    /// Whether this number comes before the other.
    pub fn is_before(&self, other: &Num) -> bool
        ensures { result ≡ num_lt self.now other.now }
    {
        self < other
    }
}

impl Line {
    /// Whether this line is lower than the other.
    pub fn is_lower(&self, other: &Line) -> bool
        ensures { result ≡ line_lt self.now other.now }
    {
        self < other
    }

    /// Whether the stamp is below the line.
    pub fn is_past(&self, s: Stamp) -> bool
        ensures { result ≡ is_below s self.now }
    {
        match self {
            Line::At(t) => s.is_before(t),
            Line::End => true,
        }
    }

    /// The least of the stamps, or the end where there is none.
    pub fn least(stamps: &[Stamp]) -> Line
        ensures value { result ≡ least_line_of stamps.now }
        ensures least { IsLeast stamps.now result }
    {
        let mut least = Line::End;
        for s in stamps {
            least = or_lower(*s, least);
        }
        least
    }
}

fn or_lower(s: Stamp, line: Line) -> Line
    ensures { result ≡ or_lower s line }
{
    if line.is_past(s) { Line::At(s) } else { line }
}

impl Interval {
    /// Whether the stamp is in the interval.
    pub fn holds(&self, s: Stamp) -> bool
        ensures { result ≡ holds self.now s }
    {
        let after = match &self.from {
            Some(from) => from.is_before(&s),
            None => true,
        };
        let until = match &self.until {
            Some(until) => !until.is_before(&s),
            None => true,
        };
        after && until
    }
}

/// A law of the definitions: moments, lines and numbers each stand in one order.
pub fn orders_are_strict()
    ensures stamps { IsStrictOrder stamp_lt }
    ensures lines { IsStrictOrder line_lt }
    ensures numbers { IsStrictOrder num_lt }
{}

/// A law of the definitions: comparing answers by these orders.
pub fn comparing_follows_the_orders()
    ensures stamps { (a b : Stamp) → ⟦<Stamp as Ord>⟧.cmp a b ≡ ordering_by stamp_lt a b }
    ensures lines { (a b : Line) → ⟦<Line as Ord>⟧.cmp a b ≡ ordering_by line_lt a b }
    ensures numbers { (a b : Num) → ⟦<Num as Ord>⟧.cmp a b ≡ ordering_by num_lt a b }
{}

/// A law of the definitions: each test tells its fact.
pub fn tests_tell_the_order(a: Stamp, b: Stamp, line: Line, when: Interval)
    ensures before { IsTrue (stamp_lt a b) ↔ IsBefore a b }
    ensures below { IsTrue (is_below a line) ↔ IsBelow a line }
    ensures within { IsTrue (holds when a) ↔ IsWithin a when }
{}
