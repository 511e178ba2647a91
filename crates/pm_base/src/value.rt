ghost use Rattle.std.specs.Prelude.{◌≡◌, false, IsTrue, ◌↔◌};
ghost use Rattle.std.specs.Int.{int_min, int_max};
ghost use Rattle.pm_base.specs.Changes.{applied};
ghost use Rattle.pm_base.specs.Windows.{Inside, IsInverted, IsPair, Within, IsLeastBox, Meets, between, inside};
ghost use Rattle.pm_base.specs.Windows.{is_inverted, join_of, overlap, meets, point_of, whole};

/// What a variable holds: a pair of numbers.
#[derive(Clone, Copy, Debug, PartialEq, Eq)]
pub struct Value {
    pub x: i64,
    pub y: i64,
}

/// The box of the pairs with `x0 <= x <= x1` and `y0 <= y <= y1`. A window with `x1 < x0` or `y1 < y0` is inverted and
/// holds nothing.
#[derive(Clone, Copy, Debug, PartialEq, Eq)]
pub struct Window {
    pub x0: i64,
    pub x1: i64,
    pub y0: i64,
    pub y1: i64,
}

impl Value {
    /// Whether both coordinates are in the box.
    #[tactic(auto, using(crate::proofs::Boxes::coordinates))]
    pub fn inside(&self, w: &Window) -> bool
        ensures { result ≡ inside self.now w.now }
    {
        between(w.x0, self.x, w.x1) && between(w.y0, self.y, w.y1)
    }
}

impl Window {
    /// The box that holds this value alone.
    pub fn point(v: Value) -> Window
        ensures value { result ≡ point_of v }
        ensures alone { (u : Value) → Inside u result ↔ (u ≡ v) }
    {
        Window {
            x0: v.x,
            x1: v.x,
            y0: v.y,
            y1: v.y,
        }
    }

    /// The box that holds every value.
    pub fn whole() -> Window
        ensures value { result ≡ whole }
        ensures all { (v : Value) → IsPair v → Inside v result }
    {
        Window {
            x0: i64::MIN,
            x1: i64::MAX,
            y0: i64::MIN,
            y1: i64::MAX,
        }
    }

    /// Whether the ends stand the wrong way round, so that no value is inside.
    pub fn is_inverted(&self) -> bool
        ensures { result ≡ is_inverted self.now }
    {
        self.x1 < self.x0 || self.y1 < self.y0
    }

    /// The least box that holds what either holds.
    #[tactic(auto, using(crate::proofs::Boxes::coordinates, crate::proofs::Boxes::join_steps))]
    pub fn join(&self, other: &Window) -> Window
        requires this { is_inverted self.now ≡ false }
        requires that { is_inverted other.now ≡ false }
        ensures value { result ≡ join_of self.now other.now }
        ensures least { IsLeastBox self.now other.now result }
    {
        Window {
            x0: lesser(self.x0, other.x0),
            x1: greater(self.x1, other.x1),
            y0: lesser(self.y0, other.y0),
            y1: greater(self.y1, other.y1),
        }
    }

    /// Whether some value is in both.
    #[tactic(auto, using(crate::proofs::Boxes::meets_steps))]
    pub fn meets(&self, other: &Window) -> bool
        ensures value { result ≡ meets self.now other.now }
        ensures some { IsTrue result ↔ Meets self.now other.now }
    {
        meets(self, other)
    }
}

fn between(low: i64, z: i64, high: i64) -> bool
    ensures { result ≡ between low z high }
{
    low <= z && z <= high
}

fn lesser(a: i64, b: i64) -> i64
    ensures { result ≡ int_min a b }
{
    a.min(b)
}

fn greater(a: i64, b: i64) -> i64
    ensures { result ≡ int_max a b }
{
    a.max(b)
}

/// Whether some number is between both pairs of ends.
#[tactic(auto, unfolding(crate::specs::Windows::overlap))]
fn overlap(a0: i64, a1: i64, b0: i64, b1: i64) -> bool
    ensures { result ≡ overlap a0 a1 b0 b1 }
{
    greater(a0, b0) <= lesser(a1, b1)
}

#[tactic(auto, using(crate::proofs::Boxes::coordinates))]
fn meets(a: &Window, b: &Window) -> bool
    ensures { result ≡ meets a.now b.now }
{
    let across = overlap(a.x0, a.x1, b.x0, b.x1);
    let along = overlap(a.y0, a.y1, b.y0, b.y1);
    across && along
}

/// A law of the definitions: each test tells its fact.
pub fn tests_tell_the_box(v: &Value, w: &Window)
    ensures inside { IsTrue (inside v.now w.now) ↔ Inside v.now w.now }
    ensures inverted { IsTrue (is_inverted w.now) ↔ IsInverted w.now }
    ensures nothing { IsInverted w.now → Inside v.now w.now → ⊥ }
{}

/// What a write does to its variable: it sets it to a value, or adds to it.
#[derive(Clone, Copy, Debug, PartialEq, Eq)]
pub enum Change {
    Set(Value),
    Add(Value),
}

impl Change {
    /// The value after the change. Sums are brought back to the ends of 64 bits, each coordinate by itself.
    pub fn apply(&self, v: Value) -> Value
        ensures { result ≡ applied self.now v }
    {
        match self {
            Change::Set(w) => *w,
            Change::Add(w) => Value {
                x: v.x.saturating_add(w.x),
                y: v.y.saturating_add(w.y),
            },
        }
    }
}

/// One change of one variable.
#[derive(Clone, Copy, Debug, PartialEq, Eq)]
pub struct Write {
    pub var: u32,
    pub change: Change,
}

/// A variable that answers a query, with the value that it has there.
#[derive(Clone, Copy, Debug, PartialEq, Eq)]
pub struct Hit {
    pub var: u32,
    pub value: Value,
}

/// What a step asks for: the value of one variable, or the members of a class whose value is inside a window.
#[derive(Clone, Copy, Debug, PartialEq, Eq)]
pub enum Query {
    One { var: u32 },
    Class { class: u32, window: Window },
}

/// The value that a variable has in an interval.
#[derive(Clone, Copy, Debug, PartialEq, Eq)]
pub struct Period {
    pub when: crate::Interval,
    pub value: Value,
}
