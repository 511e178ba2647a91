ghost use Rattle.std.specs.Prelude.{◌≡◌, ◌<◌, ◌^◌, ◌+◌, length, nat_lt};
ghost use Rattle.pm_base.specs.Layouts.{IsLayout, IsMember, IsClassOf, class_row, class_of, member_of, var_count};

use crate::List;

/// The members of a class: the variables from `first` on, `count` of them.
#[derive(Clone, Copy, Debug, PartialEq, Eq)]
pub struct ClassRow {
    pub first: u32,
    pub count: u32,
}

/// The classes of a plan, one after another, from variable 0 on.
#[derive(Debug, Drop)]
pub struct Layout {
    pub classes: List<ClassRow>,
}

impl ClassRow {
    /// The member that an index names: its place is the Euclidean remainder of the index by the count. Where there is
    /// no member it is the class's first number.
    #[tactic(auto, using(crate::proofs::Classes::member_steps))]
    pub fn member(&self, e: i64) -> u32
        requires { self.now.first + self.now.count < 2 ^ 32 }
        ensures { result ≡ member_of self.now e }
    {
        if self.count == 0 {
            self.first
        } else {
            self.first + e.rem_euclid(self.count as i64) as u32
        }
    }
}

impl Layout {
    /// The members of a class; none where there is no such class.
    pub fn class_row(&self, class: u32) -> ClassRow
        ensures { result ≡ class_row self.now.classes class }
    {
        match self.classes.get(class as usize) {
            Some(row) => *row,
            None => ClassRow { first: 0, count: 0 },
        }
    }

    /// The member of a class that an index names: the class's first variable and, from there, the Euclidean remainder
    /// of the index by the class's count. The class exists and has a member.
    #[tactic(auto, using(crate::proofs::Classes::member_steps))]
    pub fn member(&self, class: u32, e: i64) -> u32
        requires layout { IsLayout self.now }
        requires member { 0 < (class_row self.now.classes class).count }
        ensures value { result ≡ member_of (class_row self.now.classes class) e }
        ensures member { IsMember (class_row self.now.classes class) result }
    {
        self.class_row(class).member(e)
    }

    /// How many variables there are.
    pub fn var_count(&self) -> u32
        requires { IsLayout self.now }
        ensures { result ≡ var_count self.now.classes }
    {
        match self.classes.as_slice().last() {
            Some(row) => row.first + row.count,
            None => 0,
        }
    }

    /// The class that holds the variable. The variable exists.
    #[tactic(auto, using(crate::proofs::Classes::class_steps))]
    pub fn class_of(&self, var: u32) -> u32
        requires layout { IsLayout self.now }
        requires exists { var < var_count self.now.classes }
        ensures value { result ≡ class_of self.now.classes var }
        ensures class { IsClassOf self.now.classes var result }
    {
        class_of(self.classes.as_slice(), var)
    }
}

fn ends_past(row: &ClassRow, var: u32) -> bool
    ensures { result ≡ nat_lt var (row.now.first + row.now.count) }
{
    (var as u64) < row.first as u64 + row.count as u64
}

fn class_of(classes: &[ClassRow], var: u32) -> u32
    requires { length classes.now < 2 ^ 32 }
    ensures { result ≡ class_of classes.now var }
{
    for (k, row) in classes.iter().enumerate() {
        if ends_past(row, var) {
            return k as u32;
        }
    }
    classes.len() as u32
}
