// A run on one thread as it goes.
ghost use Rattle.std.specs.Prelude.{◌≡◌, IfOk};
ghost use Rattle.pm_kernel.specs.Engines.{first_run};
ghost use Rattle.pm_plan.specs.Plans.{IsValid};

use crate::course::Course;
use crate::engine::{Engine, Stage};
use pm_base::{Journal, Line, List, Memory};
use pm_plan::Plan;
use std::alloc::Global;
use std::marker::Model;

/// A run whose deliveries the calling thread makes: rounds over the processes in order of number, of one delivery each.
#[derive(Drop)]
pub struct Alone<'a> {
    course: Course<'a>,
    spoilt: bool,
}

impl<'a> Model for Alone<'a> {
    ghost use Rattle.pm_kernel.specs.Courses.{IsAlone, run_of};
    ghost use Rattle.pm_kernel.specs.Engines.{RunView};
    ghost use Rattle.std.specs.Coded.{codes};
    ghost use Rattle.pm_base.specs.contracts.program.Expr as expr;
    ghost use Rattle.pm_base.specs.contracts.program.Stmt as stmt;

    ghost Value = { RunView };

    ghost coded = { Prim.hlevel (codes, expr.the_row.coded, stmt.the_row.coded) };

    ghost view = { λ a. run_of a.course a.spoilt };

    ghost invariant = { λ a. IsAlone a.course a.spoilt };
}

impl<'a> Alone<'a> {
    /// A run before its first event.
    pub fn begin(alloc: Global, plan: &'a Plan) -> Result<Alone<'a>, Memory>
        requires { IsValid plan.now }
        ensures { IfOk result (λ a. a ≡ first_run plan.now) }
    {
        Ok(Alone {
            course: Course::begin(alloc, plan)?,
            spoilt: false,
        })
    }
}

impl<'a> Engine for Alone<'a> {
    ghost view = { λ a. a };

    fn least(&self) -> Line {
        self.course.world.least()
    }

    fn ahead(&self, alloc: Global, count: usize) -> Result<Option<Line>, Memory> {
        self.course.world.ahead(alloc, count)
    }

    fn stage(&mut self, alloc: Global, window: Option<Line>, quota: u64) -> Result<Stage, Memory> {
        let closed = self.course.journal.len();
        self.spoilt = true;
        match self.course.stage(alloc, window, quota) {
            Ok(stage) => {
                self.spoilt = false;
                Ok(stage)
            }
            Err(_) => {
                self.course.journal.truncate(closed);
                Err(Memory)
            }
        }
    }

    fn into_journal(self) -> Journal {
        List::from_vec(self.course.journal)
    }
}
