//! Whole scenarios, whose values were computed by another program from the rule of the generator.
use crate::scenario_of;
use pm_base::Program;
use pm_plan::Plan;
use std::alloc::{AllocError, Global};
use std::test::Fail;

/// Numbers, and their scenarios: each process with its parent, each variable with its place and its value, and each
/// agent with its home, its start and its rule.
const SCENARIOS: &[(u64, &str)] = &[
    (
        0,
        "p0 p1:0 p2:0 p3:1 p4:0 c0:0,1,4 c1:0,4,9 c2:3,2,2 c3:0,0,2 c4:0,8,1 c5:3,4,9 c6:2,8,3 c7:3,1,1 \
        c8:1,2,7 c9:1,0,4 c10:4,3,4 c11:4,4,4 c12:1,9,7 c13:2,1,2 c14:2,7,4 c15:1,6,1 c16:0,7,5 \
        c17:0,0,2 c18:4,9,4 c19:3,3,6 c20:0,2,2 c21:4,6,4 c22:2,8,4 c23:2,2,4 m0:0,0,0 m1:4,0,0 \
        m2:0,0,0 m3:0,0,0 a0:3,5,1 a1:1,5,0 a2:0,0,2 a3:0,0,0 a4:0,1,2 a5:4,0,2 a6:0,0,1 a7:0,2,0 \
        a8:0,3,0 a9:0,5,2 a10:3,3,0 a11:1,4,1 ",
    ),
    (
        1,
        "p0 p1:0 p2:1 p3:0 p4:2 c0:4,5,0 c1:2,9,6 c2:3,2,2 c3:0,4,2 c4:0,5,2 c5:0,7,7 c6:1,0,9 c7:3,4,2 \
        c8:1,8,7 c9:3,8,5 c10:4,2,6 c11:3,6,9 c12:0,2,0 c13:0,1,4 c14:3,1,3 c15:4,2,4 c16:1,4,1 \
        c17:0,8,5 c18:2,0,3 c19:2,8,1 c20:1,5,3 c21:1,2,9 c22:2,1,9 c23:3,5,8 m0:4,0,0 m1:4,0,0 \
        m2:0,0,0 m3:0,0,0 a0:1,3,1 a1:3,2,0 a2:0,3,2 a3:2,6,1 a4:2,6,2 a5:3,5,0 a6:4,0,0 a7:4,6,2 \
        a8:3,5,2 a9:4,6,2 a10:4,0,0 a11:4,1,2 ",
    ),
    (
        u64::MAX,
        "p0 p1:0 p2:1 p3:1 p4:2 c0:4,7,5 c1:2,0,2 c2:3,2,0 c3:3,8,0 c4:1,2,8 c5:2,1,0 c6:1,5,7 c7:2,5,9 \
        c8:0,5,6 c9:2,2,1 c10:4,7,2 c11:0,2,7 c12:4,5,2 c13:2,1,1 c14:3,3,5 c15:3,2,0 c16:1,1,7 \
        c17:1,2,6 c18:1,7,3 c19:1,9,0 c20:2,8,4 c21:3,8,8 c22:2,5,0 c23:3,8,8 m0:1,0,0 m1:0,0,0 \
        m2:3,0,0 m3:4,0,0 a0:0,6,0 a1:4,0,0 a2:2,5,2 a3:0,1,0 a4:4,5,1 a5:2,3,1 a6:2,0,2 a7:3,6,0 \
        a8:3,1,0 a9:4,3,0 a10:4,5,0 a11:4,0,1 ",
    ),
];

/// Which of the three rules it is, by its registers and senses.
fn rule_of(program: &Program) -> u32 {
    if program.regs.len() == 0 {
        2
    } else if program.senses.len() == 2 {
        0
    } else {
        1
    }
}

/// What a plan says.
fn told(alloc: Global, plan: &Plan) -> Result<String, AllocError> {
    let mut text = String::new(alloc);
    for clp in plan.clps.as_slice() {
        let name = clp.name.as_str();
        let row = match clp.parent {
            Some(parent) => format!(in alloc; "{name}:{parent} ")?,
            None => format!(in alloc; "{name} ")?,
        };
        text.push_str(row.as_str())?;
    }
    for var in plan.vars.as_slice() {
        let name = var.name.as_str();
        let row = format!(in alloc; "{name}:{},{},{} ", var.at, var.value.x, var.value.y)?;
        text.push_str(row.as_str())?;
    }
    for agent in plan.agents.as_slice() {
        let name = agent.name.as_str();
        let rule = rule_of(&agent.program);
        let row = format!(in alloc; "{name}:{},{},{rule} ", agent.home, agent.start)?;
        text.push_str(row.as_str())?;
    }
    Ok(text)
}

#[test]
fn scenarios_are_drawn(rt: HostRuntime) -> Result<(), Fail> {
    let alloc = rt.alloc();
    for (number, want) in SCENARIOS {
        let plan = scenario_of(alloc, *number).map_err(|_| AllocError)?;
        assert!(rt; plan.horizon == 60 && plan.move_after == 4);
        let got = told(alloc, &plan)?;
        assert!(rt; got.as_str() == *want, "{number}: {}", got.as_str());
    }
    Ok(())
}
