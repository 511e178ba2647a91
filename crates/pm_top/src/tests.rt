use crate::plain;
use pm_io::{MemSink, MemSource};
use std::alloc::AllocError;
use std::test::Fail;

/// One agent that counts at the times 0, 1 and 2.
const COUNTER: &str =
    "version = 1\nhorizon = 2\n[[clp]]\nname = \"root\"\n[[class]]\nname = \"cell\"\n[[class.var]]\nname = \"c0\"\nat = \"root\"\n[[agent]]\nname = \"ant\"\nhome = \"root\"\nrule = \"\"\"\nread a = c0\nset c0 = (a.x + 1), 0\n\"\"\"\n";

const TWO_LINES: &str = "0 ant [c0=0,0] c0:=1,0\n1 ant [c0=1,0] c0:=2,0\n";

const TRACE: &str =
    "0 ant [c0=0,0] c0:=1,0\n1 ant [c0=1,0] c0:=2,0\n2 ant [c0=2,0] c0:=3,0\nend 3\n";

const SPENT: &str = "pdesmas: the budget is spent\n";

#[test]
fn budgets_of_a_run(rt: HostRuntime) -> Result<(), Fail> {
    let alloc = rt.alloc();
    let rows = [
        ("3", 0, TRACE, ""),
        ("2", 3, TWO_LINES, SPENT),
        ("0", 3, "", SPENT),
    ];
    for (budget, status, output, told) in rows {
        let mut words = Vec::new(alloc);
        for word in ["seq", "--budget", budget] {
            words.push(String::from_str(alloc, word)?)?;
        }
        let text = Vec::from_slice(alloc, COUNTER.as_bytes())?;
        let mut input = MemSource::new(text, Vec::new(alloc));
        let mut out = MemSink::new(alloc, Vec::new(alloc));
        let mut err = MemSink::new(alloc, Vec::new(alloc));
        let report = plain(alloc, &words, &mut input, &mut out, &mut err);
        if out.wants() > 0 || err.wants() > 0 {
            return Err(AllocError.into());
        }
        assert_eq!(rt; report.status, status);
        assert!(rt; out.bytes() == output.as_bytes());
        assert!(rt; err.bytes() == told.as_bytes());
    }
    Ok(())
}
