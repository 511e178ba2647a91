ghost use Rattle.std.specs.Prelude.{None};

use crate::modes::{MODES, WRITTEN};
use crate::rows::{FORAGER_LINES, FORAGERS, ROWS, WHOLE, WRONG};
use pm_io::{Cue, Failed, FreeGate, MemSink, MemSource, Source};
use pm_top::{plain, top};
use std::alloc::{AllocError, Global};
use std::test::Fail;

/// One agent that counts up to the horizon.
pub const COUNTER: &str =
    "version = 1\nhorizon = 2\n[[clp]]\nname = \"root\"\n[[class]]\nname = \"cell\"\n[[class.var]]\nname = \"c0\"\nat = \"root\"\n[[agent]]\nname = \"ant\"\nhome = \"root\"\nrule = \"\"\"\nread a = c0\nset c0 = (a.x + 1), 0\n\"\"\"\n";

/// What the counter prints up to its second step.
pub const TWO_LINES: &str = "0 ant [c0=0,0] c0:=1,0\n1 ant [c0=1,0] c0:=2,0\n";

/// The whole of it.
pub const TRACE: &str =
    "0 ant [c0=0,0] c0:=1,0\n1 ant [c0=1,0] c0:=2,0\n2 ant [c0=2,0] c0:=3,0\nend 3\n";

const THREE_LINES: &str =
    "0 ant [c0=0,0] c0:=1,0\n1 ant [c0=1,0] c0:=2,0\n2 ant [c0=2,0] c0:=3,0\n";

/// One byte at each call.
const BYTES: [Cue; 400] = [Cue::Take(1); 400];

/// The status for want of memory, which no test awaits.
const MEMORY: u8 = 6;

const WORDS: &str = "pdesmas: the words are not understood\n";

/// The line of a budget that is spent.
pub const SPENT: &str = "pdesmas: the budget is spent\n";

const READ_FAULT: &str = "pdesmas: the input cannot be read\n";

/// The line of an output that failed.
pub const WRITE_FAULT: &str = "pdesmas: the output cannot be written\n";

/// A call of the counter over devices of these cues, and what it has to leave.
struct Case {
    name: &'static str,
    words: &'static [&'static str],
    input: &'static [Cue],
    out: &'static [Cue],
    err: &'static [Cue],
    status: u8,
    written: &'static str,
    told: &'static str,
}

/// The counter over devices that never fail.
const GOOD: Case = Case {
    name: "counter",
    words: &["seq"],
    input: &[],
    out: &[],
    err: &[],
    status: 0,
    written: TRACE,
    told: "",
};

/// Devices that give or take a part, or fail.
const DEVICES: [Case; 8] = [
    Case {
        name: "one byte at a time",
        input: &BYTES,
        out: &BYTES,
        ..GOOD
    },
    Case {
        name: "the third put fails",
        out: &[Cue::All, Cue::All, Cue::Fail],
        status: 5,
        written: TWO_LINES,
        told: WRITE_FAULT,
        ..GOOD
    },
    Case {
        name: "the first put takes nothing",
        out: &[Cue::Take(0)],
        status: 5,
        written: "",
        told: WRITE_FAULT,
        ..GOOD
    },
    Case {
        name: "the first take fails",
        input: &[Cue::Fail],
        status: 4,
        written: "",
        told: READ_FAULT,
        ..GOOD
    },
    Case {
        name: "the second take fails",
        input: &[Cue::Take(9), Cue::Fail],
        status: 4,
        written: "",
        told: READ_FAULT,
        ..GOOD
    },
    Case {
        name: "a take behind the whole input fails",
        input: &[Cue::All, Cue::Fail],
        status: 4,
        written: "",
        told: READ_FAULT,
        ..GOOD
    },
    Case {
        name: "the error line fails",
        input: &[Cue::Fail],
        err: &[Cue::Take(9), Cue::Fail],
        status: 4,
        written: "",
        told: "pdesmas: ",
        ..GOOD
    },
    Case {
        name: "the error line of refused words fails at once",
        words: &["fly"],
        err: &[Cue::Fail],
        status: 1,
        written: "",
        told: "",
        ..GOOD
    },
];

/// The journal of the counter's run with epochs of five deliveries, behind its trace.
const FIVES: &str =
    "0 ant [c0=0,0] c0:=1,0\n1 ant [c0=1,0] c0:=2,0\n2 ant [c0=2,0] c0:=3,0\nend 3\n#j d 1 1\n#j d 0 1\n#j d 1 0\n#j d 0 1\n#j d 1 1\n#j c 1 0\n#j d 0 1\n#j d 1 0\n#j d 0 1\n#j d 1 1\n#j d 0 1\n#j c 2 0\n#j d 1 0\n#j d 0 1\n#j c end\n";

/// The same with a window of one time: a Commit first, and one behind each step.
const WINDOWED: &str =
    "0 ant [c0=0,0] c0:=1,0\n1 ant [c0=1,0] c0:=2,0\n2 ant [c0=2,0] c0:=3,0\nend 3\n#j c 0 0\n#j d 1 1\n#j d 0 1\n#j d 1 0\n#j d 0 1\n#j c 1 0\n#j d 1 1\n#j d 0 1\n#j d 1 0\n#j d 0 1\n#j c 2 0\n#j d 1 1\n#j d 0 1\n#j d 1 0\n#j d 0 1\n#j c end\n";

/// Optimistic runs on one thread: journals, budgets of deliveries, and devices that fail.
const RUNS: [Case; 12] = [
    Case {
        name: "an epoch of five",
        words: &["run", "--workers", "0", "--epoch", "5", "--journal"],
        written: FIVES,
        ..GOOD
    },
    Case {
        name: "a window of one",
        words: &[
            "run",
            "--workers",
            "0",
            "--window",
            "1",
            "--epoch",
            "5",
            "--journal",
        ],
        written: WINDOWED,
        ..GOOD
    },
    Case {
        name: "no delivery",
        words: &["run", "--workers", "0", "--budget", "0"],
        status: 3,
        written: "",
        told: SPENT,
        ..GOOD
    },
    Case {
        name: "a delivery too few",
        words: &["run", "--workers", "0", "--budget", "11"],
        status: 3,
        written: TWO_LINES,
        told: SPENT,
        ..GOOD
    },
    Case {
        name: "as many deliveries as it takes",
        words: &["run", "--workers", "0", "--budget", "12"],
        ..GOOD
    },
    Case {
        name: "the first put of a run fails",
        words: &["run", "--workers", "0"],
        out: &[Cue::Fail],
        status: 5,
        written: "",
        told: WRITE_FAULT,
        ..GOOD
    },
    Case {
        name: "the second put of a run fails",
        words: &["run", "--workers", "0"],
        out: &[Cue::All, Cue::Fail],
        status: 5,
        written: "0 ant [c0=0,0] c0:=1,0\n",
        told: WRITE_FAULT,
        ..GOOD
    },
    Case {
        name: "the end line of a run fails",
        words: &["run", "--workers", "0"],
        out: &[Cue::All, Cue::All, Cue::All, Cue::Fail],
        status: 5,
        written: THREE_LINES,
        told: WRITE_FAULT,
        ..GOOD
    },
    Case {
        name: "nothing of a run's end line is taken",
        words: &["run", "--workers", "0"],
        out: &[Cue::All, Cue::All, Cue::All, Cue::Take(0)],
        status: 5,
        written: THREE_LINES,
        told: WRITE_FAULT,
        ..GOOD
    },
    Case {
        name: "a part of a run's first line is taken",
        words: &["run", "--workers", "0"],
        out: &[Cue::Take(5), Cue::Fail],
        status: 5,
        written: "0 ant",
        told: WRITE_FAULT,
        ..GOOD
    },
    Case {
        name: "a run, one byte at a time",
        words: &["run", "--workers", "0"],
        input: &BYTES,
        out: &BYTES,
        ..GOOD
    },
    Case {
        name: "the first line of a journal fails",
        words: &["run", "--workers", "0", "--journal"],
        out: &[Cue::All, Cue::All, Cue::All, Cue::All, Cue::Fail],
        status: 5,
        told: WRITE_FAULT,
        ..GOOD
    },
];

/// Words that are refused where there are no threads: the last four want some.
const REFUSED_WORDS: [&[&str]; 24] = [
    &[],
    &["fly"],
    &["seq", "seq"],
    &["seq", "--workers", "65"],
    &["seq", "--budget", "x"],
    &["seq", "--epoch", "0"],
    &["seq", "--seed", "1", "--seed", "2"],
    &["run", "--workers", "65"],
    &["run", "--seed", "1", "--seed", "2"],
    &["seq", "--budget", "-1"],
    &["seq", "--budget", "000000000000000000007"],
    &["seq", "--budget", "20000001"],
    &["seq", "--budget"],
    &["seq", "--window", "0"],
    &["seq", "--from", "1000000000001"],
    &["seq", "--journal=x"],
    &["--help"],
    &["-h"],
    &["--version"],
    &["help"],
    &["run"],
    &["run", "--workers", "1"],
    &["demo"],
    &["demo", "--workers=64"],
];

/// Words that ask for the whole trace.
const SEQ_WORDS: [&[&str]; 8] = [
    &["seq"],
    &["seq", "--workers", "4"],
    &["--workers=2", "seq"],
    &["--", "seq"],
    &["seq", "--budget", "3"],
    &["seq", "--budget", "00000000000000000007"],
    &["--journal", "seq", "--seed=18446744073709551615"],
    &["--epoch=1", "--window=1", "seq", "--from", "0"],
];

/// Words that ask for an optimistic run of it on one thread, which prints the same.
const RUN_WORDS: [&[&str]; 4] = [
    &["--workers=0", "run"],
    &["run", "--workers=0", "--epoch", "1"],
    &["run", "--workers=0", "--window", "50"],
    &[
        "--window=1",
        "run",
        "--workers=0",
        "--seed=1",
        "--from",
        "0",
    ],
];

/// The words, each as a text of its own.
pub fn words_of(alloc: Global, words: &[&str]) -> Result<Vec<String>, AllocError> {
    let mut all = Vec::new(alloc);
    for word in words {
        all.push(String::from_str(alloc, word)?)?;
    }
    Ok(all)
}

/// Devices in memory: the scenario's text, and the cues of each.
#[derive(Drop)]
pub struct Devices {
    pub input: MemSource,
    pub out: MemSink,
    pub err: MemSink,
}

/// Devices of these cues over the scenario's text.
pub fn devices_of(
    alloc: Global,
    text: &str,
    input: Vec<Cue>,
    out: Vec<Cue>,
    err: Vec<Cue>,
) -> Result<Devices, AllocError> {
    Ok(Devices {
        input: MemSource::new(Vec::from_slice(alloc, text.as_bytes())?, input),
        out: MemSink::new(alloc, out),
        err: MemSink::new(alloc, err),
    })
}

/// Devices that never fail, over these bytes.
pub fn good_devices(alloc: Global, input: Vec<u8>) -> Devices {
    Devices {
        input: MemSource::new(input, Vec::new(alloc)),
        out: MemSink::new(alloc, Vec::new(alloc)),
        err: MemSink::new(alloc, Vec::new(alloc)),
    }
}

/// What a call left: its status, and what was written to the output and to the error output.
#[derive(Drop)]
pub struct Left {
    pub status: u8,
    pub out: MemSink,
    pub err: MemSink,
}

impl Left {
    /// Whether it is this.
    pub fn is(&self, status: u8, written: &str, told: &str) -> bool {
        let texts = self.out.bytes() == written.as_bytes() && self.err.bytes() == told.as_bytes();
        self.status == status && texts
    }

    /// Whether another call left the same.
    pub fn is_like(&self, other: &Left) -> bool {
        let texts = self.out.bytes() == other.out.bytes() && self.err.bytes() == other.err.bytes();
        self.status == other.status && texts
    }
}

/// What a call left, unless memory ran out: in the call, or in a sink, whose own fault that is.
pub fn left_of(status: u8, out: MemSink, err: MemSink) -> Result<Left, AllocError> {
    if status == MEMORY || out.wants() > 0 || err.wants() > 0 {
        return Err(AllocError);
    }
    Ok(Left { status, out, err })
}

/// Calls the program with these words, where there are no threads.
fn run(alloc: Global, words: &[&str], devices: Devices) -> Result<Left, AllocError> {
    let words = words_of(alloc, words)?;
    let Devices {
        mut input,
        mut out,
        mut err,
    } = devices;
    let report = plain(alloc, &words, &mut input, &mut out, &mut err);
    left_of(report.status, out, err)
}

/// The same with devices that never fail.
fn run_bytes(alloc: Global, words: &[&str], input: Vec<u8>) -> Result<Left, AllocError> {
    run(alloc, words, good_devices(alloc, input))
}

/// The same with a text.
pub fn run_words(alloc: Global, words: &[&str], text: &str) -> Result<Left, AllocError> {
    run_bytes(alloc, words, Vec::from_slice(alloc, text.as_bytes())?)
}

/// The same with one word.
fn run_text(alloc: Global, word: &str, text: &str) -> Result<Left, AllocError> {
    run_words(alloc, &[word], text)
}

/// The name of the first case that left something else.
fn other_than_told(alloc: Global, cases: &[Case]) -> Result<Option<&'static str>, AllocError> {
    for case in cases {
        let input = Vec::from_slice(alloc, case.input)?;
        let out = Vec::from_slice(alloc, case.out)?;
        let err = Vec::from_slice(alloc, case.err)?;
        let left = run(
            alloc,
            case.words,
            devices_of(alloc, COUNTER, input, out, err)?,
        )?;
        if !left.is(case.status, case.written, case.told) {
            return Ok(Some(case.name));
        }
    }
    Ok(None)
}

/// Gives one space at each call, without end, and keeps how it was asked.
#[derive(Drop)]
struct Endless {
    takes: u64,
    widest: usize,
}

impl Source for Endless {
    ghost held = { λ _. None };

    ghost faults = { λ _. 0 };

    fn take(&mut self, buf: &mut [u8]) -> Result<usize, Failed> {
        self.takes = self.takes.saturating_add(1);
        self.widest = self.widest.max(buf.len());
        match buf.first_mut() {
            Some(place) => {
                *place = b' ';
                Ok(1)
            }
            None => Ok(0),
        }
    }
}

#[test]
fn pieces_are_few_and_small(rt: HostRuntime) -> Result<(), Fail> {
    let alloc = rt.alloc();
    let words = words_of(alloc, &["seq"])?;
    let mut input = Endless {
        takes: 0,
        widest: 0,
    };
    let mut out = MemSink::new(alloc, Vec::new(alloc));
    let mut err = MemSink::new(alloc, Vec::new(alloc));
    let report = plain(alloc, &words, &mut input, &mut out, &mut err);
    assert_eq!(rt; report.status, 2);
    assert_eq!(rt; input.takes, 4_194_305);
    assert_eq!(rt; input.widest, 65_536);
    Ok(())
}

#[test]
fn the_counter_through_top(rt: HostRuntime) -> Result<(), Fail> {
    let alloc = rt.alloc();
    let words = words_of(alloc, &["seq"])?;
    let bytes = Vec::from_slice(alloc, COUNTER.as_bytes())?;
    let mut input = MemSource::new(bytes, Vec::new(alloc));
    let mut out = MemSink::new(alloc, Vec::new(alloc));
    let mut err = MemSink::new(alloc, Vec::new(alloc));
    let report = top(
        &rt, alloc, &words, &mut input, &mut out, &mut err, &FreeGate,
    );
    let left = left_of(report.status, out, err)?;
    assert!(rt; left.is(0, TRACE, ""));
    Ok(())
}

#[test]
fn devices_that_give_a_part_or_fail(rt: HostRuntime) -> Result<(), Fail> {
    assert_eq!(rt; other_than_told(rt.alloc(), &DEVICES)?, None);
    Ok(())
}

/// What words leave of the counter, over devices that never fail.
fn left_by(alloc: Global, words: &[&str]) -> Result<Left, AllocError> {
    let devices = devices_of(
        alloc,
        COUNTER,
        Vec::new(alloc),
        Vec::new(alloc),
        Vec::new(alloc),
    )?;
    run(alloc, words, devices)
}

#[test]
fn optimistic_runs(rt: HostRuntime) -> Result<(), Fail> {
    assert_eq!(rt; other_than_told(rt.alloc(), &RUNS)?, None);
    Ok(())
}

#[test]
fn words_that_are_refused(rt: HostRuntime) -> Result<(), Fail> {
    for words in REFUSED_WORDS {
        let left = left_by(rt.alloc(), words)?;
        assert!(rt; left.is(1, "", WORDS), "{words:?}");
    }
    Ok(())
}

#[test]
fn words_that_ask_for_the_trace(rt: HostRuntime) -> Result<(), Fail> {
    for words in SEQ_WORDS {
        let left = left_by(rt.alloc(), words)?;
        assert!(rt; left.is(0, TRACE, ""), "{words:?}");
    }
    Ok(())
}

#[test]
fn words_that_ask_for_a_run(rt: HostRuntime) -> Result<(), Fail> {
    for words in RUN_WORDS {
        let left = left_by(rt.alloc(), words)?;
        assert!(rt; left.is(0, TRACE, ""), "{words:?}");
    }
    Ok(())
}

/// One byte at each of so many calls, and then this.
fn bytes_and_then(alloc: Global, calls: usize, last: Cue) -> Result<Vec<Cue>, AllocError> {
    let mut cues = vec![in alloc; Cue::Take(1); calls]?;
    cues.push(last)?;
    Ok(cues)
}

#[test]
fn a_take_that_fails_after_each_byte(rt: HostRuntime) -> Result<(), Fail> {
    let alloc = rt.alloc();
    for taken in 0..COUNTER.len() + 1 {
        let input = bytes_and_then(alloc, taken, Cue::Fail)?;
        let devices = devices_of(alloc, COUNTER, input, Vec::new(alloc), Vec::new(alloc))?;
        let left = run(alloc, &["seq"], devices)?;
        assert!(rt; left.is(4, "", READ_FAULT), "{taken}");
    }
    Ok(())
}

#[test]
fn a_put_that_fails_after_each_byte(rt: HostRuntime) -> Result<(), Fail> {
    let alloc = rt.alloc();
    for last in [Cue::Fail, Cue::Take(0)] {
        for given in 0..TRACE.len() {
            let out = bytes_and_then(alloc, given, last)?;
            let devices = devices_of(alloc, COUNTER, Vec::new(alloc), out, Vec::new(alloc))?;
            let left = run(alloc, &["seq"], devices)?;
            assert_eq!(rt; left.status, 5, "{given}");
            assert_eq!(rt; left.out.bytes().len(), given);
            assert!(rt; TRACE.as_bytes().starts_with(left.out.bytes()), "{given}");
            assert!(rt; left.err.bytes() == WRITE_FAULT.as_bytes(), "{given}");
        }
    }
    Ok(())
}

#[test]
fn a_scenario_past_the_limit(rt: HostRuntime) -> Result<(), Fail> {
    let alloc = rt.alloc();
    let words = words_of(alloc, &["seq"])?;
    let bytes = vec![in alloc; b' '; 4_194_305]?;
    let mut input = MemSource::new(bytes, Vec::new(alloc));
    let mut out = MemSink::new(alloc, Vec::new(alloc));
    let mut err = MemSink::new(alloc, Vec::new(alloc));
    let report = plain(alloc, &words, &mut input, &mut out, &mut err);
    let left = left_of(report.status, out, err)?;
    assert!(rt;
        left.is(
            2,
            "",
            "pdesmas: the scenario is longer than 4194304 bytes\n"
        )
    );
    Ok(())
}

#[test]
fn scenarios_and_what_they_print(rt: HostRuntime) -> Result<(), Fail> {
    for (name, mode, text, status, written, told) in ROWS {
        let left = run_text(rt.alloc(), mode, text)?;
        assert!(rt; left.is(*status, written, told), "{name}");
    }
    Ok(())
}

/// What the modes beside the runs print.
#[test]
fn modes_and_what_they_print(rt: HostRuntime) -> Result<(), Fail> {
    for (name, words, text, status, written, told) in MODES {
        let left = run_words(rt.alloc(), words, text)?;
        assert!(rt; left.is(*status, written, told), "{name}");
    }
    Ok(())
}

/// The scenario that a mode writes, and what its sequential run prints.
#[test]
fn scenarios_that_are_written_and_their_runs(rt: HostRuntime) -> Result<(), Fail> {
    let alloc = rt.alloc();
    for (name, words, text, trace) in WRITTEN {
        let made = run_words(alloc, words, text)?;
        assert_eq!(rt; made.status, 0, "{name}");
        let input = Vec::from_slice(alloc, made.out.bytes())?;
        let left = run_bytes(alloc, &["seq"], input)?;
        assert!(rt; left.is(0, trace, ""), "{name}");
    }
    Ok(())
}

/// What the sequential run of a scenario prints, the optimistic one prints too.
#[test]
fn runs_print_the_sequential_trace(rt: HostRuntime) -> Result<(), Fail> {
    for (name, mode, text, status, written, told) in ROWS {
        if *mode == "seq" {
            let left = run_words(rt.alloc(), &["run", "--workers", "0"], text)?;
            assert!(rt; left.is(*status, written, told), "{name}");
        }
    }
    Ok(())
}

/// Whether the line of that number is this one.
fn is_line(bytes: &[u8], number: usize, line: &[u8]) -> bool {
    match bytes.split(|b| *b == b'\n').nth(number) {
        Some(found) => found == line,
        None => false,
    }
}

#[test]
fn foragers(rt: HostRuntime) -> Result<(), Fail> {
    let left = run_text(rt.alloc(), "seq", FORAGERS)?;
    assert_eq!(rt; left.status, 0);
    for (number, line) in FORAGER_LINES {
        assert!(rt;
            is_line(left.out.bytes(), *number, line.as_bytes()),
            "{number}"
        );
    }
    Ok(())
}

#[test]
fn values_of_the_wrong_kind(rt: HostRuntime) -> Result<(), Fail> {
    let alloc = rt.alloc();
    for (old, new, key) in WRONG {
        let text = WHOLE.replacen(alloc, old, new, 1)?;
        let left = run_text(alloc, "check", text.as_str())?;
        let told = format!(in alloc; "pdesmas: scenario: {key} is of the wrong kind\n")?;
        assert!(rt; left.is(2, "", told.as_str()), "{key}: {new}");
    }
    Ok(())
}
