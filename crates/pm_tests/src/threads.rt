//! Runs on threads. Whatever the schedule, what is printed is the trace of the sequential run.
use crate::modes::GENERATED;
use crate::rows::{RIVALS, ROWS, short_foragers};
use crate::tests::{
    COUNTER, Devices, Left, SPENT, TRACE, TWO_LINES, WRITE_FAULT, devices_of, good_devices,
    left_of, run_words, words_of,
};
use pm_io::{Cue, FreeGate, Gate};
use pm_top::top;
use std::alloc::{AllocError, Global};
use std::sync::atomic::Ordering::SeqCst;
use std::sync::atomic::{AtomicBool, AtomicU64};
use std::test::Fail;
use std::thread::Threads;

/// Runs of the counter: the words, the cues of the output, the status, the output and the error line. There is one
/// agent, so that each schedule has twelve deliveries.
const COUNTER_RUNS: [(&[&str], &[Cue], u8, &str, &str); 9] = [
    (&["run"], &[], 0, TRACE, ""),
    (&["--workers=2", "run"], &[], 0, TRACE, ""),
    (&["run", "--workers", "64"], &[], 0, TRACE, ""),
    (&["run", "--epoch", "1"], &[], 0, TRACE, ""),
    (&["run", "--window", "1"], &[], 0, TRACE, ""),
    (
        &["run", "--workers", "2", "--budget", "0"],
        &[],
        3,
        "",
        SPENT,
    ),
    (
        &["run", "--workers", "2", "--budget", "11"],
        &[],
        3,
        TWO_LINES,
        SPENT,
    ),
    (
        &["run", "--workers", "2", "--budget", "12"],
        &[],
        0,
        TRACE,
        "",
    ),
    (&["run", "--workers", "2"], &[Cue::Fail], 5, "", WRITE_FAULT),
];

/// Words that ask for a run by two workers.
const BY_TWO: &[&str] = &["run", "--workers", "2"];

/// And by four.
const BY_FOUR: &[&str] = &["run", "--workers", "4"];

/// Calls the program with these words, where there are threads.
fn run<R: Threads + Sync, G: Gate + Sync>(
    rt: &R,
    alloc: Global,
    gate: &G,
    words: &[&str],
    devices: Devices,
) -> Result<Left, AllocError> {
    let words = words_of(alloc, words)?;
    let Devices {
        mut input,
        mut out,
        mut err,
    } = devices;
    let report = top(rt, alloc, &words, &mut input, &mut out, &mut err, gate);
    left_of(report.status, out, err)
}

/// The same with a text, and devices that never fail.
fn run_text<R: Threads + Sync, G: Gate + Sync>(
    rt: &R,
    alloc: Global,
    gate: &G,
    words: &[&str],
    text: &str,
) -> Result<Left, AllocError> {
    let input = Vec::from_slice(alloc, text.as_bytes())?;
    run(rt, alloc, gate, words, good_devices(alloc, input))
}

#[test]
fn threads_print_the_sequential_trace(rt: HostRuntime) -> Result<(), Fail> {
    for (name, mode, text, status, written, told) in ROWS {
        if *mode == "seq" {
            let left = run_text(&rt, rt.alloc(), &FreeGate, BY_TWO, text)?;
            assert!(rt; left.is(*status, written, told), "{name}");
        }
    }
    Ok(())
}

#[test]
fn runs_of_the_counter(rt: HostRuntime) -> Result<(), Fail> {
    let alloc = rt.alloc();
    for (words, cues, status, written, told) in COUNTER_RUNS {
        let out = Vec::from_slice(alloc, cues)?;
        let devices = devices_of(alloc, COUNTER, Vec::new(alloc), out, Vec::new(alloc))?;
        let left = run(&rt, alloc, &FreeGate, words, devices)?;
        assert!(rt; left.is(status, written, told), "{words:?}");
    }
    Ok(())
}

/// How often a worker looks whether another has come to its turn, at most.
const LOOKS: u64 = 300_000_000;

/// The first turn of worker 0 waits until worker 1 has come to one, and the other way round. One thread alone uses its
/// looks up.
#[derive(Drop)]
struct Meeting {
    turns: [AtomicU64; 2],
    missed: AtomicBool,
}

impl Meeting {
    fn new() -> Meeting {
        Meeting {
            turns: [AtomicU64::new(0), AtomicU64::new(0)],
            missed: AtomicBool::new(false),
        }
    }

    /// Whether both came to a turn, and neither used its looks up.
    fn took_place(&self) -> bool {
        self.turns[0].load(SeqCst) > 0
            && self.turns[1].load(SeqCst) > 0
            && !self.missed.load(SeqCst)
    }
}

impl Gate for Meeting {
    fn at(&self, worker: u32, _process: u32) {
        if worker > 1 {
            return;
        }
        let me = worker as usize;
        if self.turns[me].fetch_add(1, SeqCst) > 0 {
            return;
        }
        for _ in 0..LOOKS {
            if self.turns[1 - me].load(SeqCst) > 0 {
                return;
            }
        }
        self.missed.store(true, SeqCst);
    }
}

/// Whether two workers meet in a run of this text, which is to leave what `wanted` is.
fn meet<R: Threads + Sync>(
    rt: &R,
    alloc: Global,
    text: &str,
    wanted: &Left,
) -> Result<bool, AllocError> {
    let gate = Meeting::new();
    let left = run_text(rt, alloc, &gate, BY_TWO, text)?;
    Ok(left.is_like(wanted) && gate.took_place())
}

/// Where there was no memory for a thread one did all, and they are to meet the second time.
#[test]
fn two_workers_are_at_work_at_the_same_time(rt: HostRuntime) -> Result<(), Fail> {
    let alloc = rt.alloc();
    let text = short_foragers(alloc)?;
    let wanted = run_words(alloc, &["seq"], text.as_str())?;
    let met = meet(&rt, alloc, text.as_str(), &wanted)?
        || meet(&rt, alloc, text.as_str(), &wanted)?;
    assert!(rt; wanted.status == 0 && met);
    Ok(())
}

/// How many turns of worker 0 are held up.
const HELD: u64 = 10;

/// How many turns the others are to make in the meantime.
const AHEAD: u64 = 20;

/// How often worker 0 looks whether they have, at most: they can't, where all they could do waits for what it holds.
const GLANCES: u64 = 1_000_000;

/// Worker 0 waits at each of its first turns until the others have made some.
#[derive(Drop)]
struct Delay {
    own: AtomicU64,
    others: AtomicU64,
}

impl Gate for Delay {
    fn at(&self, worker: u32, _process: u32) {
        if worker > 0 {
            self.others.fetch_add(1, SeqCst);
            return;
        }
        let turn = self.own.fetch_add(1, SeqCst);
        if turn >= HELD {
            return;
        }
        for _ in 0..GLANCES {
            if self.others.load(SeqCst) >= turn.saturating_add(1).saturating_mul(AHEAD) {
                return;
            }
        }
    }
}

#[test]
fn a_worker_that_is_held_up(rt: HostRuntime) -> Result<(), Fail> {
    let alloc = rt.alloc();
    let text = short_foragers(alloc)?;
    let wanted = run_words(alloc, &["seq"], text.as_str())?;
    for words in [BY_TWO, BY_FOUR] {
        let gate = Delay {
            own: AtomicU64::new(0),
            others: AtomicU64::new(0),
        };
        let left = run_text(&rt, alloc, &gate, words, text.as_str())?;
        assert!(rt; left.is_like(&wanted), "{words:?}");
    }
    Ok(())
}

#[test]
fn conflicts_on_threads(rt: HostRuntime) -> Result<(), Fail> {
    let alloc = rt.alloc();
    let wanted = run_words(alloc, &["seq"], RIVALS)?;
    for words in [BY_TWO, BY_FOUR] {
        for number in 0..10 {
            let left = run_text(&rt, alloc, &FreeGate, words, RIVALS)?;
            assert!(rt; left.is_like(&wanted), "{words:?} {number}");
        }
    }
    Ok(())
}

#[test]
fn a_generated_run_on_threads(rt: HostRuntime) -> Result<(), Fail> {
    let words = [
        "demo",
        "--workers",
        "2",
        "--seed",
        "7",
        "--budget",
        "20000000",
    ];
    let left = run_text(&rt, rt.alloc(), &FreeGate, &words, "")?;
    assert!(rt; left.is(0, GENERATED, ""));
    Ok(())
}
