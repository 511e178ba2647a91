//! What the command line takes and refuses.
use crate::{Mode, Settings, WordsFault, read};
use pm_base::RunSettings;
use std::alloc::Global;

fn words(alloc: Global, list: &[&str]) -> Result<Vec<String>, std::alloc::AllocError> {
    let mut words: Vec<String> = Vec::new(alloc);
    for word in list {
        let text = String::from_str(alloc, *word)?;
        words.push(text)?;
    }
    Ok(words)
}

#[test]
fn all_options(rt: HostRuntime) {
    let list = [
        "--workers=2",
        "seq",
        "--budget",
        "7",
        "--journal",
        "--seed=18446744073709551615",
        "--window",
        "5",
        "--from=9",
        "--epoch",
        "1",
    ];
    let words = words(rt.alloc(), list.as_slice()).expect(&rt, "words");
    let run = RunSettings {
        workers: 2,
        budget: 7,
        epoch: 1,
        window: Some(5),
        turns: true,
    };
    let wanted = Settings {
        mode: Mode::Seq,
        run,
        seed: u64::MAX,
        journal: true,
        from: 9,
    };
    assert!(rt; read(rt.alloc(), &words).expect(&rt, "settings") == wanted);
}

#[test]
fn refused(rt: HostRuntime) {
    let list = ["seq", "--seed", "1", "--seed", "2"];
    let words = words(rt.alloc(), list.as_slice()).expect(&rt, "words");
    assert!(rt; matches!(read(rt.alloc(), &words), Err(WordsFault::Words)));
}
