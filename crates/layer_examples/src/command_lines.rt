//! Settings of command lines that few would write.

use mask_terms::{Opt, Task, UsageKind, Wires};
use mask_words::{Settings, WordsError, settings};
use std::alloc::{AllocError, Global};
use std::string::String;

fn strings(alloc: Global, words: &[&str]) -> Result<Vec<String>, AllocError> {
    let mut list = Vec::new(alloc);
    for word in words {
        list.push(String::from_str(alloc, word)?)?;
    }
    Ok(list)
}

fn of_words(alloc: Global, words: &[&str]) -> Result<Settings, WordsError> {
    let Ok(words) = strings(alloc, words) else {
        return Err(WordsError::OutOfMemory);
    };
    settings(alloc, words.as_slice())
}

// The program's name, and this word this often.
fn repeated(alloc: Global, word: &str, times: usize) -> Result<Vec<String>, AllocError> {
    let mut list = Vec::new(alloc);
    list.push(String::from_str(alloc, "mask")?)?;
    for _ in 0..times {
        list.push(String::from_str(alloc, word)?)?;
    }
    Ok(list)
}

// A word of a million digits.
fn million(alloc: Global) -> Result<String, AllocError> {
    let mut word = String::new(alloc);
    for _ in 0..1000000 {
        word.push('1')?;
    }
    Ok(word)
}

#[test]
fn options_stand_anywhere(rt: HostRuntime) {
    let words = [
        "mask",
        "--workers=2",
        "pini",
        "--block",
        "7",
        "3",
        "--tallies",
    ];
    let Ok(given) = of_words(rt.alloc(), &words) else {
        panic!(rt; "refused")
    };
    assert!(rt; given.task == Task::Pini && given.t == 3 && given.size == 3 && given.workers == 2);
    assert!(rt; given.block == 7 && given.budget == 16777216 && given.words == 65536);
    assert!(rt; given.wires == Wires::Copies && given.tallies);
}

#[test]
fn random_probing_has_a_size_and_wires(rt: HostRuntime) {
    let alloc = rt.alloc();
    let words = ["mask", "rpe", "16", "--size=6", "--wires", "plain"];
    let Ok(given) = of_words(alloc, &words) else {
        panic!(rt; "refused")
    };
    assert!(rt; given.task == Task::Rpe && given.t == 16 && given.size == 6);
    assert!(rt; given.wires == Wires::Plain && given.workers == 4);
    let Ok(given) = of_words(alloc, &["mask", "rpc", "0"]) else {
        panic!(rt; "refused")
    };
    assert!(rt; given.task == Task::Rpc && given.t == 0 && given.size == 3);
    assert!(rt; given.wires == Wires::Copies);
    let argument = Err(WordsError::Usage(UsageKind::Argument));
    assert!(rt; of_words(alloc, &["mask", "rpc", "17"]) == argument);
    let size = Err(WordsError::Usage(UsageKind::Value(Opt::Size)));
    assert!(rt; of_words(alloc, &["mask", "rpc", "1", "--size", "7"]) == size);
}

#[test]
fn many_words_are_refused(rt: HostRuntime) {
    let alloc = rt.alloc();
    let refused = Err(WordsError::Usage(UsageKind::Words));
    let words = repeated(alloc, "ni", 10000).expect(&rt, "memory");
    assert!(rt; settings(alloc, words.as_slice()) == refused);
    let words = repeated(alloc, "--workers=2", 10000).expect(&rt, "memory");
    assert!(rt; settings(alloc, words.as_slice()) == refused);
    assert!(rt; of_words(alloc, &[]) == refused);
}

#[test]
fn a_long_word_is_refused(rt: HostRuntime) {
    let alloc = rt.alloc();
    let mut words = strings(alloc, &["mask", "ni"]).expect(&rt, "memory");
    let word = million(alloc).expect(&rt, "memory");
    words.push(word).expect(&rt, "memory");
    assert!(rt; settings(alloc, words.as_slice()) == Err(WordsError::Usage(UsageKind::Argument)));
}
