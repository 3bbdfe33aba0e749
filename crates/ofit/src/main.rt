//! The program `ofit`: hands its words, the working folder and the standard streams to the top
//! call, and ends with the answer's status.
#![tactic(auto)]

use ofit_num::Tally;
use ofit_outside::{DiskFolder, StdSink};
use ofit_top::{run, status};
use std::process::ExitCode;
use std::{env, io};

/// The status where the words themselves can't be had from the system.
const NO_WORDS: u8 = 9;

/// The words behind the program's own name.
fn words_of(rt: &HostRuntime) -> io::Result<Vec<String>> {
    let mut words = Vec::new(rt.alloc());
    for word in env::args(rt)?.skip(1) {
        words.push(word)?;
    }
    Ok(words)
}

fn main(rt: HostRuntime) -> ExitCode {
    let Ok(words) = words_of(&rt) else {
        return ExitCode::from(NO_WORDS);
    };
    let mut folder = DiskFolder::new(&rt);
    let mut out = StdSink::new(rt.stdout());
    let mut err = StdSink::new(rt.stderr());
    let mut tally = Tally::new(&rt);
    let answer = run(
        rt.alloc(),
        &words,
        &mut folder,
        &mut out,
        &mut err,
        &mut tally,
    );
    ExitCode::from(status(&answer))
}
