//! The program of the heat meter: standard input and output, and a memory in `register.bin`.
#![tactic(auto)]

use meter_board::{FileBoard, StdSource};
use meter_cli::{Status, meter, status_code, status_line};
use std::process::ExitCode;
use std::{env, io};

fn main(rt: HostRuntime) -> ExitCode {
    let status = match words_after_name(&rt) {
        Ok(words) => run(&rt, &words),
        Err(_) => Status::OutOfMemory,
    };
    if !matches!(status, Status::Done) {
        // Where standard error fails too, the exit status is all that is left to tell.
        let _ = eprintln!(rt; "{}", status_line(&status).as_str());
    }
    ExitCode::from(status_code(&status))
}

fn words_after_name<R: env::Env + AllocGlobal>(rt: &R) -> io::Result<Vec<String>> {
    let mut words = Vec::new(rt.alloc());
    for word in env::args(rt)?.skip(1) {
        words.push(word)?;
    }
    Ok(words)
}

fn run<R: std::rt::Files + Input + Print + AllocGlobal>(rt: &R, words: &[String]) -> Status {
    let mut texts = Vec::new(rt.alloc());
    for word in words {
        if texts.push(word.as_str()).is_err() {
            return Status::OutOfMemory;
        }
    }
    let mut source = StdSource::new(rt);
    let mut board = FileBoard::at(rt, "register.bin");
    meter(rt.alloc(), &texts, &mut source, &mut board)
}
