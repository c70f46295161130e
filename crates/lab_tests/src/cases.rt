//! Inputs with the output and the status that they give, and how they are run.
use lab_cli::{Status, run};
use lab_io::{MemSink, MemSource};
use std::alloc::Global;
use std::process::Abort;
use std::test::Fail;

/// What is run, and what it gives.
#[derive(Clone, Copy)]
pub struct Case<'a> {
    /// The words of the command line, by spaces.
    pub words: &'a str,
    /// The text of the game, with which the input begins.
    pub game: &'a str,
    /// What the input has after the game.
    pub commands: &'a str,
    /// The number of the call of the source that fails.
    pub failing_read: Option<u64>,
    /// The number of the call of the sink that fails.
    pub failing_write: Option<u64>,
    /// What is written.
    pub output: &'a str,
    /// How the run ends.
    pub status: Status,
}

/// A case of the mode `session`.
pub fn session<'a>(game: &'a str, commands: &'a str, output: &'a str, status: Status) -> Case<'a> {
    Case {
        words: "session",
        game,
        commands,
        failing_read: None,
        failing_write: None,
        output,
        status,
    }
}

/// A case of the mode `print`.
pub fn print<'a>(game: &'a str, output: &'a str, status: Status) -> Case<'a> {
    Case {
        words: "print",
        ..session(game, "", output, status)
    }
}

/// A case of the mode `check`.
pub fn check<'a>(game: &'a str, output: &'a str, status: Status) -> Case<'a> {
    Case {
        words: "check",
        ..session(game, "", output, status)
    }
}

/// Runs each case, and fails at the first that has another output or another status.
pub fn run_cases(rt: &impl Abort, alloc: Global, cases: &[Case]) -> Result<(), Fail> {
    for (number, case) in cases.iter().enumerate() {
        let (status, same) = outcome(alloc, case)?;
        assert!(rt; same, "output of case {number}");
        assert_eq!(rt; status, case.status, "status of case {number}");
    }
    Ok(())
}

// The status of a case, and whether it wrote what is wanted.
fn outcome(alloc: Global, case: &Case) -> Result<(Status, bool), Fail> {
    let input = format!(in alloc; "{}{}", case.game, case.commands)?;
    let mut source = MemSource::new(input.into_bytes(), calls(alloc, case.failing_read)?);
    let mut sink = MemSink::new(alloc, 4096, calls(alloc, case.failing_write)?)?;
    let words = words(alloc, case.words)?;
    let status = run(alloc, words.as_slice(), &mut source, &mut sink);
    Ok((status, sink.bytes() == case.output.as_bytes()))
}

fn calls(alloc: Global, call: Option<u64>) -> Result<Vec<u64>, Fail> {
    let mut calls = Vec::new(alloc);
    if let Some(call) = call {
        calls.push(call)?;
    }
    Ok(calls)
}

fn words(alloc: Global, text: &str) -> Result<Vec<String>, Fail> {
    let mut words = Vec::new(alloc);
    for word in text.split_whitespace() {
        words.push(String::from_str(alloc, word)?)?;
    }
    Ok(words)
}
