//! The program `lab`: answers standard input on standard output, in the mode that its words name.
#![tactic(auto)]

use lab_cli::{Status, run};
use lab_io::{StdSink, StdSource};
use std::process::ExitCode;
use std::{env, io};

fn main(rt: HostRuntime) -> ExitCode {
    let Ok(words) = words(&rt) else {
        return ExitCode::from(Status::Memory.exit_status());
    };
    let mut source = StdSource::new(rt.reader());
    let mut sink = StdSink::new(io::writer(&rt));
    let status = run(rt.alloc(), words.as_slice(), &mut source, &mut sink);
    ExitCode::from(status.exit_status())
}

// The words after the program's name; none where one of them is no text, so that they name no mode.
fn words(rt: &HostRuntime) -> io::Result<Vec<String>> {
    match env::args(rt) {
        Ok(all) => {
            let mut words = all;
            let _program = words.next();
            Ok(words.collect(rt.alloc())?)
        }
        Err(error) if error.kind() == io::ErrorKind::InvalidData => Ok(Vec::new(rt.alloc())),
        Err(error) => Err(error),
    }
}
