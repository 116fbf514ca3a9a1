//! The program `lotos`: the real shelf, input and output, handed to `run`.
#![tactic(auto)]

use lotos_top::{Ended, run};
use real_outside::{FileShelf, InSource, OutSink};
use std::alloc::AllocError;
use std::process::ExitCode;
use std::{env, io};

fn main(rt: HostRuntime) -> ExitCode {
    let words = match words(&rt) {
        Ok(words) => words,
        Err(_) => return ExitCode::from(Ended::NoMemory.status()),
    };
    let mut shelf = FileShelf::new(&rt);
    let mut input = InSource::new(rt.reader());
    let mut output = OutSink::new(io::writer(&rt));
    let ended = run(
        rt.alloc(),
        words.as_slice(),
        &mut shelf,
        &mut input,
        &mut output,
    );
    ExitCode::from(ended.status())
}

/// The words behind the program's name; none where one of them is not UTF-8.
fn words(rt: &HostRuntime) -> Result<Vec<String>, AllocError> {
    match env::args(rt) {
        Ok(args) => args.skip(1).collect(rt.alloc()),
        Err(error) if error.kind() == io::ErrorKind::InvalidData => Ok(Vec::new(rt.alloc())),
        Err(_) => Err(AllocError),
    }
}
