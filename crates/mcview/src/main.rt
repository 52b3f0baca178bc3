//! The program `mcview`: its words are the arguments, its input and output the standard streams, and it ends with the
//! status that the top call answers. Where the words name a file, it is opened first.
#![tactic(auto)]

use outer_io::{MemSource, StdSink, StdSource};
use std::alloc::Global;
use std::process::ExitCode;
use std::rt::Env;
use std::{env, fs, io};
use view_cli::{file_asked, mcview};

/// The status where the file cannot be opened: that of a read that failed.
const READ_FAILED: u8 = 4;

/// The status where memory for the words is out.
const NO_MEMORY: u8 = 6;

fn main(rt: HostRuntime) -> ExitCode {
    let Some(words) = words(&rt, rt.alloc()) else {
        return ExitCode::from(NO_MEMORY);
    };
    let mut input = StdSource::new(rt.reader());
    let mut output = StdSink::new(io::writer(&rt));
    let status = match file_asked(&words) {
        Some(name) => match fs::open(&rt, name.as_str()) {
            Ok(file) => {
                let mut file = StdSource::new(file);
                mcview(rt.alloc(), &words, &mut input, &mut file, &mut output)
            }
            Err(_) => READ_FAILED,
        },
        None => {
            let mut none = MemSource::new(Vec::new(rt.alloc()), Vec::new(rt.alloc()), 1);
            mcview(rt.alloc(), &words, &mut input, &mut none, &mut output)
        }
    };
    ExitCode::from(status)
}

/// The words after the program's name, or `None` where memory is out. An argument that is no text is none of the words of
/// any form, so then there are no words.
fn words<R: Env + AllocGlobal>(rt: &R, alloc: Global) -> Option<Vec<String>> {
    match env::args(rt) {
        Ok(args) => args.skip(1).collect(alloc).ok(),
        Err(fault) if fault.kind() == io::ErrorKind::OutOfMemory => None,
        Err(_) => Some(Vec::new(alloc)),
    }
}
