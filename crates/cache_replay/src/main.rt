#![tactic(auto)]
//! `cache_replay LIMIT [WATERMARK]`: runs a script of cache calls from standard input. `cache_replay torment MANAGER LIMIT
//! [WATERMARK]` goes on after calls that failed, for tests that refuse requests for memory.

use cache_script::replay::{refuse_arguments, replay};
use std::io::ErrorKind;
use std::process::ExitCode;
use std::{env, io};

fn main(rt: HostRuntime) -> ExitCode {
    let mut errors = rt.stderr();
    let words = match env::args(&rt) {
        Ok(words) => words,
        Err(failed) => return ExitCode::from(refuse_arguments(failed.kind(), &mut errors)),
    };
    let Ok(args) = words.skip(1).collect::<Vec<String>>(rt.alloc()) else {
        return ExitCode::from(refuse_arguments(ErrorKind::OutOfMemory, &mut errors));
    };
    let status = replay(
        rt.alloc(),
        args.as_slice(),
        &rt,
        rt.reader(),
        io::writer(&rt),
        &mut errors,
    );
    ExitCode::from(status)
}
