//! A program to be timed: it reads the texts of a trie, looks keys up below a root, and carries
//! batches of changes out there.
#![tactic(auto)]

mod asked;
mod bench;
mod bench_error;
mod running;

use running::run;
use script_io::StdSource;
use std::process::ExitCode;

fn main(rt: HostRuntime) -> ExitCode {
    let mut source = StdSource::new(rt.reader());
    let answer = match run(rt.alloc(), &mut source) {
        Ok(bench) => println!(rt;
            "found {} loads {} made {} hashed {}",
            bench.found(),
            bench.loads(),
            bench.made(),
            bench.hashed()
        ),
        Err(error) => {
            let _ = eprintln!(rt; "{error}");
            return ExitCode::FAILURE;
        }
    };
    match answer {
        Ok(()) => ExitCode::SUCCESS,
        Err(_) => ExitCode::FAILURE,
    }
}
