// The access program, on the example of 01.
#![tactic(auto)]

use std::process::ExitCode;

fn main(rt: HostRuntime) -> ExitCode {
    if access_run::run(&mut rt.stdin(), &mut rt.stdout()) {
        ExitCode::SUCCESS
    } else {
        ExitCode::FAILURE
    }
}
