//! The program `masque`, which ends with status 5 where a line of its script is bad.
#![tactic(auto)]

use mq_top::program;
use std::process::ExitCode;

fn main(rt: HostRuntime) -> ExitCode {
    program(&rt, &rt)
}
