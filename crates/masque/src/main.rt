//! Replays scripts against a proxy for tunnels over HTTP, and prints what it does.
#![tactic(auto)]

#[cfg(test)]
mod tests;

use mq_top::program;
use std::process::ExitCode;

fn main(rt: HostRuntime) -> ExitCode {
    program(&rt, &rt)
}
