//! The program `nomad`: it reads standard input, writes standard output, and ends with the number of its status.
#![tactic(auto)]

use nm_top::{Status, nomad_program};

fn main(rt: HostRuntime) -> Status {
    nomad_program(&rt, rt.stdin(), rt.stdout())
}
