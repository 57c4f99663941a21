//! The program `nomad` once more, for a stored run that ends with another status.
#![tactic(auto)]

use nm_top::{Status, nomad_program};

fn main(rt: HostRuntime) -> Status {
    nomad_program(&rt, rt.stdin(), rt.stdout())
}
