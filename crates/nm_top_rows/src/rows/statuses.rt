//! The line of the one status that no case of `nomad_rows` ends with.
use nm_top::Status;
use std::test::Fail;

#[test]
fn tells_want_of_memory(rt: HostRuntime) -> Result<(), Fail> {
    assert!(rt; Status::Memory.to_string(rt.alloc())?.as_str() == "nomad: memory");
    Ok(())
}
