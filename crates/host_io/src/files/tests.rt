use super::*;
use std::test::Fail;

#[test]
fn faults_have_texts(rt: HostRuntime) -> Result<(), Fail> {
    let alloc = rt.alloc();
    for (fault, text) in [
        (LoadFault::Failed, "the file could not be loaded"),
        (LoadFault::TooLong, "the file is too long"),
        (LoadFault::Memory, "out of memory"),
    ] {
        assert_eq!(rt; fault.to_string(alloc)?.as_str(), text);
    }
    let fault = StoreFault::Failed.to_string(alloc)?;
    assert_eq!(rt; fault.as_str(), "the file could not be stored");
    Ok(())
}
