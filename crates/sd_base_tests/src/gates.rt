use sd_io::{Gate, Pair};
use std::test::Fail;
use std::thread;

#[test]
fn two_calls_meet_in_the_gate(rt: HostRuntime) -> Result<(), Fail> {
    let pair = Pair::new(1_000_000_000);
    thread::join(&rt, || pair.pass(0), || pair.pass(1));
    assert!(&rt; pair.met());
    Ok(())
}

#[test]
fn a_call_that_is_alone_goes_on_after_its_looks(rt: HostRuntime) -> Result<(), Fail> {
    let pair = Pair::new(5);
    pair.pass(0);
    pair.pass(2);
    assert!(&rt; !pair.met());
    pair.pass(1);
    assert!(&rt; !pair.met());
    Ok(())
}
