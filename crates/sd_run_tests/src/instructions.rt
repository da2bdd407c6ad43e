//! The size of instructions.
use sd_tcode::Op;
use std::mem::size_of;

#[test]
fn an_instruction_takes_at_most_sixteen_bytes(rt: HostRuntime) {
    assert_eq!(rt; size_of::<Op>(), 16);
}
