//! Loops in force in a state.
use crate::written::read_graph;
use sd_wire::loops_in_force;
use std::test::Fail;

/// A line is `GRAPH -> LOOPS`, the variables in force in each of six states: an inner loop inside an outer
/// one, two loops one after another, a loop without a variable, and a transition to a state that is not there.
const LOOPS: &str = "\
state; next 1 v0=0; state; next 2 v1=0; next 4; state; next 3; back 2 v1=0; state; back 1 v0=0; state \
    -> [] [0] [0, 1] [0] [] []
state; next 1 v1=0; state; back 1 v1=0; next 2 v0=0; state; next 3; next 4; state; back 2 v0=0; state \
    -> [] [1] [0] [0] [] []
state; next 1 v0=0; state; back 0 -> [] [] [] [] [] []
state; next 9; back 0 v0=0 -> [0] [] [] [] [] []";

#[test]
fn loops_are_in_force_in_their_blocks(rt: HostRuntime) -> Result<(), Fail> {
    let alloc = rt.alloc();
    for line in LOOPS.lines() {
        let (text, wanted) = line.split_once(" -> ").ok_or("no loops")?;
        let graph = read_graph(alloc, text)?;
        let mut told = String::new(alloc);
        for state in 0..6 {
            let loops = loops_in_force(alloc, &graph.states, 2, state)?;
            write!(&mut told, "{:?} ", loops.as_slice())?;
        }
        assert_eq!(rt; told.as_str().trim_end(), wanted, "{line}");
    }
    Ok(())
}
