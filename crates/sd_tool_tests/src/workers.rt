use crate::call::{Failing, answer_by};
use crate::sources::source;
use sd_io::{Open, Pair};
use std::test::Fail;

/// No call of a device fails.
const SURE: Failing = Failing {
    read: 255,
    write: 255,
};

const ARRAYS: &str = r#"{"N":3,"A":[1,2,3],"B":[0,0,0]}"#;

const WRITTEN: &str = "A[3] = 1 2 3
B[3] = 2 3 4
";

#[test]
fn two_workers_are_inside_at_once(rt: HostRuntime) -> Result<(), Fail> {
    let gate = Pair::new(1_000_000_000);
    let files = [("a.py", source("INC")), ("a.json", ARRAYS)];
    let words = "run,a.py,a.json,--workers,2";
    let (status, written) = answer_by(&rt, rt.alloc(), words, &files, SURE, &gate)?;
    assert_eq!(rt; status, 0);
    assert_eq!(rt; written.as_str(), WRITTEN);
    assert!(rt; gate.met());
    Ok(())
}

#[test]
fn a_run_by_one_worker_holds_nothing_for_another(rt: HostRuntime) -> Result<(), Fail> {
    let gate = Pair::new(1);
    let files = [("a.py", source("INC")), ("a.json", ARRAYS)];
    let words = "run,a.py,a.json,--workers,1";
    let (status, written) = answer_by(&rt, rt.alloc(), words, &files, SURE, &gate)?;
    assert_eq!(rt; status, 0);
    assert_eq!(rt; written.as_str(), WRITTEN);
    assert!(rt; !gate.met());
    Ok(())
}

#[test]
fn more_workers_than_pieces_come_to_the_same(rt: HostRuntime) -> Result<(), Fail> {
    let files = [("a.py", source("INC")), ("a.json", ARRAYS)];
    let words = "run,a.py,a.json,--workers,64";
    let (status, written) = answer_by(&rt, rt.alloc(), words, &files, SURE, &Open)?;
    assert_eq!(rt; status, 0);
    assert_eq!(rt; written.as_str(), WRITTEN);
    Ok(())
}
