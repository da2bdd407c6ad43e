use crate::call::{Failing, answer, cut, note, number};
use crate::sources::source;
use std::alloc::Global;
use std::sync::Wait;
use std::test::Fail;
use std::thread::Threads;

/// The number of a call that no device comes to.
const NONE: u64 = 255;

const ARRAYS: &str = r#"{"N":3,"A":[1,2,3],"B":[0,0,0]}"#;

/// Calls with a call of the shelf and one of the sink that fail. Each row has the name of the source that `a.py` holds, the words,
/// the two numbers with the status, and the text that is written.
const READS: &str = "INC
run,a.py,a.json
0 255 9
read fault a.py
===
INC
run,a.py,a.json
1 255 9
read fault a.json
===
INC
run,a.py,a.json
2 255 0
A[3] = 1 2 3
B[3] = 2 3 4
===
INC
step,a.py,a.json,p
2 255 9
read fault p
===
INC
print,a.py,a.json,--chain,p
2 255 9
read fault p
===
INC
step,a.py,a.json,p,--chain,q
2 255 9
read fault q
===
INC
step,a.py,a.json,p,--chain,q
3 255 9
read fault p
===
INC
run,a.py,a.json,--workers,64
255 2 0
A[3] = 1 2 3
B[3] = 2 3 4
===
INC
run,a.py,a.json
255 2 0
A[3] = 1 2 3
B[3] = 2 3 4
===
INC
run,a.py,a.json
0 0 10
===
INC
run,a.py,a.json
0 1 9
read fault a.py
===
SQUARE
run,a.py,a.json
1 255 3
source error 6 at line 7
";

/// The rows that have another answer.
fn wrong_reads<R: Threads + Wait + Sync>(rt: &R, alloc: Global) -> Result<String, Fail> {
    let mut wrong = String::new(alloc);
    for row in READS.split("===\n") {
        let (name, row) = cut(row);
        let (words, row) = cut(row);
        let (numbers, text) = cut(row);
        let files = [
            ("a.py", source(name)),
            ("a.json", ARRAYS),
            ("p", ""),
            ("q", ""),
        ];
        let failing = Failing {
            read: number(numbers, 0),
            write: number(numbers, 1),
        };
        let found = answer(rt, alloc, words, &files, failing)?;
        note(&mut wrong, numbers, &found, number(numbers, 2), text)?;
    }
    Ok(wrong)
}

#[test]
fn each_failing_call_ends_the_run(rt: HostRuntime) -> Result<(), Fail> {
    assert_eq!(rt; wrong_reads(&rt, rt.alloc())?.as_str(), "");
    Ok(())
}

/// Calls with the text that they write. Each row has the name of the source that `a.py` holds, the words, what `a.json` holds, what
/// `p` holds, and the text.
const WRITES: &str = r#"INC
run,a.py,a.json
{"N":3,"A":[1,2,3],"B":[0,0,0]}

A[3] = 1 2 3
B[3] = 2 3 4
===
INC
print,a.py,a.json
{"N":3,"A":[1,2,3],"B":[0,0,0]}

sdfg inc
array A[3]
array B[3]
state 0
next 1
state 1
node 0 access A
node 1 map i=0:3
node 2 in 1 tasklet line 7
node 3 exit 1
node 4 access B
edge 0 1 A
edge 1 2 A[i] _in0
edge 2 3 B[i] _out
edge 3 4 B
===
HALVES
check,a.py,a.json
{"N":8,"A":[1,2,3,4,5,6,7,8]}

scope 1.1: read A[4:8]
scope 1.1: write A[0:4]
accepted
===
SHIFTED
run,a.py,a.json
{"N":5,"A":[1,2,3,4,5]}

race at 1.1: read A by 2, write A by 2
===
SQUARE
run,a.py,a.json
{"N":3,"A":[1,2,3],"B":[0,0,0]}

source error 6 at line 7
===
INC
run,a.py,a.json
{"N":3,"A":[1,2,3]}

arrays error 17 B
===
INC
step,a.py,a.json,p,--trace
{"N":2,"A":[4,5],"B":[0,0]}
0 1 1 0
move 0 of 1
move 1 of 2
move 1 of 2
move 0 of 2
move 0 of 2
move 0 of 2
move 0 of 1
move 0 of 1
A[2] = 4 5
B[2] = 5 6
===
INC
step,a.py,a.json,p
{"N":2,"A":[4,5],"B":[0,0]}
x
picks refused at word 1
===
INC
run,a.py,a.json,--turns,1
{"N":2,"A":[4,5],"B":[0,0]}

turns spent 1
===
INC
run,--turns=1,a.py,a.json
{"N":2,"A":[4,5],"B":[0,0]}

turns spent 1
===
INC
run,a.py,a.json,--turns,+5
{"N":2,"A":[4,5],"B":[0,0]}

bad words
===
INC
run,a.py,a.json,--workers,65
{"N":2,"A":[4,5],"B":[0,0]}

bad words
===
INC
run
{"N":2,"A":[4,5],"B":[0,0]}

bad words
===
INC
run,--help
{"N":2,"A":[4,5],"B":[0,0]}

bad words
===
INC
plan,a.py,a.json
{"N":3,"A":[1,2,3],"B":[0,0,0]}

scope 1.1: A shared
scope 1.1: B copied
===
INC
run,a.py,a.json,--chain,p
{"N":2,"A":[4,5],"B":[0,0]}
Tile 1.1
chain refused at line 1
===
INC
print,a.py,a.json,--chain=p
{"N":2,"A":[4,5],"B":[0,0]}
MapExpansion 1.1
chain refused at line 1 condition 2
===
GRID
print,a.py,a.json,--chain,p
{"A":[[1,2],[3,4]],"B":[[0,0],[0,0]]}
MapCollapse 1.1
sdfg grid
array A[2,2]
array B[2,2]
state 0
next 1
state 1
node 0 access A
node 1 map i=0:2, j=0:2
node 2 in 1 tasklet line 6
node 3 exit 1
node 4 access B
edge 0 1 A
edge 1 2 A[i, j] _in0
edge 2 3 B[i, j] _out
edge 3 4 B
===
GRID
matches,a.py,a.json,--chain,p
{"A":[[1,2],[3,4]],"B":[[0,0],[0,0]]}
MapCollapse 1.1
MapExpansion 1.1
===
GRID
run,a.py,a.json,--chain,p,--workers,64
{"A":[[1,2],[3,4]],"B":[[0,0],[0,0]]}
MapCollapse 1.1
A[2,2] = 1 2 3 4
B[2,2] = 1 2 3 4
"#;

/// What is wrong where a write of a line fails: the status is 10, and the sink has the lines before it.
fn wrong_writes<R: Threads + Wait + Sync>(rt: &R, alloc: Global) -> Result<String, Fail> {
    let mut wrong = String::new(alloc);
    for row in WRITES.split("===\n") {
        let (name, row) = cut(row);
        let (words, row) = cut(row);
        let (arrays, row) = cut(row);
        let (picks, text) = cut(row);
        let files = [("a.py", source(name)), ("a.json", arrays), ("p", picks)];
        let mut front = String::new(alloc);
        for (place, line) in text.split_inclusive('\n').enumerate() {
            let failing = Failing {
                read: NONE,
                write: place as u64,
            };
            let found = answer(rt, alloc, words, &files, failing)?;
            note(&mut wrong, line, &found, 10, front.as_str())?;
            front.push_str(line)?;
        }
    }
    Ok(wrong)
}

#[test]
fn each_line_is_one_write(rt: HostRuntime) -> Result<(), Fail> {
    assert_eq!(rt; wrong_writes(&rt, rt.alloc())?.as_str(), "");
    Ok(())
}

/// The arrays of the source with long names, of 5,000 zeros each.
fn long_arrays(alloc: Global) -> Result<String, Fail> {
    let mut zeros = String::from_str(alloc, "0")?;
    for _ in 1..5000 {
        zeros.push_str(",0")?;
    }
    let (given, found) = ("numbers_given", "results_found");
    Ok(format!(in alloc;
        "{{\"Number_of_elements\":5000,\"{given}\":[{zeros}],\"{found}\":[{zeros}]}}"
    )?)
}

/// The first write that fails, the status, and how many bytes the sink has then. Each of the two lines has 21 bytes before its
/// elements, 2 for each of them and the newline: 10,022 bytes, in three pieces.
const PIECES: &str = "0 10 0
1 10 4096
2 10 8192
3 10 10022
4 10 14118
5 10 18214
6 0 20044";

/// The pieces that are others.
fn wrong_pieces<R: Threads + Wait + Sync>(rt: &R, alloc: Global) -> Result<String, Fail> {
    let mut wrong = String::new(alloc);
    let text = format!(in alloc; "{}\n{}", long_arrays(alloc)?, source("LONG"))?;
    let (arrays, source) = cut(text.as_str());
    let files = [("a.py", source), ("a.json", arrays)];
    for line in PIECES.lines() {
        let failing = Failing {
            read: NONE,
            write: number(line, 0),
        };
        let (status, written) = answer(rt, alloc, "run,a.py,a.json", &files, failing)?;
        let bytes = written.len();
        if u64::from(status) != number(line, 1) || bytes as u64 != number(line, 2) {
            write!(&mut wrong, "{line}: {status} {bytes}; ")?;
        }
    }
    Ok(wrong)
}

#[test]
fn a_long_line_is_written_in_pieces_of_4096_bytes(rt: HostRuntime) -> Result<(), Fail> {
    assert_eq!(rt; wrong_pieces(&rt, rt.alloc())?.as_str(), "");
    Ok(())
}
