use crate::call::{Failing, answer_by, cut, note};
use crate::delays::Delays;
use std::alloc::Global;
use std::sync::Wait;
use std::test::Fail;
use std::thread::Threads;

/// How often each program is run.
const RUNS: u64 = 100;

/// Programs that workers run. Each has a name, the words of the call, the arrays, the status and the text that is written, up to a blank
/// line, and the source.
const PROGRAMS: &str = r#"=== each element plus 1
run,a.py,a.json,--workers,2
{"N":5,"A":[1,2,3,4,5],"B":[0,0,0,0,0]}
0 A[5] = 1 2 3 4 5
B[5] = 2 3 4 5 6

import dace
N = dace.symbol('N')
@dace.program
def inc(A: dace.int64[N], B: dace.int64[N]):
    for i in dace.map[0:N]:
        B[i] = A[i] + 1
=== a Fibonacci number by a work list
run,a.py,a.json,--workers,4
{"iv":[6],"res":[0]}
0 iv[1] = 6
res[1] = 8

import dace
@dace.program
def fib(iv: dace.int64[1], res: dace.int64[1]):
    S = dace.define_stream(dace.int64, 1)
    with dace.tasklet:
        inp << iv
        out >> S
        out = inp
    @dace.consume(S, 4)
    def scope(elem, p):
        sout >> S(-1)
        val >> res(-1, lambda x, y: x + y)[0]
        if elem == 1:
            val = 1
        elif elem > 1:
            sout = elem - 1
            sout = elem - 2
=== a product of matrices
run,a.py,a.json,--workers,3
{"N":2,"A":[[1,2],[3,4]],"B":[[5,6],[7,8]],"C":[[0,0],[0,0]]}
0 A[2,2] = 1 2 3 4
B[2,2] = 5 6 7 8
C[2,2] = 19 22 43 50

import dace
N = dace.symbol('N')
@dace.program
def mm(A: dace.int64[N, N], B: dace.int64[N, N], C: dace.int64[N, N]):
    for i, j, k in dace.map[0:N, 0:N, 0:N]:
        C[i, j] += A[i, k] * B[k, j]
=== the least element
run,a.py,a.json,--workers,64
{"N":5,"A":[12,15,30,7,11],"M":[9]}
0 A[5] = 12 15 30 7 11
M[1] = 7

import dace
N = dace.symbol('N')
@dace.program
def least(A: dace.int64[N], M: dace.int64[1]):
    for i in dace.map[0:N]:
        with dace.tasklet:
            a << A[i]
            m >> M(1, lambda x, y: min(x, y))[0]
            m = a
=== the second half into the first
run,a.py,a.json,--workers,4
{"N":8,"A":[1,2,3,4,5,6,7,8]}
0 A[8] = 5 6 7 8 5 6 7 8

import dace
N = dace.symbol('N')
@dace.program
def sh(A: dace.int64[N]):
    for i in dace.map[0:4]:
        A[i] = A[i+4]
=== how often each number is there
run,a.py,a.json,--workers,3
{"N":7,"A":[0,3,3,1,2,3,0],"H":[0,0,0,5]}
0 A[7] = 0 3 3 1 2 3 0
H[4] = 2 1 1 8

import dace
N = dace.symbol('N')
@dace.program
def hist(A: dace.int64[N], H: dace.int64[4]):
    for i in dace.map[0:N]:
        with dace.tasklet:
            a << A[i]
            h >> H(1, lambda x, y: x + y)[0:4]
            h[a] = 1
=== two maps side by side, each of which has a fault
run,a.py,a.json,--workers,4
{"A":[1,1,0],"C":[0,1,1],"T":[0,0,0],"B":[0,0,0]}
7 fault division at line 5: i=2

import dace
@dace.program
def two(A: dace.int64[3], C: dace.int64[3], T: dace.int64[3], B: dace.int64[3]):
    for i in dace.map[0:3]:
        T[i] = 10 // A[i]
    for i in dace.map[0:3]:
        B[i] = 1 // C[i]
=== a stencil in a loop
run,a.py,a.json,--workers,4
{"N":4,"A":[0,0,0,90],"B":[0,0,0,0]}
0 A[4] = 0 16 46 90
B[4] = 0 16 46 0

import dace
N = dace.symbol('N')
@dace.program
def jac(A: dace.int64[N], B: dace.int64[N]):
    for t in range(0, 3):
        for i in dace.map[1:N-1]:
            B[i] = (A[i-1] + A[i] + A[i+1]) // 3
        for i in dace.map[1:N-1]:
            A[i] = B[i]
=== a transposition
run,a.py,a.json,--workers,2
{"N":2,"M":3,"A":[[1,2,3],[4,5,6]],"B":[[0,0],[0,0],[0,0]]}
0 A[2,3] = 1 2 3 4 5 6
B[3,2] = 1 4 2 5 3 6

import dace
N = dace.symbol('N')
M = dace.symbol('M')
@dace.program
def tr(A: dace.int64[N, M], B: dace.int64[M, N]):
    for i, j in dace.map[0:N, 0:M]:
        B[j, i] = A[i, j]
=== a copy and a reduction
run,a.py,a.json,--workers,2
{"A":[[1,2,3],[4,5,6]],"B":[9,9]}
0 A[2,3] = 1 2 3 4 5 6
B[2] = 6 15

import dace
@dace.program
def red(A: dace.int64[2, 3], B: dace.int64[2]):
    T = dace.define_local([2, 3], dtype=dace.int64)
    T[:, :] = A[:, :]
    dace.reduce(lambda a, b: a + b, T, B, axis=1, identity=0)
=== a call for each row
run,a.py,a.json,--workers,2
{"M":2,"A":[[1,2],[3,4]],"B":[[0,0],[0,0]]}
0 A[2,2] = 1 2 3 4
B[2,2] = 2 4 6 8

import dace
M = dace.symbol('M')
@dace.program
def dbl(X: dace.int64[M], Y: dace.int64[M]):
    for i in dace.map[0:M]:
        Y[i] = X[i] * 2
@dace.program
def rows(A: dace.int64[2, M], B: dace.int64[2, M]):
    for r in dace.map[0:2]:
        dbl(A[r, 0:M], B[r, 0:M])
"#;

/// A program with what its run comes to.
#[derive(Clone, Copy)]
struct Program<'a> {
    name: &'a str,
    words: &'a str,
    arrays: &'a str,
    status: u64,
    written: &'a str,
    source: &'a str,
}

/// The program that a part of the text tells.
fn told(part: &str) -> Program<'_> {
    let (name, rest) = cut(part);
    let (words, rest) = cut(rest);
    let (arrays, rest) = cut(rest);
    let (status, rest) = rest.split_once(' ').unwrap_or(("", rest));
    let (written, source) = rest.split_once("\n\n").unwrap_or((rest, ""));
    Program {
        name,
        words,
        arrays,
        status: status.parse().unwrap_or(255),
        written,
        source,
    }
}

/// Adds the runs of a program that come to something else, by their numbers.
fn note_runs<R: Threads + Wait + Sync>(
    rt: &R,
    alloc: Global,
    program: &Program<'_>,
    wrong: &mut String,
) -> Result<(), Fail> {
    let files = [("a.py", program.source), ("a.json", program.arrays)];
    let sure = Failing {
        read: 255,
        write: 255,
    };
    for run in 0..RUNS {
        let gate = Delays::seeded(run);
        let (status, written) = answer_by(rt, alloc, program.words, &files, sure, &gate)?;
        let text = written.as_str().trim_end();
        let found = (status, String::from_str(alloc, text)?);
        note(wrong, program.name, &found, program.status, program.written)?;
    }
    Ok(())
}

#[test]
fn a_hundred_delayed_runs_come_to_the_same(rt: HostRuntime) -> Result<(), Fail> {
    let alloc = rt.alloc();
    let mut wrong = String::new(alloc);
    let mut programs = 0_u64;
    for part in PROGRAMS.split("=== ").skip(1) {
        note_runs(&rt, alloc, &told(part), &mut wrong)?;
        programs = programs.wrapping_add(1);
    }
    assert_eq!(rt; wrong.as_str(), "");
    assert_eq!(rt; programs, 11);
    Ok(())
}
