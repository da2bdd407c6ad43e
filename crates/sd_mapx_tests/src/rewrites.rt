//! What the calls answer.
use crate::chains::{read_chain, write_chain};
use sd_graph::{Bound, Path};
use sd_list::Sequence;
use sd_mapx::{Refused, collapse, expand, interchange, tile};
use std::alloc::Global;
use std::test::Fail;

/// A line is `CALL PATH: CHAIN -> ANSWER`, and the answer is another chain or the number of a condition; behind the path
/// of `tile` stand its sizes. In a chain of maps the outermost has the node 0, and their exits come behind the nested
/// graph. The variables of a chain are 0 to 11.
const CASES: &str = "\
collapse 0.0: 0 > 1 > graph -> 0 1 > graph
collapse 0.0: 0 1 > 2 3 > 4 > graph -> 0 1 2 3 > 4 > graph
collapse 0.1: 0 1 > 2 3 > 4 > graph -> 0 1 > 2 3 4 > graph
collapse 0.0: 0 ! > 1 > graph -> 0 1 ! > graph
collapse 0.0: 0 > 1 ! > graph -> 0 1 ! > graph
collapse 0.0: 0 ! > 1 ! > graph -> 0 1 ! > graph
collapse 0.0: 0 > 1 p5 p6 > graph -> 0 1 p5 p6 > graph
collapse 0.1.0.0: 3 > graph > 0 > 1 > graph -> 3 > graph > 0 1 > graph
collapse 0.0.0.0: graph > 0 > 1 > graph -> graph > 0 1 > graph
collapse 0.0: 0 1 2 3 > 4 5 6 7 > graph -> 0 1 2 3 4 5 6 7 > graph
collapse : 0 > 1 > graph -> 1
collapse 0: 0 > 1 > graph -> 1
collapse 1.0: 0 > 1 > graph -> 1
collapse 0.2: 0 > 1 > graph -> 1
collapse 0.3: 0 > 1 > graph -> 1
collapse 0.9: 0 > 1 > graph -> 1
collapse 0.0.0: 0 > 1 > graph -> 1
collapse 0.0.0.0: 0 > 1 > graph -> 1
collapse 0.1: 0 > 1 > graph -> 2
collapse 0.0: 0 p5 > 1 > graph -> 2
collapse 0.0: 0 > 1<0 > graph -> 3
collapse 0.0: 0 p5 > 1<0 > graph -> 2
collapse 0.0: 0 1 2 3 > 4 5 6 7 8 > graph -> 9
interchange 0.0: 0 > 1 > graph -> 1 > 0 > graph
interchange 0.0: 0 1 > 2 3 > 4 > graph -> 2 3 > 0 1 > 4 > graph
interchange 0.1: 0 > 1 > 2 > graph -> 0 > 2 > 1 > graph
interchange 0.0: 0 ! > 1 > graph -> 1 > 0 ! > graph
interchange 0.0: 0 > 1 p5 p6 > graph -> 1 > 0 p5 p6 > graph
interchange 0.1.0.0: 3 > graph > 0 > 1 > graph -> 3 > graph > 1 > 0 > graph
interchange 0.9: 0 > 1 > graph -> 1
interchange 0.1: 0 > 1 > graph -> 2
interchange 0.0: 0 p5 > 1<0 > graph -> 2
interchange 0.0: 0 > 1<0 > graph -> 3
interchange 0.0: 0 > 1 > 2 > 3 > 4 > 5 > 6 > 7 > graph -> 9
expand 0.0: 0 1 > graph -> 0 > 1 > graph
expand 0.0: 0 1 2 p5 > graph -> 0 > 1 2 p5 > graph
expand 0.1: 0 > 1 2 > graph -> 0 > 1 > 2 > graph
expand 0.0: 0 1 ! > graph -> 0 ! > 1 ! > graph
expand 0.1.0.0: 3 > graph > 0 1 > graph -> 3 > graph > 0 > 1 > graph
expand 0.0: 0 1<2 > graph -> 0 > 1 > graph
expand 0.1: 0 1 > graph -> 1
expand 0.0: 0 > graph -> 2
expand 0.0: 0 1 > 2 > 3 > 4 > 5 > 6 > graph -> 0 > 1 > 2 > 3 > 4 > 5 > 6 > graph
expand 0.0: 0 1 > 2 > 3 > 4 > 5 > 6 > 7 > graph -> 9
tile 0.0 2: 0 > graph -> 12 > 0 > graph
tile 0.0 4096: 0 ! > graph -> 12 ! > 0 ! > graph
tile 0.0 2: 0 p5 > graph -> 12 > 0 p5 > graph
tile 0.1 2: 0 > 1 > 2 > graph -> 0 > 12 > 1 > 2 > graph
tile 0.0 2,3: 0 1 > graph -> 12 13 > 0 1 > graph
tile 0.0 2,3,4,5: 0 1 2 3 > graph -> 12 13 14 15 > 0 1 2 3 > graph
tile 0.1.0.0 2: 3 > graph > 0 > graph -> 3 > graph > 12 > 0 > graph
tile 0.1 2: 0 > graph -> 1
tile 0.9 2: 0 > graph -> 1
tile 0.0 1: 0 > graph -> 2
tile 0.0 4097: 0 > graph -> 2
tile 0.0 2,1: 0 1 > graph -> 2
tile 0.0 2: 0 1 > graph -> 2
tile 0.0 2,2: 0 > graph -> 2
tile 0.0 : 0 > graph -> 2
tile 0.0 2: 0 > 1 > 2 > 3 > 4 > 5 > 6 > graph -> 9";

/// The path of a text, its numbers with points between them.
fn read_path(alloc: Global, text: &str) -> Result<Path, Fail> {
    let mut steps = Sequence::new(alloc);
    for word in text.split('.') {
        if !word.is_empty() {
            steps.push(word.parse()?)?;
        }
    }
    Ok(Path { steps })
}

/// The sizes of a text, with commas between them.
fn read_sizes(alloc: Global, text: &str) -> Result<Vec<u64>, Fail> {
    let mut sizes = Vec::new(alloc);
    for word in text.split(',') {
        if !word.is_empty() {
            sizes.push(word.parse()?)?;
        }
    }
    Ok(sizes)
}

/// What is told of an answer.
fn told(alloc: Global, answer: Result<Bound, Refused>) -> Result<String, Fail> {
    let mut text = String::new(alloc);
    match answer {
        Ok(bound) => write_chain(&mut text, &bound.graph)?,
        Err(Refused::Condition(number)) => write!(&mut text, "{number}")?,
        Err(Refused::Memory) => return Err(Fail::new("no memory")),
    }
    Ok(text)
}

#[test]
fn maps_are_rewritten_or_refused(rt: HostRuntime) -> Result<(), Fail> {
    let alloc = rt.alloc();
    for line in CASES.lines() {
        let (case, wanted) = line.split_once(" -> ").ok_or("no answer")?;
        let (call, chain) = case.split_once(": ").ok_or("no chain")?;
        let (call, path) = call.split_once(' ').ok_or("no path")?;
        let (path, sizes) = path.split_once(' ').unwrap_or((path, ""));
        let graph = read_chain(alloc, chain)?;
        let bound = Bound { graph };
        let at = read_path(alloc, path)?;
        let sizes = read_sizes(alloc, sizes)?;
        let answer = if call == "collapse" {
            collapse(alloc, &bound, &at)
        } else if call == "interchange" {
            interchange(alloc, &bound, &at)
        } else if call == "tile" {
            tile(alloc, &bound, &at, sizes.as_slice())
        } else {
            expand(alloc, &bound, &at)
        };
        let text = told(alloc, answer)?;
        assert_eq!(rt; text.as_str().trim_end_matches(" > "), wanted, "{line}");
    }
    Ok(())
}
