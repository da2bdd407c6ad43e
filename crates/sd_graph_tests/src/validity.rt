//! Whether graphs are valid.
use crate::cases::{CASES, EXAMPLE};
use crate::written::read_graph;
use sd_graph::Bound;
use sd_validate::{Invalid, validate};
use std::alloc::Global;
use std::test::Fail;

/// The text of a graph, with the part that is to be repeated as often as the number behind it says.
fn written(alloc: Global, case: &str) -> Result<String, Fail> {
    let (part, other) = case.split_once(" => ").unwrap_or((EXAMPLE, case));
    let text = EXAMPLE.replacen(alloc, part, other, 1)?;
    let (before, rest) = text
        .as_str()
        .split_once('{')
        .unwrap_or((text.as_str(), "}0"));
    let (part, rest) = rest.split_once('}').ok_or("no end of a part")?;
    let (count, behind) = rest.split_once(' ').unwrap_or((rest, ""));
    let repeated = part.repeat(alloc, count.parse()?)?;
    Ok(format!(in alloc; "{before}{repeated}{behind}")?)
}

/// What `validate` tells of a graph: `valid`, or the lowest rule that fails, with its place.
fn verdict(alloc: Global, text: &str) -> Result<String, Fail> {
    let graph = read_graph(alloc, text)?;
    match validate(alloc, &Bound { graph }) {
        Ok(()) => Ok("valid".to_string(alloc)?),
        Err(Invalid::Memory) => Err(Fail::new("no memory")),
        Err(Invalid::At { rule, path }) => {
            Ok(format!(in alloc; "rule {rule} at {:?}", path.steps.as_slice())?)
        }
    }
}

#[test]
fn the_lowest_rule_is_told_at_its_first_place(rt: HostRuntime) -> Result<(), Fail> {
    let alloc = rt.alloc();
    for line in CASES.lines() {
        if line.starts_with('#') {
            continue;
        }
        let (case, wanted) = line.split_once(" -> ").ok_or("no verdict")?;
        let text = written(alloc, case)?;
        let told = verdict(alloc, text.as_str())?;
        assert_eq!(rt; told.as_str(), wanted, "{line}");
    }
    Ok(())
}
