//! Does what is timed so many times, and prints what it comes to. The words are a subject, a file and a number, and so on
//! with the next three. `lex`, `line`, `parse` and `graph` take the text of the file so many times. `read` and `arrays`
//! read an arrays file with one array of so many elements, and `arrays` prints its line. `tasklet` has the name of a
//! tasklet in place of a file, and runs it at 1,024 points so many times. `tools/time_parts.py` runs it.
#![tactic(auto)]

mod arrays;
mod points;
mod tasklets;
mod texts;

use sd_list::NoMemory;
use std::alloc::Global;
use std::io::Write;
use std::{env, fs, io};

/// What a subject comes to for the bytes of a file.
fn outcome(alloc: Global, subject: &str, bytes: Vec<u8>, number: u64) -> Result<String, NoMemory> {
    match subject {
        "lex" => texts::lex(alloc, &bytes, number),
        "line" => texts::line(alloc, &bytes, number),
        "parse" => texts::parsed(alloc, &bytes, number),
        "graph" => texts::graph(alloc, &bytes, number),
        "read" => arrays::read(alloc, &bytes, number),
        "arrays" => arrays::printed(alloc, bytes, number),
        _ => Ok("no subject\n".to_string(alloc)?),
    }
}

fn main(rt: HostRuntime) -> io::Result<()> {
    let mut words = env::args(&rt)?.skip(1);
    for _ in 0..u64::MAX {
        let (Some(subject), Some(word), Some(number)) = (words.next(), words.next(), words.next())
        else {
            break;
        };
        let number = number.as_str().parse().unwrap_or(0);
        let outcome = if subject.as_str() == "tasklet" {
            points::sum(rt.alloc(), word.as_str(), number)
        } else {
            let bytes = fs::read(&rt, word.as_str())?;
            outcome(rt.alloc(), subject.as_str(), bytes, number)
        };
        match outcome {
            Ok(line) => rt.stdout().write_all(line.as_bytes())?,
            Err(NoMemory) => eprintln!(rt; "out of memory")?,
        }
    }
    Ok(())
}
