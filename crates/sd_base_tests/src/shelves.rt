//! Shelves of files.
use crate::sure::sure;
use sd_io::{MemShelf, Shelf, ShelfError, SinkError, SureShelf};
use std::alloc::Global;
use std::process::Abort;

/// The texts of all errors.
fn errors(rt: &impl Abort, alloc: Global) -> String {
    let mut told = String::new(alloc);
    for error in [ShelfError::Failed, ShelfError::TooLong, ShelfError::Memory] {
        sure(rt, write!(&mut told, "{error}, "));
    }
    for error in [SinkError::Failed, SinkError::Memory] {
        sure(rt, write!(&mut told, "{error}, "));
    }
    told
}

#[test]
fn each_error_has_its_text(rt: HostRuntime) {
    let wanted = "the file cannot be read, the file is too long, out of memory, \
        the output cannot be written, out of memory, ";
    assert_eq!(rt; errors(&rt, rt.alloc()).as_str(), wanted);
}

/// A file of this name and content.
fn file(rt: &impl Abort, alloc: Global, name: &str, content: &[u8]) -> (String, Vec<u8>) {
    let content = sure(rt, Vec::from_slice(alloc, content));
    (sure(rt, name.to_string(alloc)), content)
}

/// Two files named `a`, one between them without a byte, and a long one.
fn files(rt: &impl Abort, alloc: Global) -> Vec<(String, Vec<u8>)> {
    let mut files = Vec::new(alloc);
    for line in "a first,b ,a second".split(',') {
        let (name, content) = line.split_once(' ').unwrap_or((line, ""));
        sure(rt, files.push(file(rt, alloc, name, content.as_bytes())));
    }
    sure(rt, files.push(file(rt, alloc, "long", &[b'x'; 10_000])));
    files
}

/// The length of what is read, or why nothing is, for each file with the most bytes that it may have; and what the first file
/// named `a` holds.
fn told<S: Shelf>(rt: &impl Abort, alloc: Global, shelf: &mut S, calls: &str) -> String {
    let mut text = String::new(alloc);
    for call in calls.split(',') {
        let (name, most) = call.split_once(' ').unwrap_or((call, ""));
        let told = match shelf.read(alloc, name, sure(rt, most.parse())) {
            Ok(content) => write!(&mut text, "{} ", content.len()),
            Err(error) => write!(&mut text, "{error:?} "),
        };
        sure(rt, told);
    }
    let first = sure(rt, shelf.read(alloc, "a", 5));
    sure(
        rt,
        text.push_str(sure(rt, std::str::from_utf8(first.as_slice()))),
    );
    text
}

#[test]
fn listed_calls_and_missing_files_fail(rt: HostRuntime) {
    let failing = sure(&rt, Vec::from_slice(rt.alloc(), &[1]));
    let mut shelf = MemShelf::new(files(&rt, rt.alloc()), failing);
    let told = told(
        &rt,
        rt.alloc(),
        &mut shelf,
        "a 5,a 5,a 5,a 4,c 5,long 10000",
    );
    assert_eq!(rt; told.as_str(), "5 Failed 5 TooLong Failed 10000 first");
}

#[test]
fn the_first_file_of_a_name_is_read_to_its_limit(rt: HostRuntime) {
    let mut shelf = SureShelf::new(files(&rt, rt.alloc()));
    let told = told(&rt, rt.alloc(), &mut shelf, "a 5,b 0,long 10000,a 4,c 4");
    assert_eq!(rt; told.as_str(), "5 0 10000 TooLong Failed first");
}
