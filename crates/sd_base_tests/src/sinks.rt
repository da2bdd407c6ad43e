//! Sinks of bytes.
use crate::sure::sure;
use sd_io::{MemSink, Sink, SureSink};

#[test]
fn listed_calls_fail_and_take_nothing(rt: HostRuntime) {
    let failing = sure(&rt, Vec::from_slice(rt.alloc(), &[1, 3]));
    let mut sink = MemSink::new(rt.alloc(), failing);
    let mut told = String::new(rt.alloc());
    for piece in "one,two,three,four".split(',') {
        let is_taken = sink.write(piece.as_bytes()).is_ok();
        sure(
            &rt,
            told.push_str(if is_taken { "taken " } else { "fails " }),
        );
    }
    assert_eq!(rt; told.as_str(), "taken fails taken fails ");
    assert!(rt; sink.bytes() == b"onethree".as_slice());
    sure(&rt, sink.write(&[b'x'; 10_000]));
    assert!(rt; sink.bytes().len() == 10_008);
}

#[test]
fn pieces_stand_in_the_order_written(rt: HostRuntime) {
    let mut sink = SureSink::new(rt.alloc());
    for piece in "one,,two".split(',') {
        sure(&rt, sink.write(piece.as_bytes()));
    }
    assert!(rt; sink.bytes() == b"onetwo".as_slice());
    sure(&rt, sink.write(&[b'x'; 10_000]));
    assert!(rt; sink.bytes().len() == 10_006);
}
