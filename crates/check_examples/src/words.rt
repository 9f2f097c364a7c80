//! Words that are refused, and what is left where they are.

use crate::fixture::{SUM, owned};
use mask_bytes::{MemSink, SureSource, read_whole};
use mask_check::{OpenGate, Status, UsageKind, check};
use std::test::Fail;

// Words, and what is wrong with them.
const REFUSED_WORDS: [(&[&str], UsageKind); 3] = [
    (&["mask", "ni", "7"], UsageKind::Argument),
    (&["mask", "xni", "1"], UsageKind::Task),
    (&["mask", "ni"], UsageKind::Words),
];

#[test]
fn refused_words_read_and_write_nothing(rt: HostRuntime) -> Result<(), Fail> {
    let alloc = rt.alloc();
    for (words, kind) in REFUSED_WORDS {
        let mut source = SureSource::make(SUM.as_bytes().to_vec(alloc)?);
        let mut sink = MemSink::make(alloc, 1000, 1000, Vec::new(alloc))?;
        let status = check(
            &rt,
            alloc,
            &owned(alloc, words)?,
            &mut source,
            &mut sink,
            &OpenGate,
            &mut Vec::new(alloc),
        );
        assert_eq!(rt; status, Status::Usage(kind), "at {words:?}");
        assert!(rt; sink.bytes().is_empty());
        let left = read_whole(alloc, &mut source, 1000)?;
        assert_eq!(rt; left.as_slice(), SUM.as_bytes());
    }
    Ok(())
}
