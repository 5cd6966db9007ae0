use crate::lines_in_order;
use crate::writing::write_four;
use std::test::Fail;

/// Ten thousand turns by four threads end, and every line is there.
#[test]
fn four_threads_take_ten_thousand_turns(rt: HostRuntime) -> Result<(), Fail> {
    let book = write_four(&rt, rt.alloc(), 2500).ok_or("no memory")?;
    assert_eq!(rt; book.lines.len(), 10_000);
    for author in 0..4 {
        assert!(rt;
            lines_in_order(&book, author) == Some(2500),
            "author {author}"
        );
    }
    Ok(())
}
