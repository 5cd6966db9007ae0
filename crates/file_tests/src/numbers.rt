//! Numbers of archives as people write them.
use pots_vault::ranges_text;
use std::test::Fail;

#[test]
fn rows_of_numbers(rt: HostRuntime) -> Result<(), Fail> {
    let alloc = rt.alloc();
    assert_eq!(rt; ranges_text(alloc, &[])?.as_str(), "");
    assert_eq!(rt; ranges_text(alloc, &[7])?.as_str(), "7");
    assert_eq!(rt; ranges_text(alloc, &[0, 1, 2, 3])?.as_str(), "0-3");
    assert_eq!(rt; ranges_text(alloc, &[4, 6])?.as_str(), "4,6");
    assert_eq!(rt;
        ranges_text(alloc, &[0, 1, 3, 5, 6, 7, 8, 9])?.as_str(),
        "0-1,3,5-9"
    );
    assert_eq!(rt; ranges_text(alloc, &[511])?.as_str(), "511");
    Ok(())
}
