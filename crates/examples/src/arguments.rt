// The words that a program is called with.
use std::test::Fail;
use view::arguments::asked_size;

#[test]
fn sizes_that_are_asked_for(rt: HostRuntime) -> Result<(), Fail> {
    let size = asked_size("D", "24", "80").ok_or("no size")?;
    assert_eq!(rt; size.rows, 24);
    assert_eq!(rt; size.columns, 80);
    assert!(rt; asked_size("D", "1", "2").is_some());
    assert!(rt; asked_size("D", "007", "80").is_some());
    Ok(())
}

#[test]
fn words_that_ask_for_none(rt: HostRuntime) {
    for (kind, rows, columns) in [
        ("d", "24", "80"),
        ("", "24", "80"),
        ("D", "0", "80"),
        ("D", "25", "80"),
        ("D", "24", "81"),
        ("D", "-1", "80"),
        ("D", "", "80"),
        ("D", "24", "8 0"),
        ("D", "24", "18446744073709551696"),
    ] {
        assert!(rt; asked_size(kind, rows, columns).is_none());
    }
}
