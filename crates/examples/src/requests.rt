// The words that a program is called with.
use std::test::Fail;
use view::requests::{Kind, asked_panel};

#[test]
fn panels_that_are_asked_for(rt: HostRuntime) -> Result<(), Fail> {
    for (letter, kind) in [
        ("D", Kind::DeferredWrap),
        ("C", Kind::ImmediateWrap),
        ("T", Kind::Sticking),
    ] {
        let request = asked_panel(letter, "24", "80").ok_or("no panel")?;
        assert_eq!(rt; request.kind, kind);
        assert_eq!(rt; request.size.rows, 24);
        assert_eq!(rt; request.size.columns, 80);
    }
    assert!(rt; asked_panel("D", "1", "2").is_some());
    assert!(rt; asked_panel("D", "007", "80").is_some());
    Ok(())
}

#[test]
fn words_that_ask_for_no_panel(rt: HostRuntime) {
    for (kind, rows, columns) in [
        ("d", "24", "80"),
        ("E", "24", "80"),
        ("DC", "24", "80"),
        ("", "24", "80"),
        ("D", "0", "80"),
        ("D", "25", "80"),
        ("D", "24", "81"),
        ("D", "-1", "80"),
        ("D", "", "80"),
        ("D", "24", "8 0"),
        ("D", "24", "18446744073709551696"),
    ] {
        assert!(rt; asked_panel(kind, rows, columns).is_none());
    }
}
