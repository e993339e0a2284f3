// The input of a program, part by part.
use std::test::Fail;
use view::input::{InputError, add_part, add_within};

#[test]
fn parts_up_to_the_limit(rt: HostRuntime) -> Result<(), Fail> {
    let mut input = Vec::new(rt.alloc());
    for _ in 0..256 {
        assert_eq!(rt; add_within(&mut input, &[b'x'; 4096]), Ok(()));
    }
    assert_eq!(rt; add_within(&mut input, b""), Ok(()));
    assert_eq!(rt; add_within(&mut input, b"x"), Err(InputError::TooLong));
    assert_eq!(rt; input.len(), 1_048_577);
    Ok(())
}

#[test]
fn parts_past_the_limit_are_added(rt: HostRuntime) -> Result<(), Fail> {
    let mut input = Vec::new(rt.alloc());
    for _ in 0..256 {
        assert_eq!(rt; add_part(&mut input, &[b'x'; 4096]), Ok(true));
    }
    assert_eq!(rt; add_part(&mut input, b""), Ok(true));
    assert_eq!(rt; add_part(&mut input, b"x"), Ok(false));
    assert_eq!(rt; add_part(&mut input, b"x"), Ok(false));
    assert_eq!(rt; input.len(), 1_048_578);
    Ok(())
}

#[test]
fn what_a_refusal_says(rt: HostRuntime) -> Result<(), Fail> {
    let text = InputError::TooLong.to_string(rt.alloc())?;
    assert_eq!(rt; text.as_str(), "the input is longer than 1048576 bytes");
    Ok(())
}
