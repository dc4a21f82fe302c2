use super::*;
use std::test::Fail;

#[test]
fn tokens_are_written_and_read(rt: HostRuntime) -> Result<(), Fail> {
    let token = Token {
        epoch: 1,
        position: 2,
        start: 3,
    };
    let text = write_token(rt.alloc(), &token)?;
    assert_eq!(rt; text.as_str(), "t1.2.3");
    for (text, read) in [
        (
            "t1.2.3",
            Some(Token {
                epoch: 1,
                position: 2,
                start: 3,
            }),
        ),
        ("t01.2.3", None),
        ("t1.2", None),
        ("latest", None),
        (
            "t0.0.18446744073709551615",
            Some(Token {
                epoch: 0,
                position: 0,
                start: u64::MAX,
            }),
        ),
        ("t1.2.18446744073709551616", None),
        ("t1.2.3.4", None),
        ("t1..3", None),
        ("t1.+2.3", None),
        ("", None),
    ] {
        assert!(rt; read_token(text.as_bytes()) == read, "{text}");
    }
    Ok(())
}
