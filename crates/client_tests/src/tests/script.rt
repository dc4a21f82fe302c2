use od_cli::{Content, Line, ScriptFault, read_script};
use std::alloc::Global;
use std::test::Fail;

/// How many lines a text spells.
fn count(alloc: Global, text: &[u8]) -> Result<usize, ScriptFault> {
    let lines = read_script(alloc, text)?;
    Ok(lines.len())
}

#[test]
fn scripts(rt: HostRuntime) {
    let rows = [
        ("", 0),
        ("pull", 1),
        ("pull\n", 1),
        ("\n# café\npull\n\n", 1),
        ("other put /a.txt \"hi\"", 1),
        ("other put /a \"\"\nother mkdir /b\npull", 3),
        ("other move /a /b/c\nother rm /b\ndrive", 3),
        ("other put /a fill 1 00", 1),
        (
            "page 200\nexpire 4294967295\nrestore\nendsession 1\npull",
            5,
        ),
        ("sync\nendsession 1\nsync\npage 1", 4),
    ];
    for (text, wanted) in rows {
        assert_eq!(rt; count(rt.alloc(), text.as_bytes()), Ok(wanted), "at {text}");
    }
}

#[test]
fn bad_lines(rt: HostRuntime) {
    let rows = [
        ("other put / \"x\"", 1),
        ("other put /a x", 1),
        ("other put /a \"x", 1),
        ("other put /a \"x\"y\"", 1),
        ("other put /a", 1),
        ("other  put /a \"x\"", 1),
        ("other put /a  \"x\"", 1),
        ("other mkdir /a b", 1),
        ("sync --resync", 1),
        ("local ", 1),
        ("other move /a", 1),
        ("other move /a /b c", 1),
        ("other move / /b", 1),
        ("other rm /", 1),
        ("other copy /a /b", 1),
        ("other put /a fill 0 00", 1),
        ("other put /a fill 01 00", 1),
        ("other put /a fill 70000001 00", 1),
        ("other put /a fill 18446744073709551617 00", 1),
        ("other put /a fill 1 0", 1),
        ("other put /a fill 1 0g", 1),
        ("drive ", 1),
        ("pull ", 1),
        ("page 0", 1),
        ("page 201", 1),
        ("page 2 ", 1),
        ("expire", 1),
        ("expire 4294967296", 1),
        ("endsession 01", 1),
        ("restore 1", 1),
        ("page 2\nsync", 2),
        ("expire 1\npull\nsync", 3),
        ("restore\n\nsync", 3),
        ("pull\r\n", 1),
        ("pull\n# what\nwhat\nwhat", 3),
    ];
    for (text, wanted) in rows {
        assert_eq!(rt;
            count(rt.alloc(), text.as_bytes()),
            Err(ScriptFault::BadLine(wanted)),
            "at {text}"
        );
    }
    let not_text = [b'p', b'u', b'l', b'l', b'\n', b'#', 0xFF];
    assert_eq!(rt; count(rt.alloc(), &not_text), Err(ScriptFault::BadLine(2)));
}

#[test]
fn puts(rt: HostRuntime) -> Result<(), Fail> {
    let alloc = rt.alloc();
    let lines = read_script(
        alloc,
        b"other put /a%20b.txt \"hi there\"\nother put /c fill 70000000 aF",
    )?;
    let [
        Line::OtherPut(path, Content::Text(text)),
        Line::OtherPut(_, Content::Fill(count, byte)),
    ] = lines.as_slice()
    else {
        assert!(rt; false, "two puts");
        return Ok(());
    };
    assert_eq!(rt; path.write(alloc)?.as_str(), "/a%20b.txt");
    assert_eq!(rt; text.as_slice(), b"hi there".as_slice());
    assert_eq!(rt; *count, 70_000_000);
    assert_eq!(rt; *byte, 0xAF);
    Ok(())
}
