use gd_names::{
    Bytes, EscapeFault, List, MemorySink, MemorySource, NameFault, Path, PathFault, Sink,
    SinkFault, Source, SourceFault, Text, TextFault, check_name, copy_name, escape_segment,
    path_fits, unescape_segment,
};
use std::alloc::Global;
use std::test::Fail;

fn text(alloc: Global, bytes: &str) -> Result<Text, Fail> {
    Ok(Text::from_str(alloc, bytes)?)
}

#[test]
fn texts(rt: HostRuntime) -> Result<(), Fail> {
    let alloc = rt.alloc();
    assert_eq!(rt;
        Text::from_bytes(alloc, &[0xFF]).err(),
        Some(TextFault::NotUtf8)
    );
    assert_eq!(rt; Text::from_bytes(alloc, b"hi")?.as_str(), "hi");
    assert_eq!(rt;
        Bytes::from_slice(alloc, b"hi")?.as_slice(),
        b"hi".as_slice()
    );
    Ok(())
}

#[test]
fn names(rt: HostRuntime) -> Result<(), Fail> {
    let alloc = rt.alloc();
    let rows = [
        ("a", Ok(())),
        ("", Err(NameFault::Empty)),
        ("con", Err(NameFault::Reserved)),
        ("con.txt", Ok(())),
        ("a:b", Err(NameFault::BadByte)),
        ("..", Err(NameFault::BadByte)),
        (" a", Err(NameFault::Edge)),
        ("~$a", Err(NameFault::Reserved)),
        ("x_VTI_y", Err(NameFault::Reserved)),
        (".Lock", Err(NameFault::Reserved)),
    ];
    for (name, wanted) in rows {
        assert_eq!(rt; check_name(&text(alloc, name)?), wanted, "at {name}");
    }
    for (length, wanted) in [(255, Ok(())), (256, Err(NameFault::TooLong))] {
        let letters = vec![in alloc; b'x'; length]?;
        assert_eq!(rt;
            check_name(&Text::from_bytes(alloc, &letters)?),
            wanted,
            "at {length}"
        );
    }
    Ok(())
}

#[test]
fn segments(rt: HostRuntime) -> Result<(), Fail> {
    let alloc = rt.alloc();
    assert_eq!(rt;
        escape_segment(alloc, &text(alloc, "a b%")?)?.as_str(),
        "a%20b%25"
    );
    assert_eq!(rt; unescape_segment(alloc, b"a%20b")?.as_str(), "a b");
    for bad in ["a%2Fb", "a%2", ""] {
        assert_eq!(rt;
            unescape_segment(alloc, bad.as_bytes()).err(),
            Some(EscapeFault::BadEscape),
            "at {bad}"
        );
    }
    Ok(())
}

#[test]
fn paths(rt: HostRuntime) -> Result<(), Fail> {
    let alloc = rt.alloc();
    for (spelled, names) in [("/", 0), ("/a/b", 2)] {
        let path = Path::read(alloc, spelled.as_bytes())?;
        assert_eq!(rt; path.names().len(), names, "at {spelled}");
        assert_eq!(rt; path.write(alloc)?.as_str(), spelled);
        assert!(rt; path_fits(&path));
    }
    for bad in ["a", "/a/"] {
        assert_eq!(rt;
            Path::read(alloc, bad.as_bytes()).err(),
            Some(PathFault::BadPath),
            "at {bad}"
        );
    }
    Ok(())
}

#[test]
fn copies(rt: HostRuntime) -> Result<(), Fail> {
    let alloc = rt.alloc();
    let host = text(alloc, "h1")?;
    let mut taken = List::new(alloc);
    taken.push(text(alloc, "A-H1-safebackup-0001.txt")?)?;
    let rows = [
        ("a.txt", false, "a-h1-safeBackup-0002.txt"),
        ("README", false, "README-h1-safeBackup-0001"),
        (".bashrc", false, ".bashrc-h1-safeBackup-0001"),
        ("d.x", true, "d.x-h1-safeBackup-0001"),
    ];
    for (name, folder, wanted) in rows {
        let copy = copy_name(alloc, &text(alloc, name)?, folder, &host, &taken)?;
        assert_eq!(rt; copy, Some(text(alloc, wanted)?), "at {name}");
    }
    Ok(())
}

#[test]
fn source_in_memory(rt: HostRuntime) -> Result<(), Fail> {
    let alloc = rt.alloc();
    let failing = List::from_vec(vec![in alloc; 2]?);
    let mut source = MemorySource::new(Bytes::from_slice(alloc, b"hello")?, 2, failing);
    let mut room = [0; 4];
    for wanted in [
        Ok("he"),
        Err(SourceFault::Failed),
        Ok("ll"),
        Ok("o"),
        Ok(""),
    ] {
        match (source.read(&mut room), wanted) {
            (Ok(count), Ok(piece)) => assert_eq!(rt; &room[..count], piece.as_bytes()),
            (read, piece) => assert_eq!(rt; read.err(), piece.err()),
        }
    }
    Ok(())
}

#[test]
fn sink_in_memory(rt: HostRuntime) -> Result<(), Fail> {
    let alloc = rt.alloc();
    let failing = List::from_vec(vec![in alloc; 2]?);
    let mut sink = MemorySink::new(alloc, failing);
    assert_eq!(rt; sink.write(b"ab"), Ok(()));
    assert_eq!(rt; sink.write(b"cd"), Err(SinkFault::Failed));
    assert_eq!(rt; sink.write(b"ef"), Ok(()));
    assert_eq!(rt; sink.written().as_slice(), b"abef".as_slice());
    Ok(())
}
