use super::*;
use gd_item::digest_of;
use gd_names::{List, Path, Text};
use std::alloc::Global;
use std::test::Fail;

/// The path with these names, each after a slash.
fn path(alloc: Global, names: &[u8]) -> Result<Path, Fail> {
    let mut list = List::new(alloc);
    for name in names.split(|b| *b == b'/') {
        if !name.is_empty() {
            list.push(Text::from_bytes(alloc, name)?)?;
        }
    }
    Ok(Path::from_names(list))
}

/// The text, so many times.
fn times(alloc: Global, count: usize, text: &str) -> Result<String, Fail> {
    let mut all = String::new(alloc);
    for _ in 0..count {
        all.push_str(text)?;
    }
    Ok(all)
}

/// The line for which bytes are refused.
fn refused(alloc: Global, bytes: &[u8]) -> Option<RuleFault> {
    match Rules::read(alloc, bytes) {
        Ok(_) => None,
        Err(fault) => Some(fault),
    }
}

#[test]
fn bad_lines_are_named(rt: HostRuntime) -> Result<(), Fail> {
    for (bytes, line) in [
        (b"/a\n/b//c".as_slice(), Some(2)),
        (b"".as_slice(), None),
        (b"# a//b\n\n;\n/a\r\n".as_slice(), None),
        (b"\n!\n".as_slice(), Some(2)),
        (b"/a\n\n/".as_slice(), Some(3)),
        (b"//".as_slice(), Some(1)),
        (b"/a\n#\xff\n/".as_slice(), Some(2)),
    ] {
        assert!(rt; refused(rt.alloc(), bytes) == line.map(|line| RuleFault::BadRule { line }));
    }
    for (count, text, line) in [
        (1000, "/a\n", None),
        (1001, "/a\n", Some(1001)),
        (65_536, "#", None),
        (65_537, "#", Some(1)),
        (65_537, "\n", Some(65_537)),
    ] {
        let bytes = times(rt.alloc(), count, text)?;
        assert!(rt;
            refused(rt.alloc(), bytes.as_bytes()) == line.map(|line| RuleFault::BadRule { line }),
            "{count}"
        );
    }
    Ok(())
}

/// Whether the entry at a path, a folder where it ends with a slash, passes under the rules of the file.
fn passes(alloc: Global, file: &[u8], entry: &[u8]) -> Result<bool, Fail> {
    let rules = Rules::read(alloc, file)?;
    let path = path(alloc, entry)?;
    Ok(rules.passes(&path, entry.ends_with(b"/")))
}

#[test]
fn entries_pass(rt: HostRuntime) -> Result<(), Fail> {
    for (file, entry, verdict) in [
        (b"".as_slice(), b"/x".as_slice(), true),
        (b"# nothing", b"/x", true),
        (b"Docs/", b"/x/Docs/", true),
        (b"Docs/", b"/x/Docs", false),
        (b"Docs/", b"/Docs/a", true),
        (b"Docs/", b"/docs/a", false),
        (b"/a/**/z*", b"/a/z", true),
        (b"/a/**/z*", b"/a/b/c/z1", true),
        (b"/a/**/z*", b"/a/b", false),
        (b"!/Secret/*\n/*", b"/Secret/", true),
        (b"!/Secret/*\n/*", b"/Secret/k", false),
        (b"!/Secret/*\n/*", b"/a", true),
        (b"-*.tmp\r\n/*\r\n", b"/a.tmp", false),
        (b"-*.tmp\r\n/*\r\n", b"/a.tm", true),
        (b"!/a", b"/b", false),
        (b"/x**y", b"/xy", true),
        (b"/x**y", b"/x/y", false),
        (b"b", b"/a/b", true),
        (b"/b", b"/a/b", false),
    ] {
        let passed = passes(rt.alloc(), file, entry)?;
        assert_eq!(rt; passed, verdict);
    }
    Ok(())
}

/// Whether rules have the digest of their file.
fn has_digest(alloc: Global, file: &[u8]) -> Result<bool, Fail> {
    let rules = Rules::read(alloc, file)?;
    Ok(*rules.digest() == digest_of(file))
}

#[test]
fn digests_are_those_of_the_file(rt: HostRuntime) -> Result<(), Fail> {
    let same = has_digest(rt.alloc(), b"/a")?;
    assert!(rt; same);
    Ok(())
}

/// Forty stars against 255 bytes, and 50 components, half of them `**`, against 200 names: to try all ways to part
/// them would take longer than anyone waits.
#[test]
fn many_runs_end_soon(rt: HostRuntime) -> Result<(), Fail> {
    let stars = times(rt.alloc(), 40, "*a")?;
    let name = times(rt.alloc(), 255, "a")?;
    let runs = times(rt.alloc(), 25, "/**/a")?;
    let names = times(rt.alloc(), 200, "/a")?;
    let (stars, runs) = (stars.as_str(), runs.as_str());
    let file = format!(in rt.alloc(); "/{stars}b\n{runs}/b")?;
    let rules = Rules::read(rt.alloc(), file.as_bytes())?;
    assert!(rt; !rules.passes(&path(rt.alloc(), name.as_bytes())?, false));
    assert!(rt; !rules.passes(&path(rt.alloc(), names.as_bytes())?, false));
    let file = format!(in rt.alloc(); "/{stars}")?;
    let rules = Rules::read(rt.alloc(), file.as_bytes())?;
    assert!(rt; rules.passes(&path(rt.alloc(), name.as_bytes())?, false));
    Ok(())
}
