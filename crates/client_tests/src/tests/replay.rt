use gd_names::{Bytes, List, MemorySink, MemorySource};
use od_cli::{ReplayStatus, replay_main};
use std::alloc::Global;
use std::test::Fail;

fn words(alloc: Global, words: &[&str]) -> Result<Vec<String>, Fail> {
    let mut all = Vec::new(alloc);
    for word in words {
        all.push(String::from_str(alloc, word)?)?;
    }
    Ok(all)
}

/// Replays a script that is given seven bytes at a time, with the listed calls failing, and gives what is written.
fn replay_text(
    alloc: Global,
    script: &[u8],
    failing_reads: Vec<u64>,
    failing_writes: Vec<u64>,
) -> Result<(ReplayStatus, Bytes), Fail> {
    let bytes = Bytes::from_slice(alloc, script)?;
    let mut source = MemorySource::new(bytes, 7, List::from_vec(failing_reads));
    let mut sink = MemorySink::new(alloc, List::from_vec(failing_writes));
    let words = words(alloc, &["replay"])?;
    let status = replay_main(alloc, words.as_slice(), &mut source, &mut sink);
    let written = sink.written().clone()?;
    Ok((status, written))
}

#[test]
fn scripts(rt: HostRuntime) -> Result<(), Fail> {
    let alloc = rt.alloc();
    let rows: [(&str, &str, ReplayStatus); 10] = [
        ("", "", ReplayStatus::Replayed),
        ("pull", "pull 1\n", ReplayStatus::Replayed),
        (
            "other put /x/a \"1\"\nother mkdir /d\nother mkdir /D\nother put /d \"1\"\npull\n",
            "other 404 itemNotFound\nother 409 nameAlreadyExists\nother 409 nameAlreadyExists\npull 2\n/d/\n",
            ReplayStatus::Replayed,
        ),
        (
            "sync\nwhat\n",
            "line 2 is not a script line\n",
            ReplayStatus::BadLine(2),
        ),
        (
            "other mkdir /d\nother put /d/a.txt \"hi\"\npull\n",
            "pull 3\n/d/\n/d/a.txt 2 8f434346648f6b96df89dda901c5176b10a6d83961dd3c1ac88b59b2dc327aa4\n",
            ReplayStatus::Replayed,
        ),
        (
            "other mkdir /a\nother mkdir /a/f\nother mkdir /b\nother move /a /b/a\npull\n",
            "pull 5\n/b/\n/b/a/\n/b/a/f/\n",
            ReplayStatus::Replayed,
        ),
        (
            "other mkdir /a\nother move /a /a/x\nother move /a /A\nother rm /a\npull\n",
            "other 400 invalidRequest\npull 4\n",
            ReplayStatus::Replayed,
        ),
        (
            "other mkdir /d\nother move /d /x/d\nother rm /x\nother move /d /d\ndrive\n",
            "other 404 itemNotFound\nother 404 itemNotFound\ndrive 3\n/d/\n",
            ReplayStatus::Replayed,
        ),
        (
            "other put /a \"one\"\nother put /A fill 65 61\nother put /b fill 4194305 00\nother put /c fill 64 7e\ndrive\n",
            "other 413 invalidRequest\ndrive 4\n/a 65 635361c48bb9eab14198e76ea8ab7f1a41685d6ad62aa9146d301d4f17eb0ae0\n/c 64 \"~~~~~~~~~~~~~~~~~~~~~~~~~~~~~~~~~~~~~~~~~~~~~~~~~~~~~~~~~~~~~~~~\"\n",
            ReplayStatus::Replayed,
        ),
        (
            "other put /d \"1\"\nother mkdir /d\nother mkdir /d/e\nother put /d/e \"2\"\nother move /d /con\nother put /d fill 1 22\ndrive\npull\n",
            "other 409 nameAlreadyExists\nother 400 invalidRequest\nother 400 invalidRequest\nother 400 invalidRequest\ndrive 3\n/d 1 8a331fdde7032f33a71e1b2e257d80166e348e00fcb17914f48bdb57a1c63007\npull 3\n/d 1 8a331fdde7032f33a71e1b2e257d80166e348e00fcb17914f48bdb57a1c63007\n",
            ReplayStatus::Replayed,
        ),
    ];
    for (script, output, status) in rows {
        let (ended, written) = replay_text(
            alloc,
            script.as_bytes(),
            Vec::new(alloc),
            Vec::new(alloc),
        )?;
        assert_eq!(rt; ended, status, "at {script}");
        assert_eq!(rt; written.as_slice(), output.as_bytes(), "at {script}");
    }
    Ok(())
}

/// A pull reads 4,096 pages at most: a drive with as many items as that is pulled, one with an item more is not.
#[test]
fn a_pull_ends_behind_the_greatest_number_of_pages(rt: HostRuntime) -> Result<(), Fail> {
    let alloc = rt.alloc();
    let mut script = String::from_str(alloc, "page 1\n")?;
    for number in 0..4_095 {
        script.push_str(format!(in alloc; "other mkdir /{number}\n")?.as_str())?;
    }
    script.push_str("pull\nother mkdir /last\npull\n")?;
    let (ended, written) = replay_text(alloc, script.as_bytes(), Vec::new(alloc), Vec::new(alloc))?;
    assert_eq!(rt; ended, ReplayStatus::Replayed);
    assert!(rt;
        written
            .as_slice()
            .starts_with(b"pull 4096\n/0/\n/1/\n/10/\n")
    );
    assert!(rt; written.as_slice().ends_with(b"\n/999/\npull Endless\n"));
    Ok(())
}

/// A pull gives the drive's items in pages of any size, whatever was done between two pulls.
#[test]
fn pulls(rt: HostRuntime) -> Result<(), Fail> {
    let alloc = rt.alloc();
    let rows: [(&str, &str); 2] = [
        (
            "page 2\nother put /a \"x\"\nother put /b \"y\"\npull\nother move /a /c\npull\nother rm /b\nother mkdir /d\nother move /c /d/c\npull\npage 1\npull\n",
            "pull 3\n/a 1 2d711642b726b04401627ca9fbac32f5c8530fb1903cc4db02258717921a4881\n/b 1 a1fce4363854ff888cff4b8e7875d600c2682390412a8cf79b37d0b11148b0fa\npull 4\n/b 1 a1fce4363854ff888cff4b8e7875d600c2682390412a8cf79b37d0b11148b0fa\n/c 1 2d711642b726b04401627ca9fbac32f5c8530fb1903cc4db02258717921a4881\npull 7\n/d/\n/d/c 1 2d711642b726b04401627ca9fbac32f5c8530fb1903cc4db02258717921a4881\npull 7\n/d/\n/d/c 1 2d711642b726b04401627ca9fbac32f5c8530fb1903cc4db02258717921a4881\n",
        ),
        (
            "other put /a \"x\"\nsync\nexpire 2\nrestore\nendsession 1\npull\ndrive\n",
            "sync Settled\npull 2\n/a 1 2d711642b726b04401627ca9fbac32f5c8530fb1903cc4db02258717921a4881\ndrive 2\n/a 1 \"x\"\n",
        ),
    ];
    for (script, output) in rows {
        let (ended, written) = replay_text(
            alloc,
            script.as_bytes(),
            Vec::new(alloc),
            Vec::new(alloc),
        )?;
        assert_eq!(rt; ended, ReplayStatus::Replayed, "at {script}");
        assert_eq!(rt; written.as_slice(), output.as_bytes(), "at {script}");
    }
    Ok(())
}

/// A sync fetches what the drive has at free paths, asks for the changes alone, and ends Unsettled where a path is not free.
#[test]
fn syncs(rt: HostRuntime) -> Result<(), Fail> {
    let alloc = rt.alloc();
    let rows: [(&str, &str); 7] = [
        ("sync\nrequests\n", "sync Settled\nrequests delta 1\n"),
        (
            "other put /a.txt \"hi\"\nsync\nlocal\ndrive\nrequests\n",
            "sync Settled\nlocal\n/a.txt 2 \"hi\"\ndrive 2\n/a.txt 2 \"hi\"\nrequests content 1 download 1 delta 2\n",
        ),
        (
            "other mkdir /d\nother put /d/f \"1\"\nother mkdir /e\nsync\nlocal\n",
            "sync Settled\nlocal\n/d/\n/d/f 1 \"1\"\n/e/\n",
        ),
        (
            "other put /a \"1\"\nsync\nother put /b \"2\"\nsync\nlocal\nrequests\n",
            "sync Settled\nsync Settled\nlocal\n/a 1 \"1\"\n/b 1 \"2\"\nrequests content 2 download 2 delta 4\n",
        ),
        (
            "other put /a \"1\"\nsync\nother put /a \"2\"\nsync\nlocal\n",
            "sync Settled\nsync Unsettled\nlocal\n/a 1 \"1\"\n",
        ),
        (
            "other put /d \"1\"\nsync\nother rm /d\nother mkdir /d\nother put /d/f \"2\"\nrequests\nsync\nrequests\n",
            "sync Settled\nrequests content 1 download 1 delta 2\nsync Unsettled\nrequests delta 3\n",
        ),
        ("requests\nlocal\n", "requests\nlocal\n"),
    ];
    for (script, output) in rows {
        let (ended, written) = replay_text(
            alloc,
            script.as_bytes(),
            Vec::new(alloc),
            Vec::new(alloc),
        )?;
        assert_eq!(rt; ended, ReplayStatus::Replayed, "at {script}");
        assert_eq!(rt; written.as_slice(), output.as_bytes(), "at {script}");
    }
    Ok(())
}

#[test]
fn faults(rt: HostRuntime) -> Result<(), Fail> {
    let alloc = rt.alloc();
    let (ended, written) = replay_text(
        alloc,
        b"pull\npull\n",
        vec![in alloc; 2]?,
        Vec::new(alloc),
    )?;
    assert_eq!(rt; ended, ReplayStatus::ReadFault);
    assert_eq!(rt; written.len(), 0);
    let (ended, _) = replay_text(alloc, b"pull\n", Vec::new(alloc), vec![in alloc; 1]?)?;
    assert_eq!(rt; ended, ReplayStatus::WriteFault);
    Ok(())
}

/// Replays a text of so many bytes.
fn replay_long(alloc: Global, length: usize, words: &[String]) -> Result<ReplayStatus, Fail> {
    let long = Bytes::from_vec(vec![in alloc; b'#'; length]?);
    let mut source = MemorySource::new(long, 1_000_000, List::new(alloc));
    let mut sink = MemorySink::new(alloc, List::new(alloc));
    Ok(replay_main(alloc, words, &mut source, &mut sink))
}

#[test]
fn refused(rt: HostRuntime) -> Result<(), Fail> {
    let alloc = rt.alloc();
    let replay = words(alloc, &["replay"])?;
    let long = replay_long(alloc, 8_388_609, replay.as_slice())?;
    assert_eq!(rt; long, ReplayStatus::TooLong);
    let other = words(alloc, &["replay", "replay"])?;
    let usage = replay_long(alloc, 1, other.as_slice())?;
    assert_eq!(rt; usage, ReplayStatus::Usage);
    assert_eq!(rt; ReplayStatus::WriteFault.number(), 8);
    Ok(())
}
