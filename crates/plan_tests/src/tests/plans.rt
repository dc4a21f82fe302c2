use super::states::{Entry, Record, drive, folder, paths, rows, rules, told};
use gd_names::Text;
use od_reconcile::plan;
use std::alloc::Global;
use std::test::Fail;

/// What a plan is made from: the rules, what was agreed on, the folder, the drive, and the paths for which it had no room.
type State = (
    &'static str,
    &'static [Entry],
    &'static [Entry],
    &'static [Record],
    &'static [&'static str],
);

fn planned(alloc: Global, (text, base, here, there, full): State) -> Result<String, Fail> {
    let host = Text::from_str(alloc, "h1")?;
    let plan = plan(
        alloc,
        &rows(alloc, base)?,
        &folder(alloc, here)?,
        &drive(alloc, there)?,
        &rules(alloc, text)?,
        &host,
        &paths(alloc, full)?,
    )?;
    Ok(told(alloc, &plan)?)
}

#[test]
fn each_side_gets_what_the_other_changed(rt: HostRuntime) -> Result<(), Fail> {
    let cases: [(&str, State, &str); 8] = [
        ("nothing anywhere", ("", &[], &[], &[], &[]), ""),
        (
            "the drive removed one file and has another one",
            ("", &[("/a", 1)], &[("/a", 1)], &[(2, 1, "b", 2)], &[]),
            "remove /a; fetch /b; ",
        ),
        (
            "the same where nothing was agreed on",
            ("", &[], &[("/a", 1)], &[(2, 1, "b", 2)], &[]),
            "fetch /b; send /a; ",
        ),
        (
            "both changed a file",
            (
                "",
                &[("/a.txt", 1)],
                &[("/a.txt", 2)],
                &[(2, 1, "a.txt", 3)],
                &[],
            ),
            "rename /a.txt /a-h1-safeBackup-0001.txt; fetch /a.txt; send /a-h1-safeBackup-0001.txt; ",
        ),
        (
            "the drive changed a file",
            ("", &[("/a", 1)], &[("/a", 1)], &[(2, 1, "a", 2)], &[]),
            "replace /a; ",
        ),
        (
            "the user changed a file",
            ("", &[("/a", 1)], &[("/a", 2)], &[(2, 1, "a", 1)], &[]),
            "overwrite /a; ",
        ),
        (
            "a folder with a changed file against a file",
            (
                "",
                &[("/d", 0), ("/d/f", 1)],
                &[("/d", 0), ("/d/f", 2)],
                &[(2, 1, "d", 3)],
                &[],
            ),
            "rename /d /d-h1-safeBackup-0001; fetch /d; make /d-h1-safeBackup-0001; send /d-h1-safeBackup-0001/f; ",
        ),
        (
            "a folder whose file went against a file",
            (
                "",
                &[("/d", 0), ("/d/f", 1)],
                &[("/d", 0)],
                &[(2, 1, "d", 2)],
                &[],
            ),
            "rmdir /d; fetch /d; ",
        ),
    ];
    for (name, state, want) in cases {
        let text = planned(rt.alloc(), state)?;
        assert!(rt; text.as_str() == want, "{name}: {text}");
    }
    Ok(())
}

#[test]
fn what_the_rules_skip_stays(rt: HostRuntime) -> Result<(), Fail> {
    let cases: [(&str, State, &str); 8] = [
        (
            "the folders above a kept file",
            (
                "/Parent/Blog/*",
                &[],
                &[],
                &[
                    (2, 1, "Parent", 0),
                    (3, 2, "Blog", 0),
                    (4, 3, "p", 1),
                    (5, 2, "x", 2),
                ],
                &[],
            ),
            "mkdir /Parent; mkdir /Parent/Blog; fetch /Parent/Blog/p; ",
        ),
        (
            "a kept folder beside a skipped file",
            ("d/", &[], &[("/d", 0)], &[(2, 1, "d", 1)], &[]),
            "rename /d /d-h1-safeBackup-0001; ",
        ),
        (
            "a folder that passes and holds a skipped file",
            (
                "*\n!*.tmp",
                &[("/d", 0), ("/d/a", 1)],
                &[],
                &[(2, 1, "d", 0), (3, 2, "a", 1), (4, 2, "x.tmp", 2)],
                &[],
            ),
            "mkdir /d; delete /d/a; ",
        ),
        (
            "a folder that does not pass and holds a skipped file",
            (
                "/d/*.txt",
                &[("/d", 0), ("/d/a.txt", 1)],
                &[],
                &[(2, 1, "d", 0), (3, 2, "a.txt", 1), (4, 2, "x", 2)],
                &[],
            ),
            "delete /d/a.txt; ",
        ),
        (
            "a file that came back beside a skipped folder",
            ("*\n!d/", &[("/d", 1)], &[("/d", 1)], &[(2, 1, "d", 0)], &[]),
            "remove /d; ",
        ),
        (
            "a skipped folder that passes under its new name",
            (
                "*\n!d/",
                &[],
                &[("/d", 0), ("/d/x", 9)],
                &[(2, 1, "d", 1)],
                &[],
            ),
            "rename /d /d-h1-safeBackup-0001; fetch /d; make /d-h1-safeBackup-0001; send /d-h1-safeBackup-0001/x; ",
        ),
        (
            "a file that is skipped under its new name",
            ("/a", &[], &[("/a", 1)], &[(2, 1, "a", 2)], &[]),
            "rename /a /a-h1-safeBackup-0001; fetch /a; ",
        ),
        (
            "another spelling that the rules skip",
            ("/a", &[], &[("/a", 1)], &[(2, 1, "A", 2)], &[]),
            "held /a CaseClash; ",
        ),
    ];
    for (name, state, want) in cases {
        let text = planned(rt.alloc(), state)?;
        assert!(rt; text.as_str() == want, "{name}: {text}");
    }
    Ok(())
}

#[test]
fn what_the_drive_does_not_take_is_held(rt: HostRuntime) -> Result<(), Fail> {
    let cases: [(&str, State, &str); 4] = [
        (
            "another spelling and a bad name",
            (
                "",
                &[],
                &[("/A.txt", 1), ("/con", 2), ("/empty", 3)],
                &[(2, 1, "a.txt", 4)],
                &[],
            ),
            "fetch /a.txt; send /empty; held /A.txt CaseClash; held /con BadName; ",
        ),
        (
            "a smaller spelling of a changed file",
            (
                "",
                &[("/a", 1)],
                &[("/A", 3), ("/a", 2)],
                &[(2, 1, "a", 1)],
                &[],
            ),
            "held /A CaseClash; held /a CaseClash; ",
        ),
        (
            "what is below a folder with a smaller spelling",
            (
                "",
                &[("/d", 0), ("/d/f", 1)],
                &[("/D", 0), ("/d", 0), ("/d/f", 1), ("/d/g", 2)],
                &[(2, 1, "d", 0), (3, 2, "f", 1)],
                &[],
            ),
            "held /D CaseClash; held /d/g CaseClash; ",
        ),
        (
            "no room",
            ("", &[], &[("/a", 1), ("/b", 2)], &[], &["/a"]),
            "send /b; held /a Quota; ",
        ),
    ];
    for (name, state, want) in cases {
        let text = planned(rt.alloc(), state)?;
        assert!(rt; text.as_str() == want, "{name}: {text}");
    }
    Ok(())
}

#[test]
fn bytes_that_a_side_has_are_moved(rt: HostRuntime) -> Result<(), Fail> {
    let cases: [(&str, State, &str); 6] = [
        (
            "a file moved on the drive",
            (
                "",
                &[("/a", 1)],
                &[("/a", 1)],
                &[(2, 1, "d", 0), (3, 2, "b", 1)],
                &[],
            ),
            "mkdir /d; move /a /d/b; ",
        ),
        (
            "a file moved by the user",
            ("", &[("/a", 1)], &[("/b", 1)], &[(2, 1, "a", 1)], &[]),
            "patch /a /b; ",
        ),
        (
            "another spelling",
            ("", &[("/a", 1)], &[("/A", 1)], &[(2, 1, "a", 1)], &[]),
            "patch /a /A; ",
        ),
        (
            "two files that changed places and spelling",
            (
                "",
                &[("/a", 1), ("/b", 2)],
                &[("/A", 2), ("/B", 1)],
                &[(2, 1, "a", 1), (3, 1, "b", 2)],
                &[],
            ),
            "delete /a; delete /b; send /A; send /B; ",
        ),
        (
            "what moves bars another one too",
            (
                "",
                &[("/a", 1), ("/b", 2), ("/c", 3), ("/d", 4)],
                &[("/B", 1), ("/C", 2), ("/D", 3), ("/e", 4)],
                &[
                    (2, 1, "a", 1),
                    (3, 1, "b", 2),
                    (4, 1, "c", 3),
                    (5, 1, "d", 4),
                ],
                &[],
            ),
            "delete /b; delete /c; delete /d; patch /a /B; send /C; send /D; send /e; ",
        ),
        (
            "a file that became a folder",
            (
                "",
                &[("/a", 1)],
                &[("/a", 0), ("/a/x", 2)],
                &[(2, 1, "a", 1)],
                &[],
            ),
            "rename /a /a-h1-safeBackup-0001; delete /a; make /a-h1-safeBackup-0001; send /a-h1-safeBackup-0001/x; ",
        ),
    ];
    for (name, state, want) in cases {
        let text = planned(rt.alloc(), state)?;
        assert!(rt; text.as_str() == want, "{name}: {text}");
    }
    Ok(())
}
