use super::*;
use std::test::Fail;

fn siblings(alloc: Global) -> Result<List<Sibling>, Fail> {
    let mut list = List::new(alloc);
    for (id, name) in [(2, "a.txt"), (3, "A 1.TXT")] {
        list.push(Sibling {
            id,
            name: Text::from_str(alloc, name)?,
            folder: false,
        })?;
    }
    Ok(list)
}

#[test]
fn settles(rt: HostRuntime) -> Result<(), Fail> {
    let alloc = rt.alloc();
    let siblings = siblings(alloc)?;
    assert_eq!(rt; siblings.len(), 2);
    let name = Text::from_str(alloc, "a.txt")?;
    let rows = [
        (Conflict::Fail, false, "refused"),
        (Conflict::Replace, false, "over 2"),
        (Conflict::Rename, false, "free a 2.txt"),
        (Conflict::Replace, true, "refused"),
    ];
    for (behaviour, folder, wanted) in rows {
        let settled = match settle(alloc, behaviour, &siblings, &name, folder)? {
            Settle::Free(name) => format!(in alloc; "free {}", name.as_str())?,
            Settle::Over(id) => format!(in alloc; "over {id}")?,
            Settle::Refuse => String::from_str(alloc, "refused")?,
        };
        assert_eq!(rt; settled.as_str(), wanted, "at {behaviour:?}");
    }
    Ok(())
}
