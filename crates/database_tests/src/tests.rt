//! What the statements keep in a real file, which no clause says.
use gd_item::{Digest, Item, ItemId, Kind, Tag};
use gd_names::{List, NoMemory, Path, PathFault, Text};
use od_database::SqlKeeper;
use od_keeper::{Agreed, BaseRow, Change, Image, Keeper, KeeperFault, applied, empty_image};
use sqlite::{Alter, Connection, Error, File, FileStore};
use std::alloc::Global;
use std::fs;
use std::test::Fail;

/// The tables of version 1, with the root, a folder, a file and a token.
const FIRST_VERSION: &str =
    "CREATE TABLE meta (name TEXT PRIMARY KEY, value TEXT NOT NULL) STRICT; CREATE TABLE item (id INTEGER PRIMARY KEY, parent INTEGER, name TEXT NOT NULL, size INTEGER NOT NULL, etag TEXT NOT NULL, ctag TEXT, folder INTEGER NOT NULL, digest BLOB) STRICT; CREATE TABLE base (path TEXT PRIMARY KEY, kind INTEGER NOT NULL, digest BLOB, flight BLOB) STRICT; INSERT INTO meta VALUES ('version', '1'), ('token', 't 1.3.3'); INSERT INTO item VALUES (1, NULL, 'root', 0, 'e0', NULL, 1, NULL), (2, 1, 'd', 0, 'e1', NULL, 1, NULL), (3, 2, 'f', 5, 'e2', 'c2', 0, x'0707070707070707070707070707070707070707070707070707070707070707')";

/// The path of a file in a folder of this name, which is made anew.
fn fresh(rt: &HostRuntime, folder: &str) -> Result<Text, Fail> {
    let _ = fs::remove_dir_all(rt, folder);
    fs::create_dir(rt, folder)?;
    let path = format!(in rt.alloc(); "{folder}/a.db")?;
    Ok(Text::from_string(path))
}

// Each of these makes one call and has no clause, so that the proof of a test does not carry the state of a connection.
type Database = Connection<FileStore<File>>;

fn connected(rt: &HostRuntime, path: &Text) -> Result<Database, Error> {
    Connection::open(rt, path.as_str())
}

fn batch<S: Alter>(database: &mut Connection<S>, sql: &str) -> Result<(), Error> {
    database.execute_batch(sql)
}

fn first<S: Alter>(database: &mut Connection<S>, sql: &str) -> Result<i64, Error> {
    database.query_row(sql, &[])?.get(0)
}

/// Runs statements on the file as another program would.
fn run(rt: &HostRuntime, path: &Text, sql: &str) -> Result<(), Error> {
    let mut database = connected(rt, path)?;
    batch(&mut database, sql)
}

fn number(rt: &HostRuntime, path: &Text, sql: &str) -> Result<i64, Error> {
    let mut database = connected(rt, path)?;
    first(&mut database, sql)
}

fn opened(rt: &HostRuntime, path: &Text) -> Result<SqlKeeper, KeeperFault> {
    SqlKeeper::new(rt, path)
}

fn load(keeper: &mut SqlKeeper, alloc: Global) -> Result<Image, KeeperFault> {
    keeper.load(alloc)
}

fn change_by(keeper: &mut SqlKeeper, change: &Change) -> Result<(), KeeperFault> {
    keeper.commit(change)
}

fn faults(keeper: &SqlKeeper) -> u64 {
    keeper.faults()
}

/// What a new keeper of the file reads.
fn loaded(rt: &HostRuntime, path: &Text) -> Result<Image, KeeperFault> {
    let mut keeper = opened(rt, path)?;
    load(&mut keeper, rt.alloc())
}

fn commit(rt: &HostRuntime, path: &Text, change: &Change) -> Result<(), KeeperFault> {
    let mut keeper = opened(rt, path)?;
    change_by(&mut keeper, change)
}

// Without clauses, so that the proof of a test does not carry how images are compared.
fn is_failure<T>(answer: &Result<T, KeeperFault>) -> bool {
    match answer {
        Err(KeeperFault::Failed) => true,
        _ => false,
    }
}

fn same(first: &Image, second: &Image) -> bool {
    first == second
}

fn has_failed_once(keeper: &SqlKeeper) -> bool {
    faults(keeper) == 1
}

fn is_failed_load(keeper: &mut SqlKeeper, alloc: Global) -> bool {
    let answer = load(keeper, alloc);
    is_failure(&answer)
}

fn is_failed_change(keeper: &mut SqlKeeper, change: &Change) -> bool {
    let answer = change_by(keeper, change);
    is_failure(&answer)
}

fn is_counted_load(keeper: &mut SqlKeeper, alloc: Global) -> bool {
    is_failed_load(keeper, alloc) && has_failed_once(keeper)
}

fn is_counted_change(keeper: &mut SqlKeeper, change: &Change) -> bool {
    is_failed_change(keeper, change) && has_failed_once(keeper)
}

/// Whether a load of the file fails and is counted.
fn fails(rt: &HostRuntime, path: &Text) -> Result<bool, KeeperFault> {
    let mut keeper = opened(rt, path)?;
    Ok(is_counted_load(&mut keeper, rt.alloc()))
}

/// Whether a change of the file fails and is counted.
fn takes_none(rt: &HostRuntime, path: &Text, change: &Change) -> Result<bool, KeeperFault> {
    let mut keeper = opened(rt, path)?;
    Ok(is_counted_change(&mut keeper, change))
}

fn no_change(alloc: Global, reset: bool) -> Change {
    Change {
        reset,
        rules: None,
        token: None,
        gone: List::new(alloc),
        put: List::new(alloc),
        dropped: List::new(alloc),
        rows: List::new(alloc),
    }
}

fn ctag(alloc: Global, kind: &Kind) -> Result<Option<Tag>, NoMemory> {
    match kind {
        Kind::File { .. } => Ok(Some(Tag(Text::from_str(alloc, "c4")?))),
        _ => Ok(None),
    }
}

fn item(alloc: Global, id: u64, name: &str, kind: Kind) -> Result<Item, NoMemory> {
    let name = Text::from_str(alloc, name)?;
    let etag = Text::from_str(alloc, "e9")?;
    let ctag = ctag(alloc, &kind)?;
    Ok(Item {
        id: ItemId(id),
        parent: if id == 1 { None } else { Some(ItemId(1)) },
        parent_path: None,
        name,
        size: 5,
        etag: Tag(etag),
        ctag,
        kind,
    })
}

fn base(
    alloc: Global,
    path: &str,
    what: Agreed,
    flight: Option<Digest>,
) -> Result<BaseRow, PathFault> {
    let path = Path::read(alloc, path.as_bytes())?;
    Ok(BaseRow { path, what, flight })
}

/// The digest that is this byte, 32 times.
fn digest(byte: u8) -> Digest {
    Digest([byte; 32])
}

fn items(alloc: Global, table: &[(u64, &str, Kind)]) -> Result<List<Item>, NoMemory> {
    let mut items = List::new(alloc);
    for (id, name, kind) in table {
        items.push(item(alloc, *id, name, *kind)?)?;
    }
    Ok(items)
}

fn row_alone(
    alloc: Global,
    path: &str,
    what: Agreed,
    flight: Option<Digest>,
) -> Result<List<BaseRow>, PathFault> {
    let mut rows = List::new(alloc);
    let row = base(alloc, path, what, flight)?;
    rows.push(row)?;
    Ok(rows)
}

fn whole_items(alloc: Global) -> Result<List<Item>, NoMemory> {
    items(
        alloc,
        &[
            (1, "root", Kind::Folder { child_count: 0 }),
            (3, "déjà ' ?", Kind::File { digest: digest(7) }),
            (9223372036854775807, "", Kind::Bare),
        ],
    )
}

fn add(
    rows: &mut List<BaseRow>,
    alloc: Global,
    path: &str,
    what: Agreed,
    flight: Option<Digest>,
) -> Result<(), PathFault> {
    let row = base(alloc, path, what, flight)?;
    rows.push(row)?;
    Ok(())
}

fn whole_rows(alloc: Global) -> Result<List<BaseRow>, PathFault> {
    let mut rows = List::new(alloc);
    add(&mut rows, alloc, "/", Agreed::Folder, None)?;
    add(&mut rows, alloc, "/a", Agreed::Nothing, Some(digest(9)))?;
    add(&mut rows, alloc, "/a/b", Agreed::File(digest(7)), None)?;
    add(
        &mut rows,
        alloc,
        "/a-b",
        Agreed::File(digest(7)),
        Some(digest(9)),
    )?;
    Ok(rows)
}

fn id_alone(alloc: Global, id: u64) -> Result<List<ItemId>, NoMemory> {
    let mut ids = List::new(alloc);
    ids.push(ItemId(id))?;
    Ok(ids)
}

fn path_alone(alloc: Global, text: &str) -> Result<List<Path>, PathFault> {
    let path = Path::read(alloc, text.as_bytes())?;
    let mut paths = List::new(alloc);
    paths.push(path)?;
    Ok(paths)
}

/// A change with something in each of its parts but for the reset.
fn whole_change(alloc: Global, reset: bool, rows: List<BaseRow>) -> Result<Change, Fail> {
    let token = Text::from_str(alloc, "t 1.2.3")?;
    let gone = id_alone(alloc, 7)?;
    let put = whole_items(alloc)?;
    let dropped = path_alone(alloc, "/gone")?;
    Ok(Change {
        reset,
        rules: Some(digest(9)),
        token: Some(token),
        gone,
        put,
        dropped,
        rows,
    })
}

fn first_change(alloc: Global) -> Result<Change, Fail> {
    let rows = whole_rows(alloc)?;
    whole_change(alloc, false, rows)
}

fn whole_image(alloc: Global) -> Result<Image, Fail> {
    let change = first_change(alloc)?;
    let image = applied(alloc, &change, &empty_image(alloc))?;
    Ok(image)
}

fn commit_first(rt: &HostRuntime, path: &Text) -> Result<(), Fail> {
    let change = first_change(rt.alloc())?;
    commit(rt, path, &change)?;
    Ok(())
}

fn is_empty(rt: &HostRuntime, path: &Text) -> Result<bool, KeeperFault> {
    let image = loaded(rt, path)?;
    Ok(same(&image, &empty_image(rt.alloc())))
}

fn is_whole(rt: &HostRuntime, path: &Text) -> Result<bool, Fail> {
    let expected = whole_image(rt.alloc())?;
    let image = loaded(rt, path)?;
    Ok(same(&image, &expected))
}

fn counts(rt: &HostRuntime, path: &Text, sql: &str, wanted: i64) -> Result<bool, Error> {
    let found = number(rt, path, sql)?;
    Ok(found == wanted)
}

#[test]
fn an_image_is_read_back_in_each_part(rt: HostRuntime) -> Result<(), Fail> {
    let path = fresh(&rt, "od_database_whole")?;
    assert!(rt; is_empty(&rt, &path)?);
    commit_first(&rt, &path)?;
    assert!(rt; is_whole(&rt, &path)?);
    assert!(rt;
        counts(
            &rt,
            &path,
            "SELECT count(*) FROM base WHERE flight IS NOT NULL",
            2
        )?
    );
    Ok(())
}

/// Removes and replaces what the first change wrote.
fn second_change(alloc: Global, put: List<Item>) -> Result<Change, Fail> {
    let gone = id_alone(alloc, 3)?;
    let dropped = path_alone(alloc, "/a")?;
    let rows = row_alone(alloc, "/", Agreed::Nothing, None)?;
    Ok(Change {
        reset: false,
        rules: None,
        token: None,
        gone,
        put,
        dropped,
        rows,
    })
}

fn root_with(alloc: Global, child_count: u64) -> Result<Change, Fail> {
    let put = items(alloc, &[(1, "top", Kind::Folder { child_count })])?;
    second_change(alloc, put)
}

fn second_image(alloc: Global) -> Result<Image, Fail> {
    let change = root_with(alloc, 0)?;
    let image = applied(alloc, &change, &whole_image(alloc)?)?;
    Ok(image)
}

fn commit_second(rt: &HostRuntime, path: &Text) -> Result<(), Fail> {
    let change = root_with(rt.alloc(), 4)?;
    commit(rt, path, &change)?;
    Ok(())
}

fn is_second(rt: &HostRuntime, path: &Text) -> Result<bool, Fail> {
    let expected = second_image(rt.alloc())?;
    let image = loaded(rt, path)?;
    Ok(same(&image, &expected))
}

fn commit_reset(rt: &HostRuntime, path: &Text) -> Result<(), KeeperFault> {
    let change = no_change(rt.alloc(), true);
    commit(rt, path, &change)
}

#[test]
fn a_change_removes_and_replaces(rt: HostRuntime) -> Result<(), Fail> {
    let path = fresh(&rt, "od_database_second")?;
    commit_first(&rt, &path)?;
    commit_second(&rt, &path)?;
    assert!(rt; is_second(&rt, &path)?);
    commit_reset(&rt, &path)?;
    assert!(rt; is_empty(&rt, &path)?);
    Ok(())
}

fn has_items(rt: &HostRuntime, path: &Text, count: usize) -> Result<bool, KeeperFault> {
    let image = loaded(rt, path)?;
    Ok(image.items.len() == count)
}

#[test]
fn a_first_version_is_taken_over(rt: HostRuntime) -> Result<(), Fail> {
    let path = fresh(&rt, "od_database_first")?;
    run(&rt, &path, FIRST_VERSION)?;
    assert!(rt; has_items(&rt, &path, 3)?);
    for (sql, wanted) in TAKEN_OVER {
        assert!(rt; counts(&rt, &path, sql, wanted)?, "of {sql}");
    }
    Ok(())
}

/// What a file of version 1 has become.
const TAKEN_OVER: [(&str, i64); 3] = [
    ("SELECT count(*) FROM item", 0),
    (
        "SELECT count(*) FROM meta WHERE name = 'version' AND value = '2'",
        1,
    ),
    ("SELECT sum(kind * id + size) FROM entry", 8),
];

/// Statements that each leave rows that are no image.
const SPOILED: [&str; 12] = [
    "UPDATE meta SET value = '9' WHERE name = 'version'",
    "DELETE FROM meta WHERE name = 'version'",
    "UPDATE meta SET value = 'abc' WHERE name = 'rules'",
    "UPDATE entry SET kind = 2 WHERE kind = 1",
    "UPDATE entry SET kind = 1 WHERE kind = 2",
    "UPDATE entry SET kind = 3 WHERE kind = 2",
    "UPDATE entry SET digest = x'07' WHERE kind = 1",
    "UPDATE entry SET size = -1 WHERE id = 1",
    "UPDATE base SET path = 'a' WHERE path = '/a'",
    "UPDATE base SET path = '/a%2Db' WHERE path = '/a'",
    "UPDATE base SET flight = x'0909' WHERE path = '/a'",
    "DROP TABLE base",
];

fn spoiled_fails(rt: &HostRuntime, sql: &str) -> Result<bool, Fail> {
    let path = fresh(rt, "od_database_spoiled")?;
    commit_first(rt, &path)?;
    run(rt, &path, sql)?;
    let is_failed = fails(rt, &path)?;
    Ok(is_failed)
}

#[test]
fn rows_that_are_no_image_are_a_counted_fault(rt: HostRuntime) -> Result<(), Fail> {
    for sql in SPOILED {
        assert!(rt; spoiled_fails(&rt, sql)?, "after {sql}");
    }
    Ok(())
}

fn holds(keeper: &mut SqlKeeper, alloc: Global, image: &Image) -> Result<bool, KeeperFault> {
    let found = load(keeper, alloc)?;
    Ok(same(&found, image))
}

fn is_left(
    keeper: &mut SqlKeeper,
    alloc: Global,
    change: &Change,
    before: &Image,
) -> Result<bool, KeeperFault> {
    let is_counted = is_counted_change(keeper, change);
    let holds = holds(keeper, alloc, before)?;
    Ok(is_counted && holds)
}

fn leaves(
    rt: &HostRuntime,
    path: &Text,
    change: &Change,
    before: &Image,
) -> Result<bool, KeeperFault> {
    let mut keeper = opened(rt, path)?;
    is_left(&mut keeper, rt.alloc(), change, before)
}

/// Whether a commit of the change fails, is counted, and leaves the image.
fn is_refused(rt: &HostRuntime, path: &Text, change: &Change) -> Result<bool, KeeperFault> {
    let before = loaded(rt, path)?;
    leaves(rt, path, change, &before)
}

/// A change that resets, and whose row the table refuses after all else was written.
fn refused_at_the_end(alloc: Global) -> Result<Change, Fail> {
    let rows = row_alone(alloc, "/refused", Agreed::Folder, None)?;
    whole_change(alloc, true, rows)
}

fn past_an_integer(alloc: Global) -> Result<Change, Fail> {
    let put = items(alloc, &[(9223372036854775808, "x", Kind::Bare)])?;
    second_change(alloc, put)
}

fn refuses_at_the_end(rt: &HostRuntime, path: &Text) -> Result<bool, Fail> {
    let change = refused_at_the_end(rt.alloc())?;
    let is_refused = is_refused(rt, path, &change)?;
    Ok(is_refused)
}

fn refuses_past_an_integer(rt: &HostRuntime, path: &Text) -> Result<bool, Fail> {
    let change = past_an_integer(rt.alloc())?;
    let is_refused = is_refused(rt, path, &change)?;
    Ok(is_refused)
}

/// Makes the table refuse one path.
const REFUSING: &str =
    "DROP TABLE base; CREATE TABLE base (path TEXT PRIMARY KEY, kind INTEGER NOT NULL, digest BLOB, flight BLOB, CHECK (path <> '/refused')) STRICT";

#[test]
fn a_change_is_kept_whole_or_not_at_all(rt: HostRuntime) -> Result<(), Fail> {
    let path = fresh(&rt, "od_database_refused")?;
    commit_second(&rt, &path)?;
    run(&rt, &path, REFUSING)?;
    assert!(rt; refuses_at_the_end(&rt, &path)?);
    assert!(rt; refuses_past_an_integer(&rt, &path)?);
    Ok(())
}

fn takes_no_second(rt: &HostRuntime, path: &Text) -> Result<bool, Fail> {
    let change = root_with(rt.alloc(), 4)?;
    let takes_none = takes_none(rt, path, &change)?;
    Ok(takes_none)
}

#[test]
fn another_version_takes_no_change(rt: HostRuntime) -> Result<(), Fail> {
    let path = fresh(&rt, "od_database_other")?;
    commit_first(&rt, &path)?;
    run(
        &rt,
        &path,
        "UPDATE meta SET value = '9' WHERE name = 'version'",
    )?;
    assert!(rt; takes_no_second(&rt, &path)?);
    assert!(rt; counts(&rt, &path, "SELECT count(*) FROM entry", 3)?);
    Ok(())
}

fn is_not_opened(rt: &HostRuntime, path: &Text) -> bool {
    opened(rt, path).is_err()
}

#[test]
fn a_file_that_is_no_database_is_not_opened(rt: HostRuntime) -> Result<(), Fail> {
    let path = fresh(&rt, "od_database_none")?;
    fs::write(&rt, path.as_str(), "no database, but a text")?;
    assert!(rt; is_not_opened(&rt, &path));
    let nowhere = Text::from_str(rt.alloc(), "od_database_nowhere/a.db")?;
    assert!(rt; is_not_opened(&rt, &nowhere));
    Ok(())
}

fn many_items(alloc: Global, count: u64) -> Result<List<Item>, NoMemory> {
    let mut items = List::new(alloc);
    for id in 0..count {
        items.push(item(alloc, id, "a name", Kind::File { digest: digest(7) })?)?;
    }
    Ok(items)
}

fn numbered(alloc: Global, number: u64) -> Result<BaseRow, Fail> {
    let path = format!(in alloc; "/folder/{number:08}")?;
    let row = base(alloc, path.as_str(), Agreed::File(digest(7)), None)?;
    Ok(row)
}

fn many_rows(alloc: Global, count: u64) -> Result<List<BaseRow>, Fail> {
    let mut rows = List::new(alloc);
    for number in 0..count {
        rows.push(numbered(alloc, number)?)?;
    }
    Ok(rows)
}

fn many(alloc: Global, count: u64) -> Result<Change, Fail> {
    let put = many_items(alloc, count)?;
    let rows = many_rows(alloc, count)?;
    Ok(Change {
        reset: false,
        rules: None,
        token: None,
        gone: List::new(alloc),
        put,
        dropped: List::new(alloc),
        rows,
    })
}

fn is_all(image: &Image, change: &Change) -> bool {
    image.items == change.put && image.rows == change.rows
}

/// Whether this many items and rows are read back.
fn keeps(rt: &HostRuntime, path: &Text, count: u64) -> Result<bool, Fail> {
    let change = many(rt.alloc(), count)?;
    commit(rt, path, &change)?;
    let image = loaded(rt, path)?;
    Ok(is_all(&image, &change))
}

#[test]
fn twenty_thousand_items_and_rows_are_read_back(rt: HostRuntime) -> Result<(), Fail> {
    let path = fresh(&rt, "od_database_many")?;
    assert!(rt; keeps(&rt, &path, 20000)?);
    Ok(())
}
