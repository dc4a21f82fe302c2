//! A database that is opened: its tables are made, or those of an older version are taken over.
use crate::fault::DatabaseFault;
use crate::statements::Database;
use gd_names::Text;
use sqlite::{Connection, params};

const TABLES: &str =
    "CREATE TABLE meta (name TEXT PRIMARY KEY, value TEXT NOT NULL) STRICT; CREATE TABLE entry (id INTEGER PRIMARY KEY, parent INTEGER, name TEXT NOT NULL, size INTEGER NOT NULL, etag TEXT NOT NULL, ctag TEXT, kind INTEGER NOT NULL, digest BLOB) STRICT; CREATE TABLE base (path TEXT PRIMARY KEY, kind INTEGER NOT NULL, digest BLOB, flight BLOB) STRICT; INSERT INTO meta (name, value) VALUES ('version', '2')";

/// A file was a folder or not, and each that was none had a digest: one with none stays no item.
const TAKE_OVER: &str =
    "CREATE TABLE entry (id INTEGER PRIMARY KEY, parent INTEGER, name TEXT NOT NULL, size INTEGER NOT NULL, etag TEXT NOT NULL, ctag TEXT, kind INTEGER NOT NULL, digest BLOB) STRICT; INSERT INTO entry (id, parent, name, size, etag, ctag, kind, digest) SELECT id, parent, name, size, etag, ctag, CASE folder WHEN 1 THEN 0 WHEN 0 THEN 1 ELSE 3 END, digest FROM item; DELETE FROM item; UPDATE meta SET value = '2' WHERE name = 'version'";

fn count(database: &mut Database, sql: &str) -> Result<i64, DatabaseFault> {
    let row = database.query_row(sql, &[])?;
    let count = row.get(0)?;
    Ok(count)
}

/// Runs all of the statements in one transaction, or none of them.
fn run_whole(database: &mut Database, sql: &str) -> Result<(), DatabaseFault> {
    if !database.is_autocommit() {
        return Err(DatabaseFault::Refused);
    }
    let mut change = database.transaction();
    change.execute_batch(sql)?;
    change.commit()?;
    Ok(())
}

/// Whether the tables are those of version 1. Tables that do not even have a version are of no version.
fn is_first_version(database: &mut Database) -> Result<bool, DatabaseFault> {
    let is_kept = count(
        database,
        "SELECT count(*) FROM sqlite_schema WHERE type = 'table' AND name = 'meta'",
    )?;
    if is_kept == 0 {
        return Ok(false);
    }
    let versions = count(
        database,
        "SELECT count(*) FROM meta WHERE name = 'version' AND value = '1'",
    )?;
    Ok(versions == 1)
}

/// Opens the database at the path. A new one gets its tables, and one of version 1 becomes one of version 2.
pub fn open(rt: &HostRuntime, path: &Text) -> Result<Database, DatabaseFault> {
    let mut database = Connection::open(rt, path.as_str())?;
    let tables = count(&mut database, "SELECT count(*) FROM sqlite_schema")?;
    if tables == 0 {
        run_whole(&mut database, TABLES)?;
    } else if is_first_version(&mut database)? {
        run_whole(&mut database, TAKE_OVER)?;
    }
    Ok(database)
}
