//! The statements, prepared once, and what goes into them and comes out of them.
use crate::agreement::AgreementRow;
use crate::columns::{agreement, agreement_values, entry, entry_values, text};
use crate::entry::EntryRow;
use crate::fault::DatabaseFault;
use crate::tables::Tables;
use crate::write::Write;
use gd_names::{List, Text};
use sqlite::types::ValueRef;
use sqlite::{Connection, File, FileStore, Row, Statement, Transaction, params};
use std::alloc::Global;

/// A connection to a database in a file.
pub type Database = Connection<FileStore<File>>;

type Change<'conn> = Transaction<'conn, FileStore<File>>;

/// The statements that read.
#[derive(Drop)]
pub struct Reading {
    setting: Statement,
    entries: Statement,
    rows: Statement,
}

/// The statements that write.
#[derive(Drop)]
pub struct Writing {
    set: Statement,
    gone: Statement,
    put: Statement,
    dropped: Statement,
    row: Statement,
}

fn prepared(database: &mut Database, sql: &str) -> Result<Statement, DatabaseFault> {
    let statement = database.prepare(sql)?;
    Ok(statement)
}

fn found(
    database: &mut Database,
    statement: &Statement,
    params: &[ValueRef<'_>],
) -> Result<Vec<Row>, DatabaseFault> {
    let rows = statement.query_all(database, params)?;
    Ok(rows)
}

impl Reading {
    pub fn prepare(database: &mut Database) -> Result<Reading, DatabaseFault> {
        let setting = prepared(database, "SELECT value FROM meta WHERE name = ?1")?;
        let entries = prepared(
            database,
            "SELECT id, parent, name, size, etag, ctag, kind, digest FROM entry ORDER BY id",
        )?;
        let rows = prepared(database, "SELECT path, kind, digest, flight FROM base")?;
        Ok(Reading {
            setting,
            entries,
            rows,
        })
    }

    /// The value that `meta` has under the name.
    pub fn setting(
        &self,
        database: &mut Database,
        name: &str,
    ) -> Result<Option<Text>, DatabaseFault> {
        let found = found(database, &self.setting, params![name])?;
        match found.first() {
            Some(row) => {
                let value = text(row, 0)?;
                Ok(Some(value))
            }
            None => Ok(None),
        }
    }

    fn entries(
        &self,
        alloc: Global,
        database: &mut Database,
    ) -> Result<List<EntryRow>, DatabaseFault> {
        let found = found(database, &self.entries, &[])?;
        let mut entries = Vec::new(alloc);
        for row in &found {
            let entry = entry(row)?;
            entries.push(entry)?;
        }
        Ok(List::from_vec(entries))
    }

    fn rows(
        &self,
        alloc: Global,
        database: &mut Database,
    ) -> Result<List<AgreementRow>, DatabaseFault> {
        let found = found(database, &self.rows, &[])?;
        let mut rows = Vec::new(alloc);
        for row in &found {
            let agreement = agreement(row)?;
            rows.push(agreement)?;
        }
        Ok(List::from_vec(rows))
    }

    pub fn tables(&self, alloc: Global, database: &mut Database) -> Result<Tables, DatabaseFault> {
        let version = self.setting(database, "version")?;
        let token = self.setting(database, "token")?;
        let rules = self.setting(database, "rules")?;
        let entries = self.entries(alloc, database)?;
        let rows = self.rows(alloc, database)?;
        Ok(Tables {
            version,
            token,
            rules,
            entries,
            rows,
        })
    }
}

fn ran(
    change: &mut Change<'_>,
    statement: &Statement,
    params: &[ValueRef<'_>],
) -> Result<(), DatabaseFault> {
    let _count = change.execute_prepared(statement, params)?;
    Ok(())
}

fn reset(change: &mut Change<'_>) -> Result<(), DatabaseFault> {
    change.execute_batch(
        "DELETE FROM entry; DELETE FROM base; DELETE FROM meta WHERE name <> 'version'",
    )?;
    Ok(())
}

impl Writing {
    pub fn prepare(database: &mut Database) -> Result<Writing, DatabaseFault> {
        let set = prepared(
            database,
            "INSERT OR REPLACE INTO meta (name, value) VALUES (?1, ?2)",
        )?;
        let gone = prepared(database, "DELETE FROM entry WHERE id = ?1")?;
        let put = prepared(
            database,
            "INSERT OR REPLACE INTO entry (id, parent, name, size, etag, ctag, kind, digest) VALUES (?1, ?2, ?3, ?4, ?5, ?6, ?7, ?8)",
        )?;
        let dropped = prepared(database, "DELETE FROM base WHERE path = ?1")?;
        let row = prepared(
            database,
            "INSERT OR REPLACE INTO base (path, kind, digest, flight) VALUES (?1, ?2, ?3, ?4)",
        )?;
        Ok(Writing {
            set,
            gone,
            put,
            dropped,
            row,
        })
    }

    fn set(&self, change: &mut Change<'_>, name: &str, value: &Text) -> Result<(), DatabaseFault> {
        ran(change, &self.set, params![name, value.as_str()])
    }

    fn write(&self, change: &mut Change<'_>, write: &Write) -> Result<(), DatabaseFault> {
        match write {
            Write::Reset => reset(change),
            Write::Rules(text) => self.set(change, "rules", text),
            Write::Token(text) => self.set(change, "token", text),
            Write::Gone(id) => ran(change, &self.gone, params![*id]),
            Write::Put(row) => ran(change, &self.put, &entry_values(row)),
            Write::Dropped(path) => ran(change, &self.dropped, params![path.as_str()]),
            Write::Row(row) => ran(change, &self.row, &agreement_values(row)),
        }
    }

    /// Makes all of the writes in one transaction, or none of them.
    pub fn commit(&self, database: &mut Database, writes: &[Write]) -> Result<(), DatabaseFault> {
        if !database.is_autocommit() {
            return Err(DatabaseFault::Refused);
        }
        let mut change = database.transaction();
        for write in writes {
            self.write(&mut change, write)?;
        }
        change.commit()?;
        Ok(())
    }
}
