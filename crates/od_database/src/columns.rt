//! Rows as the values of their columns: what is bound for them, and what an answer is read as.
ghost use Rattle.std.specs.Prelude.{◌≡◌, IfOk};
ghost use Rattle.sqlite.specs.Values.{bound, or_null};
ghost use Rattle.sqlite_value.specs.Order.{column};
ghost use Rattle.sqlite_value.specs.Value.{owned};
ghost use Rattle.sqlite_value.specs.declared.value.Value.TheVariants as sql;
ghost use Rattle.od_database.specs.Columns.{entry_values, agreement_values, IsEntry, IsAgreement};

use crate::agreement::AgreementRow;
use crate::entry::EntryRow;
use crate::fault::DatabaseFault;
use gd_names::{Bytes, Text};
use sqlite::Row;
use sqlite::types::ValueRef;

pub fn text(row: &Row, at: usize) -> Result<Text, DatabaseFault>
    ensures { IfOk result (λ text. column row.now at ≡ sql.Text text) }
{
    let text: String = row.get(at)?;
    Ok(Text::from_string(text))
}

fn optional_text(row: &Row, at: usize) -> Result<Option<Text>, DatabaseFault>
    ensures { IfOk result (λ text. column row.now at ≡ or_null sql.Text text) }
{
    let text: Option<String> = row.get(at)?;
    match text {
        Some(text) => Ok(Some(Text::from_string(text))),
        None => Ok(None),
    }
}

fn optional_blob(row: &Row, at: usize) -> Result<Option<Bytes>, DatabaseFault>
    ensures { IfOk result (λ blob. column row.now at ≡ or_null sql.Blob blob) }
{
    let blob: Option<Vec<u8>> = row.get(at)?;
    match blob {
        Some(blob) => Ok(Some(Bytes::from_vec(blob))),
        None => Ok(None),
    }
}

fn number(row: &Row, at: usize) -> Result<i64, DatabaseFault>
    ensures { IfOk result (λ number. column row.now at ≡ sql.Int number) }
{
    let number: i64 = row.get(at)?;
    Ok(number)
}

fn optional_number(row: &Row, at: usize) -> Result<Option<i64>, DatabaseFault>
    ensures { IfOk result (λ number. column row.now at ≡ or_null sql.Int number) }
{
    let number: Option<i64> = row.get(at)?;
    match number {
        Some(number) => Ok(Some(number)),
        None => Ok(None),
    }
}

/// The row of items that an answer has.
pub fn entry(row: &Row) -> Result<EntryRow, DatabaseFault>
    ensures { IfOk result (λ entry. IsEntry row.now entry) }
{
    let id = number(row, 0)?;
    let parent = optional_number(row, 1)?;
    let name = text(row, 2)?;
    let size = number(row, 3)?;
    let etag = text(row, 4)?;
    let ctag = optional_text(row, 5)?;
    let kind = number(row, 6)?;
    let digest = optional_blob(row, 7)?;
    Ok(EntryRow {
        id,
        parent,
        name,
        size,
        etag,
        ctag,
        kind,
        digest,
    })
}

/// The row of agreements that an answer has.
pub fn agreement(row: &Row) -> Result<AgreementRow, DatabaseFault>
    ensures { IfOk result (λ agreement. IsAgreement row.now agreement) }
{
    let path = text(row, 0)?;
    let kind = number(row, 1)?;
    let digest = optional_blob(row, 2)?;
    let flight = optional_blob(row, 3)?;
    Ok(AgreementRow {
        path,
        kind,
        digest,
        flight,
    })
}

fn number_value<'a>(number: Option<i64>) -> ValueRef<'a>
    ensures { owned result ≡ or_null sql.Int number }
{
    match number {
        Some(number) => ValueRef::Int(number),
        None => ValueRef::Null,
    }
}

fn text_value(text: &Option<Text>) -> ValueRef<'_>
    ensures { owned result ≡ or_null sql.Text text.now }
{
    match text {
        Some(text) => ValueRef::Text(text.as_bytes()),
        None => ValueRef::Null,
    }
}

fn blob_value(blob: &Option<Bytes>) -> ValueRef<'_>
    ensures { owned result ≡ or_null sql.Blob blob.now }
{
    match blob {
        Some(blob) => ValueRef::Blob(blob.as_slice()),
        None => ValueRef::Null,
    }
}

/// What is bound for a row of items.
pub fn entry_values(row: &EntryRow) -> [ValueRef<'_>; 8]
    ensures { bound result ≡ entry_values row.now }
{
    [
        ValueRef::Int(row.id),
        number_value(row.parent),
        ValueRef::Text(row.name.as_bytes()),
        ValueRef::Int(row.size),
        ValueRef::Text(row.etag.as_bytes()),
        text_value(&row.ctag),
        ValueRef::Int(row.kind),
        blob_value(&row.digest),
    ]
}

/// What is bound for a row of agreements.
pub fn agreement_values(row: &AgreementRow) -> [ValueRef<'_>; 4]
    ensures { bound result ≡ agreement_values row.now }
{
    [
        ValueRef::Text(row.path.as_bytes()),
        ValueRef::Int(row.kind),
        blob_value(&row.digest),
        blob_value(&row.flight),
    ]
}
