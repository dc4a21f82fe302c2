//! Laws of the definitions, each the contract of a function that does nothing.
ghost use Rattle.std.specs.Prelude.{◌≡◌, Some, All};
ghost use Rattle.gd_names.specs.Escapes.{IsSegmentName};
ghost use Rattle.gd_item.specs.declared.item.Item.{Item};
ghost use Rattle.od_keeper.specs.declared.image.BaseRow.{BaseRow};
ghost use Rattle.od_database.specs.Agreements.{AgreedHasDigest, FlightHasDigest, agreement_row, base_of};
ghost use Rattle.od_database.specs.Entries.{HasDigest, row_of, item_of, kept_item};
ghost use Rattle.od_database.specs.Columns.{entry_values, agreement_values, IsEntry, IsAgreement};
ghost use Rattle.od_database.specs.declared.agreement.AgreementRow.{AgreementRow};
ghost use Rattle.od_database.specs.declared.entry.EntryRow.{EntryRow};

/// The row of an item is read back as that item, but for what is not kept.
pub fn items_are_read_back()
    ensures { (item : Item) (row : EntryRow) → HasDigest item.kind → row_of item ≡ Some row → item_of row ≡ Some (kept_item item) }
{}

/// The row of an agreement is read back as that agreement.
pub fn agreements_are_read_back()
    ensures { (base : BaseRow) → All IsSegmentName base.path → AgreedHasDigest base.what → FlightHasDigest base.flight → base_of (agreement_row base) ≡ Some base }
{}

/// The values that are bound for a row are read as that row.
pub fn columns_are_read_back()
    ensures entries { (row : EntryRow) → IsEntry (entry_values row) row }
    ensures agreements { (row : AgreementRow) → IsAgreement (agreement_values row) row }
{}
