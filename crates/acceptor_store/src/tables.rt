// How a database's tables are judged: whether they are the store's.
ghost use Rattle.std.specs.Prelude.{◌≡◌, ◌↔◌, [], ◌∷◌, IsTrue, IfOk};
ghost use Rattle.acceptor_store.specs.Tables.{column_of, table_of, meta_table, vote_table, snapshot_table, store_schema, old_schema, empty_schema};

use sqlite_schema::code::Terms;
use sqlite_schema::schema::{Column, Kind, Schema, Stamps, Table};
use sqlite_value::keys::Collation;
use sqlite_value::value::Value;
use std::alloc::{AllocError, Global};

fn is_null(value: &Value) -> bool
    ensures { IsTrue result ↔ (value.now ≡ Value.Null) }
{
    matches!(value, Value::Null)
}

// Returns whether it is a column of a STRICT table with no default.
fn is_column(column: &Column, name: &[u8], kind: Kind, not_null: bool) -> bool
    ensures { IsTrue result ↔ (column.now ≡ column_of name.now kind not_null) }
{
    column.name.as_slice() == name
        && column.kind == kind
        && column.is_strict
        && column.not_null == not_null
        && is_null(&column.default)
        && column.collation == Collation::Binary
}

// Returns whether there is no term.
fn are_none(alloc: Global, terms: &Terms) -> Result<bool, AllocError>
    ensures { IfOk result (λ none. IsTrue none ↔ (terms.now ≡ [])) }
{
    let lent = terms.lend(alloc)?;
    Ok(lent.roots.is_empty())
}

// Returns whether no default reads the time.
fn is_unstamped(alloc: Global, stamps: &Stamps) -> Result<bool, AllocError>
    ensures { IfOk result (λ none. IsTrue none ↔ (stamps.now ≡ record { places = []; terms = []; formats = [] })) }
{
    Ok(stamps.places.is_empty() && stamps.formats.is_empty() && are_none(alloc, &stamps.terms)?)
}

// Returns whether the table's first column is the rowid, and it has no rule beside its columns.
fn is_plain(alloc: Global, table: &Table, name: &[u8], tree: u32) -> Result<bool, AllocError>
    ensures { IfOk result (λ plain. IsTrue plain ↔ (table.now ≡ table_of name.now tree table.now.columns)) }
{
    let is_named = table.name.as_slice() == name && table.tree == tree && !table.is_counted;
    let is_keyed = table.key == Some(0) && table.primary.as_slice() == [0usize].as_slice();
    let is_free = table.uniques.is_empty()
        && table.orders.is_empty()
        && table.references.is_empty()
        && table.computed.is_empty();
    Ok(
        is_named
            && is_keyed
            && is_free
            && are_none(alloc, &table.checks)?
            && is_unstamped(alloc, &table.stamps)?,
    )
}

// Returns whether these are the columns of the first table.
fn are_meta_columns(
    k: &Column,
    version: &Column,
    boot: &Column,
    round: &Column,
    node: &Column,
) -> bool
    ensures { IsTrue result ↔ (k.now ∷ version.now ∷ boot.now ∷ round.now ∷ node.now ∷ [] ≡ meta_table.columns) }
{
    is_column(k, b"k".as_slice(), Kind::Integer, false)
        && is_column(version, b"version".as_slice(), Kind::Integer, true)
        && is_column(boot, b"boot".as_slice(), Kind::Integer, true)
        && is_column(round, b"round".as_slice(), Kind::Integer, true)
        && is_column(node, b"node".as_slice(), Kind::Integer, true)
}

// Returns whether these are the columns of the second table.
fn are_vote_columns(slot: &Column, round: &Column, node: &Column, entry: &Column) -> bool
    ensures { IsTrue result ↔ (slot.now ∷ round.now ∷ node.now ∷ entry.now ∷ [] ≡ vote_table.columns) }
{
    is_column(slot, b"slot".as_slice(), Kind::Integer, false)
        && is_column(round, b"round".as_slice(), Kind::Integer, true)
        && is_column(node, b"node".as_slice(), Kind::Integer, true)
        && is_column(entry, b"entry".as_slice(), Kind::Blob, true)
}

// Returns whether it is the store's first table.
fn is_meta(alloc: Global, table: &Table) -> Result<bool, AllocError>
    ensures { IfOk result (λ is. IsTrue is ↔ (table.now ≡ meta_table)) }
{
    if !is_plain(alloc, table, b"meta".as_slice(), 0)? {
        return Ok(false);
    }
    match table.columns.as_slice() {
        [k, version, boot, round, node] => Ok(are_meta_columns(k, version, boot, round, node)),
        _ => Ok(false),
    }
}

// Returns whether it is the store's second table.
fn is_vote(alloc: Global, table: &Table) -> Result<bool, AllocError>
    ensures { IfOk result (λ is. IsTrue is ↔ (table.now ≡ vote_table)) }
{
    if !is_plain(alloc, table, b"vote".as_slice(), 1)? {
        return Ok(false);
    }
    match table.columns.as_slice() {
        [slot, round, node, entry] => Ok(are_vote_columns(slot, round, node, entry)),
        _ => Ok(false),
    }
}

// Returns whether these are the columns of the third table.
fn are_snapshot_columns(k: &Column, floor: &Column, octets: &Column) -> bool
    ensures { IsTrue result ↔ (k.now ∷ floor.now ∷ octets.now ∷ [] ≡ snapshot_table.columns) }
{
    is_column(k, b"k".as_slice(), Kind::Integer, false)
        && is_column(floor, b"floor".as_slice(), Kind::Integer, true)
        && is_column(octets, b"bytes".as_slice(), Kind::Blob, true)
}

// Returns whether it is the store's third table.
fn is_snapshot(alloc: Global, table: &Table) -> Result<bool, AllocError>
    ensures { IfOk result (λ is. IsTrue is ↔ (table.now ≡ snapshot_table)) }
{
    if !is_plain(alloc, table, b"snapshot".as_slice(), 2)? {
        return Ok(false);
    }
    match table.columns.as_slice() {
        [k, floor, octets] => Ok(are_snapshot_columns(k, floor, octets)),
        _ => Ok(false),
    }
}

// Returns whether the tables are the store's, and there is nothing else.
pub(crate) fn has_store_tables(alloc: Global, schema: &Schema) -> Result<bool, AllocError>
    ensures { IfOk result (λ has. IsTrue has ↔ (schema.now ≡ store_schema)) }
{
    if !schema.indexes.is_empty() || !schema.views.is_empty() {
        return Ok(false);
    }
    match schema.tables.as_slice() {
        [meta, vote, snapshot] => Ok(
            is_meta(alloc, meta)? && is_vote(alloc, vote)? && is_snapshot(alloc, snapshot)?,
        ),
        _ => Ok(false),
    }
}

// Returns whether the tables are those of version 1, and there is nothing else.
pub(crate) fn has_old_tables(alloc: Global, schema: &Schema) -> Result<bool, AllocError>
    ensures { IfOk result (λ has. IsTrue has ↔ (schema.now ≡ old_schema)) }
{
    if !schema.indexes.is_empty() || !schema.views.is_empty() {
        return Ok(false);
    }
    match schema.tables.as_slice() {
        [meta, vote] => Ok(is_meta(alloc, meta)? && is_vote(alloc, vote)?),
        _ => Ok(false),
    }
}

// Returns whether the schema is empty.
pub(crate) fn is_empty(schema: &Schema) -> bool
    ensures { IsTrue result ↔ (schema.now ≡ empty_schema) }
{
    schema.tables.is_empty() && schema.indexes.is_empty() && schema.views.is_empty()
}
