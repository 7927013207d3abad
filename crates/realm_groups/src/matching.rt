//! The groups whose patterns match a URI.
ghost use Rattle.std.specs.Prelude.{◌≡◌, ◌<◌, ℕ, [], length, IfOk, OnOk, IsOkUnless, map, option_copied};
ghost use Rattle.std.specs.Map.{values_of};
ghost use Rattle.wamp_patterns.specs.Ranking.{matching, serves};
ghost use Rattle.realm_sessions.specs.declared.fault.RealmFault.TheVariants as fault;
ghost use Rattle.realm_lists.specs.OrderedList.{member_at, members};
ghost use Rattle.realm_groups.specs.Groups.{AreKept, gathered, shown, with_found};

use crate::group::Group;
use realm_sessions::RealmFault;
use std::alloc::Global;
use std::collections::BTreeMap;
use wamp_ids::Uri;
use wamp_patterns::PatternTable;

// Returns the group whose pattern serves the URI.
pub(crate) fn best_in<'a, G: Group>(
    rows: &'a BTreeMap<u64, G>,
    patterns: &PatternTable<u64>,
    uri: &Uri<'_>,
) -> Option<&'a G>
    ensures { (last : ℕ) → AreKept G.id_of G.pattern_of G.sessions_of rows.now.entries patterns.now last
        → option_copied result ≡ serves G.pattern_of (members rows.now.entries) uri.now }
{
    let Some(id) = patterns.best(uri) else {
        return None;
    };
    rows.get(id)
}

// Returns the groups whose patterns match the URI, by ascending id.
pub(crate) fn matching_in<'a, G: Group>(
    alloc: Global,
    rows: &'a BTreeMap<u64, G>,
    patterns: &PatternTable<u64>,
    uri: &Uri<'_>,
) -> Result<Vec<&'a G>, RealmFault>
    ensures found { IfOk result (λ found. (last : ℕ) → AreKept G.id_of G.pattern_of G.sessions_of rows.now.entries patterns.now last
        → map (λ group. group.now) found.items ≡ matching G.pattern_of (members rows.now.entries) uri.now) }
    ensures fault { IsOkUnless result fault.Memory }
{
    let Ok(ids) = patterns.all(uri) else {
        return Err(RealmFault::Memory);
    };
    if ids.len() < 2 {
        return sole(alloc, rows, &ids);
    }
    let found = gathered(alloc, rows, &ids)?;
    values(alloc, &found)
}

// Returns the group of the only id, if there is an id: no map is needed for it.
fn sole<'a, G: Group>(
    alloc: Global,
    rows: &'a BTreeMap<u64, G>,
    ids: &[&u64],
) -> Result<Vec<&'a G>, RealmFault>
    requires { length ids.now < 2 }
    ensures found { IfOk result (λ found. map (λ group. group.now) found.items
        ≡ values_of (gathered rows.now.entries [] (map (λ id. id.now) ids.now))) }
    ensures fault { IsOkUnless result fault.Memory }
{
    let mut found = Vec::new(alloc);
    if ids.is_empty() {
        return Ok(found);
    }
    let Some(group) = rows.get(ids[0]) else {
        return Ok(found);
    };
    found.push(group)?;
    Ok(found)
}

// Returns the groups of these ids, by ascending id.
fn gathered<'a, G: Group>(
    alloc: Global,
    rows: &'a BTreeMap<u64, G>,
    ids: &[&u64],
) -> Result<BTreeMap<u64, &'a G>, RealmFault>
    ensures found { IfOk result (λ found. shown found.entries ≡ gathered rows.now.entries [] (map (λ id. id.now) ids.now)) }
    ensures fault { IsOkUnless result fault.Memory }
{
    let mut found = BTreeMap::new(alloc);
    for id in ids {
        add_found(rows, **id, &mut found)?;
    }
    Ok(found)
}

// Adds the group of this id, if there is one.
fn add_found<'a, G: Group>(
    rows: &'a BTreeMap<u64, G>,
    id: u64,
    found: &mut BTreeMap<u64, &'a G>,
) -> Result<(), RealmFault>
    ensures ok { OnOk result (shown found.new.entries ≡ with_found id (member_at id rows.now.entries) (shown found.old.entries)) }
    ensures fault { IsOkUnless result fault.Memory }
{
    let Some(group) = rows.get(&id) else {
        return Ok(());
    };
    found.insert(id, group)?;
    Ok(())
}

// Returns the groups in order.
#[tactic(auto, using(crate::proofs::Gathering::values_shown))]
fn values<'a, G: Group>(
    alloc: Global,
    found: &BTreeMap<u64, &'a G>,
) -> Result<Vec<&'a G>, RealmFault>
    ensures list { IfOk result (λ list. map (λ group. group.now) list.items ≡ values_of (shown found.now.entries)) }
    ensures fault { IsOkUnless result fault.Memory }
{
    let mut list = Vec::new(alloc);
    for group in found.values() {
        list.push(*group)?;
    }
    Ok(list)
}

// Returns all groups in order.
pub(crate) fn listed<G: Group>(
    alloc: Global,
    rows: &BTreeMap<u64, G>,
) -> Result<Vec<&G>, RealmFault>
    ensures list { IfOk result (λ list. map (λ group. group.now) list.items ≡ members rows.now.entries) }
    ensures fault { IsOkUnless result fault.Memory }
{
    let mut list = Vec::new(alloc);
    for group in rows.values() {
        list.push(group)?;
    }
    Ok(list)
}
