ghost use Rattle.std.specs.Prelude.{◌≡◌, ◌^◌, ◌<◌, ◌≤◌, ◌∷◌, ◌++◌, [], length, drop, IfOk, OnOk, IsErr, Err};
ghost use Rattle.std.specs.Option.{option_copied};
ghost use Rattle.der_core.specs.Element.{el};
ghost use Rattle.evidence_types.specs.StampValue.{hash_list_element, hash_list_parts, optional_hash_lists};
ghost use Rattle.evidence_making.specs.Made.{group_lists, lists_of};
ghost use Rattle.evidence_making.specs.Frames.{each_inside, lists_inside, lists_with, BeginLists};

use crate::fault::MakeFault;
use crate::opening::open;
use der_core::tags::{OCTET_STRING, SEQUENCE};
use der_core::{Header, TooLong};
use evidence_trees::{Group, LeafLists};

/// The identifier octet of the lists, `[2]` IMPLICIT (RFC 4998 4.1).
const LISTS: u8 = 0xa2;

// How the element of the lists begins, unless it is absent, and how many octets it has.
#[derive(Drop)]
pub(crate) struct ListsOpening {
    pub(crate) header: Option<Header>,
    pub(crate) size: u64,
}

// How many octets a list of one hash value has, as a whole element.
fn list_length(value: &[u8]) -> Result<u64, TooLong>
    ensures size { IfOk result (λ n. (n ≡ length (hash_list_element (value.now ∷ []))) × (n < 2 ^ 33)) }
    ensures too_long { IsErr result → 2 ^ 32 ≤ length (hash_list_element (value.now ∷ [])) }
{
    let inside = open(OCTET_STRING, value.len() as u64)?;
    let list = open(SEQUENCE, inside.size)?;
    Ok(list.size)
}

// How many octets the lists of these values have, each of which stands alone, one after the other.
fn lists_length(values: &LeafLists) -> Result<u64, TooLong>
    ensures size { IfOk result (λ n. (n ≡ length (each_inside values.now)) × (n < 2 ^ 34)) }
    ensures too_long { IsErr result → 2 ^ 32 ≤ length (each_inside values.now) }
{
    let Some((first, others)) = values.next() else {
        return Ok(0);
    };
    let mut size = list_length(first)?;
    let mut left = others;
    while let Some((value, others)) = left.next() {
        if size > u32::MAX as u64 {
            return Err(TooLong);
        }
        size += list_length(value)?;
        left = others;
    }
    Ok(size)
}

// How many octets a list of the values of a group has, as a whole element.
fn group_length(group: &Group) -> Result<u64, TooLong>
    ensures size { IfOk result (λ n. (n ≡ length (hash_list_element group.now.values)) × (n < 2 ^ 33)) }
    ensures too_long { IsErr result → 2 ^ 32 ≤ length (hash_list_element group.now.values) }
{
    let contents = group_contents(group)?;
    let list = open(SEQUENCE, contents)?;
    Ok(list.size)
}

// How many octets the values of a group have as contents of a list.
fn group_contents(group: &Group) -> Result<u64, TooLong>
    ensures size { IfOk result (λ n. (n ≡ length (hash_list_parts group.now.values)) × (n < 2 ^ 34)) }
    ensures too_long { IsErr result → 2 ^ 32 ≤ length (hash_list_parts group.now.values) }
{
    let mut size = 0;
    let mut left = group.values();
    while let Some((value, others)) = left.next() {
        if size > u32::MAX as u64 {
            return Err(TooLong);
        }
        size += open(OCTET_STRING, value.len() as u64)?.size;
        left = others;
    }
    Ok(size)
}

// How many octets the lists of these values without the first have, one after the other.
fn others_length(values: &LeafLists) -> Result<u64, TooLong>
    ensures size { IfOk result (λ n. (n ≡ length (each_inside (drop 1 values.now))) × (n < 2 ^ 34)) }
    ensures too_long { IsErr result → 2 ^ 32 ≤ length (each_inside (drop 1 values.now)) }
{
    match values.next() {
        Some((_, others)) => lists_length(&others),
        None => Ok(0),
    }
}

// The beginning of the element of the lists, if there are any.
pub(crate) fn open_lists(group: Option<&Group>, values: &LeafLists) -> Result<ListsOpening, TooLong>
    ensures header { IfOk result (λ o. BeginLists o.header (lists_with (option_copied group.entry) values.now)) }
    ensures size { IfOk result (λ o. (o.size
        ≡ length (optional_hash_lists 0xa2 (lists_with (option_copied group.entry) values.now))) × (o.size < 2 ^ 33)) }
    ensures too_long { IsErr result
        → 2 ^ 32 ≤ length (lists_inside (lists_with (option_copied group.entry) values.now)) }
{
    match group {
        Some(group) => open_group(group, values),
        None => open_each(values),
    }
}

// The beginning of the element of lists of which the first has the values of a group.
fn open_group(group: &Group, values: &LeafLists) -> Result<ListsOpening, TooLong>
    ensures header { IfOk result (λ o. BeginLists o.header (group_lists group.now.values values.now)) }
    ensures size { IfOk result (λ o. (o.size
        ≡ length (optional_hash_lists 0xa2 (group_lists group.now.values values.now))) × (o.size < 2 ^ 33)) }
    ensures too_long { IsErr result
        → 2 ^ 32 ≤ length (lists_inside (group_lists group.now.values values.now)) }
{
    let first = group_length(group)?;
    let others = others_length(values)?;
    let lists = open(LISTS, first + others)?;
    Ok(ListsOpening {
        header: Some(lists.header),
        size: lists.size,
    })
}

// The beginning of the element of lists of values that each stand alone, unless it is absent.
fn open_each(values: &LeafLists) -> Result<ListsOpening, TooLong>
    ensures header { IfOk result (λ o. BeginLists o.header (lists_of values.now)) }
    ensures size { IfOk result
        (λ o. (o.size ≡ length (optional_hash_lists 0xa2 (lists_of values.now))) × (o.size < 2 ^ 33)) }
    ensures too_long { IsErr result → 2 ^ 32 ≤ length (lists_inside (lists_of values.now)) }
{
    if values.next().is_none() {
        return Ok(ListsOpening {
            header: None,
            size: 0,
        });
    }
    let contents = lists_length(values)?;
    let lists = open(LISTS, contents)?;
    Ok(ListsOpening {
        header: Some(lists.header),
        size: lists.size,
    })
}

// Adds a list of one hash value.
fn put_list(out: &mut Vec<u8>, value: &[u8]) -> Result<(), MakeFault>
    ensures put { OnOk result (out.new.items ≡ out.old.items ++ hash_list_element (value.now ∷ [])) }
    ensures too_long { result ≡ Err MakeFault.TooLong → 2 ^ 32 ≤ length (hash_list_element (value.now ∷ [])) }
{
    let inside = open(OCTET_STRING, value.len() as u64)?;
    let list = open(SEQUENCE, inside.size)?;
    out.extend_from_slice(list.header.bytes())?;
    out.extend_from_slice(inside.header.bytes())?;
    out.extend_from_slice(value)?;
    Ok(())
}

// Adds the lists of values, each of which stands alone.
fn put_each(out: &mut Vec<u8>, values: &LeafLists) -> Result<(), MakeFault>
    ensures put { OnOk result (out.new.items ≡ out.old.items ++ each_inside values.now) }
    ensures too_long { result ≡ Err MakeFault.TooLong → 2 ^ 32 ≤ length (each_inside values.now) }
{
    let Some((first, others)) = values.next() else {
        return Ok(());
    };
    put_list(out, first)?;
    let mut left = others;
    while let Some((value, others)) = left.next() {
        put_list(out, value)?;
        left = others;
    }
    Ok(())
}

// Adds a hash value.
fn put_value(out: &mut Vec<u8>, value: &[u8]) -> Result<(), MakeFault>
    ensures put { OnOk result (out.new.items ≡ out.old.items ++ el 0x04 value.now) }
    ensures too_long { result ≡ Err MakeFault.TooLong → 2 ^ 32 ≤ length (el 0x04 value.now) }
{
    let inside = open(OCTET_STRING, value.len() as u64)?;
    out.extend_from_slice(inside.header.bytes())?;
    out.extend_from_slice(value)?;
    Ok(())
}

// Adds the values of a group, as contents of a list.
fn put_values(out: &mut Vec<u8>, group: &Group) -> Result<(), MakeFault>
    ensures put { OnOk result (out.new.items ≡ out.old.items ++ hash_list_parts group.now.values) }
    ensures too_long { result ≡ Err MakeFault.TooLong → 2 ^ 32 ≤ length (hash_list_parts group.now.values) }
{
    let mut left = group.values();
    while let Some((value, others)) = left.next() {
        put_value(out, value)?;
        left = others;
    }
    Ok(())
}

// Adds a list of the values of a group.
fn put_group(out: &mut Vec<u8>, group: &Group) -> Result<(), MakeFault>
    ensures put { OnOk result (out.new.items ≡ out.old.items ++ hash_list_element group.now.values) }
    ensures too_long { result ≡ Err MakeFault.TooLong → 2 ^ 32 ≤ length (hash_list_element group.now.values) }
{
    let contents = group_contents(group)?;
    let list = open(SEQUENCE, contents)?;
    out.extend_from_slice(list.header.bytes())?;
    put_values(out, group)
}

// Adds lists of which the first has the values of a group.
fn put_with_group(out: &mut Vec<u8>, group: &Group, values: &LeafLists) -> Result<(), MakeFault>
    ensures put { OnOk result (out.new.items
        ≡ out.old.items ++ lists_inside (group_lists group.now.values values.now)) }
    ensures too_long { result ≡ Err MakeFault.TooLong
        → 2 ^ 32 ≤ length (lists_inside (group_lists group.now.values values.now)) }
{
    put_group(out, group)?;
    match values.next() {
        Some((_, others)) => put_each(out, &others),
        None => Ok(()),
    }
}

// Adds the element of the lists, which begins so, unless it is absent.
pub(crate) fn put_lists(
    out: &mut Vec<u8>,
    header: &Option<Header>,
    group: Option<&Group>,
    values: &LeafLists,
) -> Result<(), MakeFault>
    requires { BeginLists header.now (lists_with (option_copied group) values.now) }
    ensures put { OnOk result (out.new.items
        ≡ out.old.items ++ optional_hash_lists 0xa2 (lists_with (option_copied group.entry) values.now)) }
    ensures too_long { result ≡ Err MakeFault.TooLong
        → 2 ^ 32 ≤ length (lists_inside (lists_with (option_copied group.entry) values.now)) }
{
    let Some(header) = header else {
        return Ok(());
    };
    out.extend_from_slice(header.bytes())?;
    match group {
        Some(group) => put_with_group(out, group, values),
        None => put_each(out, values),
    }
}
