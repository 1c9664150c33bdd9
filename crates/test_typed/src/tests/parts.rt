//! Values that are parts, and values that are not.
use ber_leaf::{IllString, VisibleText};
use ill_apdu::{Expired, Head};
use ill_parts::{
    CostInfo, DateDue, DateTime, Node, Part, SearchType, ServiceDateTime, Symbol, SystemId,
    TransactionId, Typed, UnitsPerMedium,
};
use ill_schema::{NodeId, Value, equal};
use std::alloc::Global;
use std::test::Fail;
use test_support::{date_text, general_string, value};

/// Tells whether the words write a value that is no `T`.
fn is_no<T: Typed>(alloc: Global, words: &str) -> Result<bool, Fail> {
    let value = value(alloc, words)?;
    Ok(T::from_value(alloc, &value)?.is_none())
}

#[test]
fn values_that_do_not_fit_are_no_parts(rt: HostRuntime) -> Result<(), Fail> {
    let alloc = rt.alloc();
    assert!(rt; SystemId::NODE == NodeId::SYSTEM_ID && is_no::<SystemId>(alloc, "true")?);
    assert!(rt; is_no::<DateDue>(alloc, "date:20240229 seq:1")?);
    assert!(rt; is_no::<CostInfo>(alloc, "none:2 3 - seq:4")?);
    assert!(rt; is_no::<Expired>(alloc, "true")?);
    assert!(rt; is_no::<Expired>(alloc, "head none:2 seq:7")?);
    Ok(())
}

/// Tells whether the part is read from the value.
fn is_read_from<T: Typed>(alloc: Global, part: &T, value: &Value) -> Result<bool, Fail> {
    match T::from_value(alloc, value)? {
        Some(read) => Ok(read == *part),
        None => Ok(false),
    }
}

/// Tells whether the part has the value.
fn has_value<T: Typed>(alloc: Global, part: &T, wanted: &Value) -> Result<bool, Fail> {
    let made = part.to_value(alloc)?;
    Ok(equal(&made, wanted))
}

/// Tells whether the part has the value that the words write, and is read from it.
fn is_written<T: Typed>(alloc: Global, part: &T, words: &str) -> Result<bool, Fail> {
    let wanted = value(alloc, words)?;
    Ok(has_value(alloc, part, &wanted)? && is_read_from(alloc, part, &wanted)?)
}

#[test]
fn dates_due_have_a_day_and_a_flag(rt: HostRuntime) -> Result<(), Fail> {
    let alloc = rt.alloc();
    let due = DateDue {
        date_due_field: date_text(b"20240229".to_vec(alloc)?)?,
        renewable: false,
    };
    assert!(rt; is_written(alloc, &due, "date:20240229 false seq:2")?);
    Ok(())
}

#[test]
fn absent_entries_have_their_places(rt: HostRuntime) -> Result<(), Fail> {
    let alloc = rt.alloc();
    let search = SearchType {
        level_of_service: None,
        need_before_date: None,
        expiry_flag: 3,
        expiry_date: None,
    };
    assert!(rt; is_written(alloc, &search, "none:2 3 - seq:4")?);
    Ok(())
}

/// Group "G", qualifier "Q".
fn transaction_id(alloc: Global) -> Result<TransactionId, Fail> {
    let transaction_group_qualifier = general_string(alloc, "G")?;
    Ok(TransactionId {
        initial_requester_id: None,
        transaction_group_qualifier,
        transaction_qualifier: general_string(alloc, "Q")?,
        sub_transaction_qualifier: None,
    })
}

/// Version 2, that transaction, 29 February 2024.
pub fn head(alloc: Global) -> Result<Head, Fail> {
    let day = date_text(b"20240229".to_vec(alloc)?)?;
    let transaction_id = transaction_id(alloc)?;
    Ok(Head {
        protocol_version_num: 2,
        transaction_id,
        service_date_time: ServiceDateTime {
            date_time_of_this_service: DateTime {
                date: day,
                time: None,
            },
            date_time_of_original_service: None,
        },
        requester_id: None,
        responder_id: None,
    })
}

/// Tells whether an EXPIRED begins with its head.
fn begins_with_its_head(alloc: Global) -> Result<bool, Fail> {
    let expired = Expired { head: head(alloc)? };
    is_written(alloc, &expired, "head - seq:6")
}

#[test]
fn heads_are_at_the_front_of_their_apdus(rt: HostRuntime) -> Result<(), Fail> {
    assert!(rt; begins_with_its_head(rt.alloc())?);
    Ok(())
}

/// The text that `Debug` writes of a head.
fn text_of(alloc: Global, head: &Head) -> Result<String, Fail> {
    Ok(format!(in alloc; "{head:?}")?)
}

fn debug_text_of_head(alloc: Global) -> Result<String, Fail> {
    let head = head(alloc)?;
    text_of(alloc, &head)
}

#[test]
fn debug_text(rt: HostRuntime) -> Result<(), Fail> {
    let text = debug_text_of_head(rt.alloc())?;
    assert!(rt;
        text.as_str().starts_with(
            "Head { protocol_version_num: 2, transaction_id: TransactionId { initial_requester_id: None, transaction_group_qualifier: General("
        )
    );
    Ok(())
}

fn visible(alloc: Global, letters: &[u8]) -> Result<IllString, Fail> {
    match VisibleText::new(letters.to_vec(alloc)?) {
        Ok(text) => Ok(IllString::Visible(text)),
        Err(_) => Err("no VisibleString")?,
    }
}

/// Tells whether these are the symbols "L" of a person, a GeneralString, and of an institution, a VisibleString.
fn are_symbols(alloc: Global, person: &Symbol, institution: &Symbol) -> Result<bool, Fail> {
    Ok(
        is_written(alloc, person, "general:L alt:0")?
            && is_written(alloc, institution, "visible:L alt:1")?
            && person != institution,
    )
}

#[test]
fn symbols_keep_their_alternative_and_that_of_their_text(rt: HostRuntime) -> Result<(), Fail> {
    let person = Symbol::PersonSymbol(general_string(rt.alloc(), "L")?);
    let institution = Symbol::InstitutionSymbol(visible(rt.alloc(), b"L")?);
    assert!(rt; are_symbols(rt.alloc(), &person, &institution)?);
    Ok(())
}

/// The part that the words write.
fn part<T: Typed>(alloc: Global, words: &str) -> Result<Option<T>, Fail> {
    let value = value(alloc, words)?;
    Ok(T::from_value(alloc, &value)?)
}

/// Tells whether the parts that two lines of words write are equal.
fn are_equal<T: Typed>(alloc: Global, one: &str, other: &str) -> Result<bool, Fail> {
    let one: Option<T> = part(alloc, one)?;
    let other: Option<T> = part(alloc, other)?;
    match (&one, &other) {
        (Some(one), Some(other)) => Ok(one == other),
        _ => Err("no part")?,
    }
}

#[test]
fn parts_differ_where_their_texts_differ(rt: HostRuntime) -> Result<(), Fail> {
    let alloc = rt.alloc();
    let general = "general:L alt:1 - seq:2";
    let visible = "visible:L alt:1 - seq:2";
    assert!(rt; are_equal::<SystemId>(alloc, general, general)?);
    assert!(rt; !are_equal::<SystemId>(alloc, general, visible)?);
    Ok(())
}

/// Tells whether the list is read from its value.
fn is_read_again(alloc: Global, list: &Vec<UnitsPerMedium>) -> Result<bool, Fail> {
    let value = list.to_value(alloc)?;
    let again = Vec::<UnitsPerMedium>::read(alloc, &value)?;
    Ok(again == *list)
}

#[test]
fn lists_are_equal_item_by_item(rt: HostRuntime) -> Result<(), Fail> {
    let units = |medium, no_of_units| UnitsPerMedium {
        medium,
        no_of_units,
    };
    let list = vec![in rt.alloc(); units(1, 2), units(3, -4)]?;
    let other = vec![in rt.alloc(); units(1, 2), units(3, 4)]?;
    assert!(rt; list != other && is_read_again(rt.alloc(), &list)?);
    Ok(())
}
