//! Contracts that leave one result, for the parts of every type and for APDUs: what the calls return is proved of their contracts
//! alone, and the calls of a trait are those of any type that has it. So a body that returns anything else, in any of these types,
//! doesn't meet its contract. That memory was refused is the one result that may always come.
use ill_apdu::Apdu;
use ill_parts::{Part, Typed};
use ill_schema::{Value, equal, fits};
use std::alloc::{AllocError, Global};

/// A part has one value.
fn parts_have_one_value<P: Part>(part: &P, alloc: Global) -> Result<(), AllocError> {
    let one = part.to_value(alloc)?;
    let other = part.to_value(alloc)?;
    prove!(equal(&one, &other));
    Ok(())
}

/// Two parts are equal exactly where their values are.
fn parts_are_equal_where_their_values_are<T: Typed>(
    one: &T,
    other: &T,
    alloc: Global,
) -> Result<(), AllocError> {
    let value = one.to_value(alloc)?;
    let other_value = other.to_value(alloc)?;
    one.one_view(other);
    prove!((one == other) == equal(&value, &other_value));
    Ok(())
}

/// A part is read again from its value.
fn parts_come_back<T: Typed>(part: &T, alloc: Global) -> Result<(), AllocError> {
    let value = part.to_value(alloc)?;
    if let Some(back) = T::from_value(alloc, &value)? {
        part.one_view(&back);
        prove!(back == *part);
    }
    Ok(())
}

/// A value is a part exactly where it fits the node, and is the value of the part that is read.
fn values_that_fit_are_parts<T: Typed>(value: &Value, alloc: Global) -> Result<(), AllocError> {
    match T::from_value(alloc, value)? {
        Some(part) => {
            prove!(fits(value, T::NODE));
            let back = part.to_value(alloc)?;
            prove!(equal(&back, value));
        }
        None => {
            prove!(!fits(value, T::NODE));
        }
    }
    Ok(())
}

/// An APDU makes one message, of its number.
fn apdus_make_one_message(apdu: &Apdu, alloc: Global) {
    let Ok(message) = apdu.to_message(alloc) else {
        return;
    };
    let Ok(other) = apdu.to_message(alloc) else {
        return;
    };
    prove!(message.apdu() == apdu.number());
    prove!(message.same_apdu(&other));
    prove!(message.octets() == other.octets());
}

/// An APDU is read from its message again.
fn apdus_come_back(apdu: &Apdu, alloc: Global) -> Result<(), AllocError> {
    if let Ok(message) = apdu.to_message(alloc) {
        let back = Apdu::from_message(alloc, &message)?;
        back.one_view(apdu);
        prove!(back == *apdu);
    }
    Ok(())
}
