//! Leaves.
ghost use Rattle.std.specs.Prelude.{◌≡◌, ◌+◌, ◌<◌, ◌≤◌, ◌^◌, ◌*◌, ℕ, ℤ, FitsSigned, IfNone, IfOk, IfSome, IsTrue, List, None, OnOk, Some, [], codes, decimal, length, true, false};
ghost use Rattle.std.specs.Int.{w64};
ghost use Rattle.json.specs.Find.{as_bool, as_number, as_str, get, is_null};
ghost use Rattle.json.specs.Json.{member, no_members, number as text_of, object, string};
ghost use Rattle.json.specs.Value.{value_view};
ghost use Rattle.ber_leaf.specs.Leaf.{cleared_last, content_fault, general_string, normal_content};
ghost use Rattle.ber_leaf.specs.Profile.{profile_two};
ghost use Rattle.ber_leaf.specs.Simple.{bits, whole};
ghost use Rattle.ber_tree.specs.Octets.{are_octets};
ghost use Rattle.ill_schema.specs.Profiles.{profile_of};
ghost use Rattle.ill_schema.specs.Texts.{characters, hexadecimal};
ghost use Rattle.ill_tables.specs.declared.node.Kind.{Kind as KindOf};
ghost use Rattle.ill_tables.specs.declared.node.LeafKind.{LeafKind as LeafKindOf};
ghost use Rattle.ill_build.specs.Faulty.{IsBitsFault, IsCountFault, IsFaultOf, IsHexadecimalFault, IsLeafFault, IsMemberFault, IsNotOne, IsObjectFault, IsOctetsFault, IsOidFault, IsStringFault, IsTextFault, IsWholeFault, IsWrongType, text_cause};
ghost use Rattle.ill_build.specs.Members.{IsObjectOf};
ghost use Rattle.ill_build.specs.Path.{OnRefusal};
ghost use Rattle.ill_build.specs.Said.{LeafSays};
ghost use Rattle.ill_build.specs.code.Built.{IsLeafKind, ReadsForeign, ReadsLeaf};
ghost use Rattle.ill_build.specs.code.Views.{known_of};

use crate::cause::BuildCause;
use crate::members::{Known, Member, members_of, only_member};
use crate::number::read_number;
use crate::put::Context;
use crate::stop::{Step, Stop, refused, within};
use ber_core::universal;
use ber_foreign::is_foreign_encoding;
use ber_leaf::{
    DateText, GeneralText, Leaf, ObjectDescriptor, PrintableText, TimeText, VisibleText, Whole,
};
use ill_schema::{Kind, LeafKind, Profile};
use ill_texts::{NumberFault, octets_of_characters, octets_of_hexadecimal, whole_number};
use json::Value;
use oid_text::octets_of_oid;
use std::alloc::{AllocError, Global};

/// The contents octets of a leaf, and the number of its universal tag.
#[derive(Drop)]
pub struct LeafContents {
    pub number: u32,
    pub octets: Vec<u8>,
}

/// A type of strings: the number of its tag, and the cause of octets that are no content of it.
#[derive(Clone, Copy)]
struct StringType {
    tag: u32,
    cause: BuildCause,
}

/// ISO-Date.
const DATE: StringType = StringType {
    tag: universal::VISIBLE_STRING,
    cause: BuildCause::BadDate,
};

/// ISO-Time.
const TIME: StringType = StringType {
    tag: universal::VISIBLE_STRING,
    cause: BuildCause::BadTime,
};

/// PrintableString.
const PRINTABLE: StringType = StringType {
    tag: universal::PRINTABLE_STRING,
    cause: BuildCause::BadText,
};

/// ObjectDescriptor.
const DESCRIPTOR: StringType = StringType {
    tag: universal::OBJECT_DESCRIPTOR,
    cause: BuildCause::BadText,
};

/// GeneralString.
const GENERAL: StringType = StringType {
    tag: universal::GENERAL_STRING,
    cause: BuildCause::BadText,
};

/// VisibleString.
const VISIBLE: StringType = StringType {
    tag: universal::VISIBLE_STRING,
    cause: BuildCause::BadText,
};

/// The names of the alternatives of an ILL-String.
const ALTERNATIVES: [&str; 2] = ["general", "visible"];

/// The names of the members of a BIT STRING.
const BITS: [&str; 2] = ["bits", "octets"];

/// Reads a leaf in a row of this name.
pub fn read_leaf<'a>(
    context: Context,
    kind: Kind,
    name: &str,
    value: &Value<'a>,
) -> Result<LeafContents, Stop<'a>>
    requires leaf { IsLeafKind kind }
    ensures said { IfOk result (λ read. ReadsLeaf (profile_of context.profile) kind name.now
        (value_view value.now) read.number read.octets.items) }
    ensures refused { OnRefusal result
        (IsLeafFault (profile_of context.profile) kind name.now (value_view value.now)) }
{
    match kind {
        Kind::Leaf(LeafKind::Boolean) => read_flag(context, value),
        Kind::Leaf(LeafKind::Integer) => read_whole(context, universal::INTEGER, name, value),
        Kind::Leaf(LeafKind::Enumerated) => {
            read_whole(context, universal::ENUMERATED, name, value)
        }
        Kind::Leaf(LeafKind::Date) => read_text::<DateText>(context, DATE, value),
        Kind::Leaf(LeafKind::Time) => read_text::<TimeText>(context, TIME, value),
        Kind::Leaf(LeafKind::Printable) => read_text::<PrintableText>(context, PRINTABLE, value),
        Kind::Leaf(LeafKind::Null) => read_null(context, value),
        Kind::Leaf(LeafKind::ObjectIdentifier) => read_oid(context, value),
        Kind::Leaf(LeafKind::OctetString) => read_octets(context, value),
        Kind::Leaf(LeafKind::BitString) => read_bits(context, value),
        Kind::Leaf(LeafKind::ObjectDescriptor) => read_text::<ObjectDescriptor>(
            context, DESCRIPTOR, value,
        ),
        Kind::IllString => read_string(context, value),
        Kind::Seq | Kind::SeqOf | Kind::Choice | Kind::Any => unreachable!(),
    }
}

/// Reads a value of an open type.
pub fn read_foreign<'a>(context: Context, value: &Value<'a>) -> Result<Vec<u8>, Stop<'a>>
    ensures said { IfOk result (λ octets. ReadsForeign (value_view value.now) octets.items) }
    ensures refused { OnRefusal result (IsLeafFault (profile_of context.profile) KindOf.Any []
        (value_view value.now)) }
{
    let octets = only_octets(context, "foreign", value)?;
    if is_foreign_encoding(&octets) {
        Ok(octets)
    } else {
        Err(within(
            refused(context.alloc, BuildCause::BadForeign),
            Step::Name("foreign"),
        ))
    }
}

/// Reads a BOOLEAN.
fn read_flag<'a>(context: Context, value: &Value<'a>) -> Result<LeafContents, Stop<'a>>
    ensures said { (row : List ℕ) → IfOk result (λ read. ReadsLeaf (profile_of context.profile)
        (KindOf.Leaf LeafKindOf.Boolean) row (value_view value.now) read.number
        read.octets.items) }
    ensures refused { OnRefusal result (IsWrongType (as_bool (value_view value.now))) }
{
    let Some(is_set) = value.as_bool() else {
        return Err(refused(context.alloc, BuildCause::WrongType));
    };
    let octet = if is_set { 0xFF } else { 0x00 };
    let octets = Vec::from_slice(context.alloc, &[octet])?;
    Ok(LeafContents {
        number: universal::BOOLEAN,
        octets,
    })
}

/// Reads a NULL.
fn read_null<'a>(context: Context, value: &Value<'a>) -> Result<LeafContents, Stop<'a>>
    ensures said { (row : List ℕ) → IfOk result (λ read. ReadsLeaf (profile_of context.profile)
        (KindOf.Leaf LeafKindOf.Null) row (value_view value.now) read.number
        read.octets.items) }
    ensures refused { OnRefusal result (λ cause path. (is_null (value_view value.now) ≡ false)
        × (cause ≡ BuildCause.WrongType) × (path ≡ [])) }
{
    if !value.is_null() {
        return Err(refused(context.alloc, BuildCause::WrongType));
    }
    Ok(LeafContents {
        number: universal::NULL,
        octets: Vec::new(context.alloc),
    })
}

/// Reads an INTEGER or ENUMERATED of this tag, in a row of this name.
fn read_whole<'a>(
    context: Context,
    tag: u32,
    name: &str,
    value: &Value<'a>,
) -> Result<LeafContents, Stop<'a>>
    ensures said { IfOk result (λ read. (n : ℤ) × FitsSigned w64 n
        × LeafSays name.now (value_view value.now) (whole n)
        × (read.octets.items ≡ normal_content (whole n)) × (read.number ≡ tag)) }
    ensures refused { OnRefusal result (IsWholeFault name.now (value_view value.now)) }
{
    let number = read_number(context, name, value)?;
    let octets = whole_octets(context.alloc, number)?;
    Ok(LeafContents {
        number: tag,
        octets,
    })
}

/// The contents octets of a number.
pub fn whole_octets(alloc: Global, number: i64) -> Result<Vec<u8>, AllocError>
    ensures { IfOk result (λ octets. octets.items ≡ normal_content (whole number)) }
{
    let mut octets = vec![in alloc; 0; Whole::normal_size(&number)]?;
    Whole::put_normal(&number, &mut octets);
    Ok(octets)
}

/// Reads a string of a type.
fn read_text<'a, L: Leaf>(
    context: Context,
    string_type: StringType,
    value: &Value<'a>,
) -> Result<LeafContents, Stop<'a>>
    requires { string_type.cause ≡ text_cause L.kind }
    ensures said { IfOk result (λ read. IsTrue (are_octets read.octets.items)
        × (content_fault profile_two L.kind read.octets.items ≡ None)
        × (value_view value.now ≡ string (characters read.octets.items))
        × (read.number ≡ string_type.tag)) }
    ensures refused { OnRefusal result (IsFaultOf (as_str (value_view value.now))
        (IsTextFault profile_two L.kind)) }
{
    let octets = characters_in(context, value)?;
    match L::check(&octets) {
        None => Ok(LeafContents {
            number: string_type.tag,
            octets,
        }),
        Some(_) => Err(refused(context.alloc, string_type.cause)),
    }
}

/// Reads a GeneralString.
fn read_general<'a>(context: Context, value: &Value<'a>) -> Result<LeafContents, Stop<'a>>
    ensures said { IfOk result (λ read. IsTrue (are_octets read.octets.items)
        × (content_fault (profile_of context.profile) general_string read.octets.items ≡ None)
        × (value_view value.now ≡ string (characters read.octets.items))
        × (read.number ≡ 27)) }
    ensures refused { OnRefusal result (IsFaultOf (as_str (value_view value.now))
        (IsTextFault (profile_of context.profile) general_string)) }
{
    match context.profile {
        Profile::Two => read_text::<GeneralText>(context, GENERAL, value),
        Profile::Module => {
            let octets = characters_in(context, value)?;
            Ok(LeafContents {
                number: GENERAL.tag,
                octets,
            })
        }
    }
}

/// Reads an ILL-String.
fn read_string<'a>(context: Context, value: &Value<'a>) -> Result<LeafContents, Stop<'a>>
    ensures said { (row : List ℕ) → IfOk result (λ read. ReadsLeaf (profile_of context.profile)
        KindOf.IllString row (value_view value.now) read.number read.octets.items) }
    ensures refused { OnRefusal result
        (IsStringFault (profile_of context.profile) (value_view value.now)) }
{
    check_members(context, Known::Names(&ALTERNATIVES), value)?;
    let Some(member) = only_member_of(value) else {
        return Err(refused(context.alloc, BuildCause::NotOneMember));
    };
    let read = if member.0 == "general" {
        read_general(context, &member.1)
    } else {
        read_text::<VisibleText>(context, VISIBLE, &member.1)
    };
    match read {
        Ok(contents) => Ok(contents),
        Err(stop) => Err(within(stop, Step::Name(member.0))),
    }
}

/// The only member of an object, None where the value is no object, or has none or two.
fn only_member_of<'v, 'a>(value: &'v Value<'a>) -> Option<&'v Member<'a>>
    ensures none { IfNone result (IsNotOne (value_view value.now)) }
    ensures some { IfSome result (λ m. value_view value.now
        ≡ object (member m.now.0.now (value_view m.now.1) no_members)) }
{
    match members_of(value) {
        Some(members) => only_member(members),
        None => None,
    }
}

/// Reads an OBJECT IDENTIFIER.
fn read_oid<'a>(context: Context, value: &Value<'a>) -> Result<LeafContents, Stop<'a>>
    ensures said { (row : List ℕ) → IfOk result (λ read. ReadsLeaf (profile_of context.profile)
        (KindOf.Leaf LeafKindOf.ObjectIdentifier) row (value_view value.now) read.number
        read.octets.items) }
    ensures refused { OnRefusal result
        (IsFaultOf (as_str (value_view value.now)) IsOidFault) }
{
    let text = text_in(context, value)?;
    match octets_of_oid(context.alloc, text)? {
        Some(octets) => Ok(LeafContents {
            number: universal::OBJECT_IDENTIFIER,
            octets,
        }),
        None => Err(refused(context.alloc, BuildCause::BadOid)),
    }
}

/// Reads an OCTET STRING.
fn read_octets<'a>(context: Context, value: &Value<'a>) -> Result<LeafContents, Stop<'a>>
    ensures said { (row : List ℕ) → IfOk result (λ read. ReadsLeaf (profile_of context.profile)
        (KindOf.Leaf LeafKindOf.OctetString) row (value_view value.now) read.number
        read.octets.items) }
    ensures refused { OnRefusal result (IsOctetsFault (codes "octets") IsHexadecimalFault
        (value_view value.now)) }
{
    let octets = only_octets(context, "octets", value)?;
    Ok(LeafContents {
        number: universal::OCTET_STRING,
        octets,
    })
}

/// Reads a BIT STRING.
fn read_bits<'a>(context: Context, value: &Value<'a>) -> Result<LeafContents, Stop<'a>>
    ensures said { (row : List ℕ) → IfOk result (λ read. ReadsLeaf (profile_of context.profile)
        (KindOf.Leaf LeafKindOf.BitString) row (value_view value.now) read.number
        read.octets.items) }
    ensures refused { OnRefusal result
        (IsBitsFault (profile_of context.profile) (value_view value.now)) }
{
    check_members(context, Known::Names(&BITS), value)?;
    let count = count_member(context, value)?;
    let octets = octets_member(context, "octets", value)?;
    let Some(unused) = unused_bits(count, &octets) else {
        return Err(refused(context.alloc, BuildCause::BadBits));
    };
    let mut contents = Vec::from_slice(context.alloc, &[unused])?;
    contents.extend_from_slice(&octets)?;
    Ok(LeafContents {
        number: universal::BIT_STRING,
        octets: contents,
    })
}

/// The number of bits that are unused where so many bits fill the octets, and the unused ones are 0. None where that isn't so.
fn unused_bits(count: u64, octets: &[u8]) -> Option<u8>
    ensures some { IfSome result (λ unused. (8 * length octets.now ≡ count + unused)
        × (unused ≤ 7) × (cleared_last unused octets.now ≡ octets.now)) }
    ensures none { IfNone result ((unused : ℕ) → 8 * length octets.now ≡ count + unused
        → unused ≤ 7 → cleared_last unused octets.now ≡ octets.now → ⊥) }
{
    let all = 8 * octets.len() as u128;
    let count = u128::from(count);
    if count > all || all - count > 7 {
        return None;
    }
    let unused = (all - count) as u8;
    if is_clear(unused, octets) {
        Some(unused)
    } else {
        None
    }
}

/// Tells whether so many bits at the end of the octets are 0.
fn is_clear(unused: u8, octets: &[u8]) -> bool
    requires { unused ≤ 7 }
    ensures yes { result ≡ true → cleared_last unused octets.now ≡ octets.now }
    ensures no { result ≡ false → cleared_last unused octets.now ≡ octets.now → ⊥ }
{
    match octets.last() {
        Some(octet) => *octet >> unused << unused == *octet,
        None => true,
    }
}

/// The number of bits that an object has.
fn count_member<'a>(context: Context, value: &Value<'a>) -> Result<u64, Stop<'a>>
    ensures said { IfOk result (λ n. (n < 2 ^ 63)
        × (get (codes "bits") (value_view value.now) ≡ Some (text_of (decimal n)))) }
    ensures refused { OnRefusal result (IsMemberFault (codes "bits")
        (λ k. IsFaultOf (as_number k) IsCountFault) (value_view value.now)) }
{
    let member = required_member(context, "bits", value)?;
    match count_in(context, member) {
        Ok(count) => Ok(count),
        Err(stop) => Err(within(stop, Step::Name("bits"))),
    }
}

/// The number of bits that a value is.
fn count_in<'a>(context: Context, value: &Value<'a>) -> Result<u64, Stop<'a>>
    ensures said { IfOk result (λ n. (n < 2 ^ 63)
        × (value_view value.now ≡ text_of (decimal n))) }
    ensures refused { OnRefusal result
        (IsFaultOf (as_number (value_view value.now)) IsCountFault) }
{
    let Some(text) = value.as_number() else {
        return Err(refused(context.alloc, BuildCause::WrongType));
    };
    match whole_number(text) {
        Ok(number) if number >= 0 => Ok(number as u64),
        Ok(_) => Err(refused(context.alloc, BuildCause::NumberTooLong)),
        Err(NumberFault::TooLong) => Err(refused(context.alloc, BuildCause::NumberTooLong)),
        Err(NumberFault::NotWhole) => Err(refused(context.alloc, BuildCause::NotWhole)),
    }
}

/// The octets of an object of this one member, in hexadecimal.
fn only_octets<'a>(
    context: Context,
    name: &'static str,
    value: &Value<'a>,
) -> Result<Vec<u8>, Stop<'a>>
    ensures said { IfOk result (λ octets. IsTrue (are_octets octets.items)
        × (value_view value.now
        ≡ object (member name.now (string (hexadecimal octets.items)) no_members))) }
    ensures refused { OnRefusal result
        (IsOctetsFault name.now IsHexadecimalFault (value_view value.now)) }
{
    check_members(context, Known::Names(&[name]), value)?;
    octets_member(context, name, value)
}

/// The octets of the member of this name, in hexadecimal.
fn octets_member<'a>(
    context: Context,
    name: &'static str,
    value: &Value<'a>,
) -> Result<Vec<u8>, Stop<'a>>
    ensures said { IfOk result (λ octets. IsTrue (are_octets octets.items)
        × (get name.now (value_view value.now) ≡ Some (string (hexadecimal octets.items)))) }
    ensures refused { OnRefusal result (IsMemberFault name.now
        (λ k. IsFaultOf (as_str k) IsHexadecimalFault) (value_view value.now)) }
{
    let member = required_member(context, name, value)?;
    match hexadecimal_in(context, member) {
        Ok(octets) => Ok(octets),
        Err(stop) => Err(within(stop, Step::Name(name))),
    }
}

/// The octets that a string is in hexadecimal.
fn hexadecimal_in<'a>(context: Context, value: &Value<'a>) -> Result<Vec<u8>, Stop<'a>>
    ensures said { IfOk result (λ octets. IsTrue (are_octets octets.items)
        × (value_view value.now ≡ string (hexadecimal octets.items))) }
    ensures refused { OnRefusal result
        (IsFaultOf (as_str (value_view value.now)) IsHexadecimalFault) }
{
    let text = text_in(context, value)?;
    match octets_of_hexadecimal(context.alloc, text)? {
        Some(octets) => Ok(octets),
        None => Err(refused(context.alloc, BuildCause::BadHexadecimal)),
    }
}

/// The octets whose characters a string is.
fn characters_in<'a>(context: Context, value: &Value<'a>) -> Result<Vec<u8>, Stop<'a>>
    ensures said { IfOk result (λ octets. IsTrue (are_octets octets.items)
        × (value_view value.now ≡ string (characters octets.items))) }
    ensures refused { OnRefusal result (IsFaultOf (as_str (value_view value.now))
        (λ text cause. (cause ≡ BuildCause.BadCharacter)
        × ((octets : List ℕ) → IsTrue (are_octets octets) → text ≡ characters octets → ⊥))) }
{
    let text = text_in(context, value)?;
    match octets_of_characters(context.alloc, text)? {
        Some(octets) => Ok(octets),
        None => Err(refused(context.alloc, BuildCause::BadCharacter)),
    }
}

/// The text of a string.
pub fn text_in<'a>(context: Context, value: &Value<'a>) -> Result<&'a str, Stop<'a>>
    ensures said { IfOk result (λ text. as_str (value_view value.now) ≡ Some text.now) }
    ensures refused { OnRefusal result (IsWrongType (as_str (value_view value.now))) }
{
    match value.as_str() {
        Some(text) => Ok(text),
        None => Err(refused(context.alloc, BuildCause::WrongType)),
    }
}

/// The member of this name, which has to be there.
pub fn required_member<'v, 'a>(
    context: Context,
    name: &'static str,
    value: &'v Value<'a>,
) -> Result<&'v Value<'a>, Stop<'a>>
    ensures said { IfOk result (λ member. get name.now (value_view value.now)
        ≡ Some (value_view member.now)) }
    ensures refused { OnRefusal result
        (IsMemberFault name.now (λ k cause path. ⊥) (value_view value.now)) }
{
    match value.get(name) {
        Some(member) => Ok(member),
        None => Err(within(
            refused(context.alloc, BuildCause::MissingMember),
            Step::Name(name),
        )),
    }
}

/// Checks that a value is an object that may have each of its members.
pub fn check_members<'a>(
    context: Context,
    known: Known<'_>,
    value: &Value<'a>,
) -> Result<(), Stop<'a>>
    ensures said { OnOk result (IsObjectOf (known_of known.entry) (value_view value.now)) }
    ensures refused { OnRefusal result (λ cause path. IsObjectFault (known_of known.entry)
        (value_view value.now) cause path ⊥) }
{
    let Some(members) = members_of(value) else {
        return Err(refused(context.alloc, BuildCause::WrongType));
    };
    match known.first_fault(members) {
        Some((name, cause)) => Err(within(refused(context.alloc, cause), Step::Name(name))),
        None => Ok(()),
    }
}
