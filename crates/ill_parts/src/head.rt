//! The rows that each APDU begins with.
ghost use Rattle.std.specs.Prelude.{◌≡◌, ◌++◌, IfOk, OnOk, [], Some, drop, option_map};
ghost use Rattle.ill_tables.specs.declared.node.Kind.{Kind};
ghost use Rattle.ill_tables.specs.declared.node.NodeId.TheVariants.{Integer, TransactionId as TransactionNode, ServiceDateTime as TimeNode, SystemId as SystemNode};
ghost use Rattle.ill_tables.specs.Table.{kind_of, rows_of};
ghost use Rattle.ill_schema.specs.Value.{content_of};
ghost use Rattle.ill_parts.specs.Shape.{Is, Must, May, AreBuilt, AreReady, RowsHold, entries_seen, entry_at, head_rows, number_content, other_rows, record_of};
ghost use Rattle.ill_parts.specs.Views.{headed, transaction_id, service_date_time, system_id};

use crate::part::{Node, optional, optional_value, push_all, required, required_value};
use crate::part_of;
use crate::party::SystemId;
use crate::transaction::{ServiceDateTime, TransactionId};
use ill_schema::Value;
use std::alloc::{AllocError, Global};

/// The head of each APDU: its first five rows.
#[derive(Debug, Drop, PartialEq, Eq)]
pub struct Head {
    /// The version of the protocol: 1 or 2 (row 0).
    pub protocol_version_num: i64,
    /// The transaction that the message belongs to (row 1).
    pub transaction_id: TransactionId,
    /// The time when the service was invoked (row 2).
    pub service_date_time: ServiceDateTime,
    /// The party that asks (row 3).
    pub requester_id: Option<SystemId>,
    /// The party that is asked (row 4).
    pub responder_id: Option<SystemId>,
}

/// The head of an APDU, read from its first entries.
///
/// Call it last: an error after it has to drop all its fields, which costs code and proof.
pub fn read_head(alloc: Global, entries: &[Option<Value>]) -> Result<Head, AllocError>
    requires version { Must (Is Integer) (entry_at entries.now 0) }
    requires transaction { Must (Is TransactionNode) (entry_at entries.now 1) }
    requires time { Must (Is TimeNode) (entry_at entries.now 2) }
    requires requester { May (Is SystemNode) (entry_at entries.now 3) }
    requires responder { May (Is SystemNode) (entry_at entries.now 4) }
    ensures version { IfOk result (λ h. Some (number_content h.protocol_version_num) ≡ entry_at
        entries.now 0) }
    ensures transaction { IfOk result (λ h. Some (transaction_id h.transaction_id) ≡ entry_at
        entries.now 1) }
    ensures time { IfOk result (λ h. Some (service_date_time h.service_date_time) ≡ entry_at
        entries.now 2) }
    ensures requester { IfOk result (λ h. option_map system_id h.requester_id ≡ entry_at entries.now
        3) }
    ensures responder { IfOk result (λ h. option_map system_id h.responder_id ≡ entry_at entries.now
        4) }
{
    part_of!(Head {
        protocol_version_num: required(alloc, entries, 0),
        transaction_id: required(alloc, entries, 1),
        service_date_time: required(alloc, entries, 2),
        requester_id: optional(alloc, entries, 3),
        responder_id: optional(alloc, entries, 4),
    })
}

/// Pushes the entries of the first five rows of an APDU.
fn push_head(alloc: Global, head: &Head, entries: &mut Vec<Option<Value>>) -> Result<(), AllocError>
    requires { entries.old.items ≡ [] }
    ensures built { OnOk result (entries_seen entries.new.items ≡ headed head.now []) }
    ensures ready { OnOk result (RowsHold head_rows (entries_seen entries.new.items)) }
{
    entries.push(required_value(alloc, &head.protocol_version_num)?)?;
    entries.push(required_value(alloc, &head.transaction_id)?)?;
    entries.push(required_value(alloc, &head.service_date_time)?)?;
    entries.push(optional_value(alloc, &head.requester_id)?)?;
    entries.push(optional_value(alloc, &head.responder_id)?)?;
    Ok(())
}

/// The value of an APDU, from what it begins with and the entries of its other rows.
///
/// # Errors
///
/// [`AllocError`], where memory is refused, also for one of the entries.
pub fn headed<T: Node, const N: usize>(
    alloc: Global,
    part: &T,
    head: &Head,
    others: [Result<Option<Value>, AllocError>; N],
) -> Result<Value, AllocError>
    requires kind { kind_of T.NODE ≡ Kind.Seq }
    requires rows { rows_of T.NODE ≡ head_rows ++ other_rows T.NODE }
    requires entries { T.entries part.now ≡ headed head.now (drop 5 (T.entries part.now)) }
    requires ready { AreReady (other_rows T.NODE) others }
    requires built { AreBuilt others (drop 5 (T.entries part.now)) }
    ensures value { IfOk result (λ v. content_of v ≡ record_of (T.entries part.now)) }
    ensures fits { IfOk result (λ v. Is T.NODE (content_of v)) }
{
    let _ = part;
    let others = Vec::from_array(alloc, others)?;
    let mut entries = Vec::with_capacity(alloc, others.len().saturating_add(5))?;
    push_head(alloc, head, &mut entries)?;
    push_all(&mut entries, others)?;
    Ok(Value::Seq(entries))
}
