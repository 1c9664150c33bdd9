//! The cells of each node: by what it may begin in a wrapper, and then what it may contain.
ghost use Rattle.std.specs.Prelude.{◌≡◌, ◌≤◌, ◌<◌, length, IsTrue, MatchOption};
ghost use Rattle.std.specs.List.{list_all};
ghost use Rattle.ill_tables.specs.Table.{kind_of};
ghost use Rattle.ill_schema.specs.TableFacts.{is_of_two};
ghost use Rattle.ill_grammar.specs.Cells.{is_two_cell};
ghost use Rattle.ill_grammar.specs.code.Meant.{all_open, cells_meant, foreign_cell, nested_starts, node_meant, starts_of_cells};

use crate::cell::{Cell, ElementType, EntryRole};
use crate::leaf_type::{LeafType, ModuleLeaf, leaf_or};
use ber_core::{Class, universal};
use ill_schema::{NodeId, PartId};
use ill_tables::{each_table, table};

/// A cell of a node by a universal tag, alone and optional: what other cells are made of.
macro_rules! plain {
    ($node:ident, $number:expr, $($element_type:tt)+) => {
        Cell {
            number: $number,
            class: Class::Universal,
            element_type: ElementType::$($element_type)+,
            part: PartId { node: NodeId::$node, row: 0 },
            node: NodeId::$node,
            slot: EntryRole::Inner,
            nested: false,
            is_mandatory: false,
            mandatory_follows: false,
            default: None,
        }
    };
}

/// A cell, as it stands in a row of a node.
macro_rules! placed {
    ($slot:ident, $parent:ident, $row:literal, $cell:expr) => {
        Cell {
            part: PartId { node: NodeId::$parent, row: $row },
            slot: EntryRole::$slot,
            ..$cell
        }
    };
}

/// A cell by the tag of a node's type, a SEQUENCE's where it isn't a leaf.
macro_rules! typed {
    (SendToList) => { typed!(@list SendToList) };
    (AlreadyTriedList) => { typed!(@list AlreadyTriedList) };
    (UnitsPerMediumList) => { typed!(@list UnitsPerMediumList) };
    (IllServiceTypes) => { typed!(@list IllServiceTypes) };
    (SupplyMediumInfos) => { typed!(@list SupplyMediumInfos) };
    (Locs) => { typed!(@list Locs) };
    (Externals) => { typed!(@list Externals) };
    (Extensions) => { typed!(@list Extensions) };
    (ElectronicDeliveries) => { typed!(@list ElectronicDeliveries) };
    (SpecificUnits) => { typed!(@list SpecificUnits) };
    (ModuleUnitsPerMediumList) => { typed!(@list ModuleUnitsPerMediumList) };
    (@list $node:ident) => { plain!($node, universal::SEQUENCE, List) };
    (@leaf $node:ident, $tag:ident, $($element_type:tt)+) => { plain!($node, universal::$tag, $($element_type)+) };
    (@sequence $node:ident) => { plain!($node, universal::SEQUENCE, Sequence) };
    ($node:ident) => { leaf_or!(typed $node) };
}

/// True for a node that is a choice in a sequence or list without a tag.
macro_rules! is_nested {
    (DeliveryService) => { true };
    (ShippedVia) => { true };
    (ModuleDeliveryService) => { true };
    (ModuleShippedVia) => { true };
    (Encoding) => { true };
    (TaggedExternal) => { true };
    (DamagedPortion) => { true };
    ($node:ident) => { false };
}

macro_rules! default {
    () => { None };
    ($default:literal) => { Some($default) };
}

/// A cell by the tag of a row.
macro_rules! tagged {
    ($class:ident, ($name:literal, $presence:ident $(($default:literal))?, untagged, $node:ident)) => {
        Cell { nested: is_nested!($node), default: default!($($default)?), ..typed!($node) }
    };
    ($class:ident, ($name:literal, LeftOut, $number:literal, $mode:ident, $node:ident)) => {
        Cell { class: Class::$class, ..plain!($node, $number, LeftOut) }
    };
    ($class:ident, ($name:literal, $presence:ident, $number:literal, Explicit, $node:ident)) => {
        Cell { class: Class::$class, ..plain!($node, $number, Wrapper) }
    };
    ($class:ident, ($name:literal, $presence:ident, $number:literal, ExplicitOrBare, $node:ident)) => {
        Cell { class: Class::$class, ..plain!($node, $number, LooseWrapper) }
    };
    ($class:ident, ($name:literal, $presence:ident $(($default:literal))?, $number:literal, Implicit, $node:ident)) => {
        Cell { number: $number, class: Class::$class, default: default!($($default)?), ..typed!($node) }
    };
}

/// The cell of a row of a sequence: whether it is mandatory, whether it or a later one is, its number, and the row.
macro_rules! row {
    ($class:ident $parent:ident ($is_mandatory:tt $mandatory_follows:tt $number:literal $row:tt)) => {
        Cell {
            part: PartId { node: NodeId::$parent, row: $number },
            slot: EntryRole::Row,
            is_mandatory: $is_mandatory,
            mandatory_follows: $mandatory_follows,
            ..tagged!($class, $row)
        }
    };
}

/// The cell of an alternative of a choice.
macro_rules! alternative {
    ($class:ident $parent:ident ($is_mandatory:tt $mandatory_follows:tt $number:literal $row:tt)) => {
        placed!(Row, $parent, $number, tagged!($class, $row))
    };
}

/// The cells of rows: each gets its number, and then, from the last on, whether it or a later one is mandatory.
macro_rules! cells_of_rows {
    (@number $made:tt $before:tt [$number:literal $numbers:tt] $row:tt $($rows:tt)*) => {
        cells_of_rows!(@number $made [$number $row $before] $numbers $($rows)*)
    };
    (@number $made:tt $rows:tt $numbers:tt) => {
        cells_of_rows!(@follow $made $rows false [])
    };
    (@follow $made:tt [$number:literal ($name:literal, Must, $($row:tt)*) $before:tt] $follows:tt [$($cell:tt)*]) => {
        cells_of_rows!(@follow $made $before true [(true true $number ($name, Must, $($row)*)) $($cell)*])
    };
    (@follow $made:tt [$number:literal $row:tt $before:tt] $follows:tt [$($cell:tt)*]) => {
        cells_of_rows!(@follow $made $before $follows [(false $follows $number $row) $($cell)*])
    };
    (@follow [alternative $class:ident $node:ident] [] $follows:tt [$($cell:tt)*]) => {
        &[$(alternative!($class $node $cell)),*]
    };
    (@follow [row $class:ident $node:ident strict] [] $follows:tt [$($cell:tt)*]) => {
        &[own!($node, true, true) $(, row!($class $node $cell))*]
    };
    (@follow [row $class:ident $node:ident] [] $follows:tt [$($cell:tt)*]) => {
        &[own!($node, false, $follows) $(, row!($class $node $cell))*]
    };
    ($made:tt $($row:tt)*) => {
        cells_of_rows!(
            @number $made []
            [0 [1 [2 [3 [4 [5 [6 [7 [8 [9 [10 [11 [12 [13 [14 [15 [16 [17 [18 [19 [20 [21 [22 [23 [24 [25 []]]]]]]]]]]]]]]]]]]]]]]]]]]
            $($row)*
        )
    };
}

/// The cell of a node by its own tag.
macro_rules! own {
    ($node:ident) => { own!($node, true, true) };
    ($node:ident, $is_mandatory:expr, $mandatory_follows:expr) => {
        Cell { is_mandatory: $is_mandatory, mandatory_follows: $mandatory_follows, ..typed!($node) }
    };
}

/// The cell of a node that begins by its alternatives.
macro_rules! nested {
    ($node:ident) => {
        Cell { nested: true, is_mandatory: true, mandatory_follows: true, ..plain!($node, 0, LeftOut) }
    };
}

/// The cell of one of the two strings of an ILL-String.
macro_rules! string {
    ($row:literal, $tag:ident, $leaf:ident) => {
        placed!(Row, IllString, $row, plain!(IllString, universal::$tag, Leaf(LeafType::$leaf)))
    };
}

/// The cell of a segment of a string.
macro_rules! segment {
    ($node:ident) => { segment!($node, universal::OCTET_STRING, Segment) };
    ($node:ident, $number:expr, $element_type:ident) => {
        Cell { slot: EntryRole::Segment, ..plain!($node, $number, $element_type) }
    };
}

/// The cells of a leaf.
macro_rules! leaf {
    (BitString) => { &[own!(BitString), segment!(BitString, universal::BIT_STRING, BitSegment)] };
    ($node:ident) => { &[own!($node), segment!($node)] };
}

/// The cells of a node that has a table, by its kind.
macro_rules! cells {
    (Choice $node:ident, $($rest:tt)*) => { &[nested!($node)] };
    (SeqOf $node:ident, $name:literal, $class:ident: $item:tt) => {
        &[
            own!($node),
            placed!(Item, $node, 0, tagged!($class, $item)),
        ]
    };
    // A sequence in an explicit tag that may not be bare
    (Seq PostalAddress, $($rest:tt)*) => { cells!(@ PostalAddress strict, $($rest)*) };
    (Seq ElectronicDelivery, $($rest:tt)*) => { cells!(@ ElectronicDelivery strict, $($rest)*) };
    (Seq $($rest:tt)*) => { cells!(@ $($rest)*) };
    (@ $node:ident $($strict:ident)?, $name:literal, $class:ident: $($row:tt),*) => {
        cells_of_rows!([row $class $node $($strict)?] $($row)*)
    };
}

/// The cells of the alternatives of a node that has a table: of a choice, one for each row.
macro_rules! alternatives {
    (Choice $node:ident, $name:literal, $class:ident: $($row:tt),*) => {
        cells_of_rows!([alternative $class $node] $($row)*)
    };
    ($kind:ident $($rest:tt)*) => { &[] };
}

/// The cells of a type that has a table, or of its twin in the module profile.
macro_rules! cells_of {
    ($node:ident) => { table!($node [two $node cells]) };
    ($node:ident / $twin:ident) => { table!($node [module $twin cells]) };
}

/// The cell of an element of a foreign tree, with this number of elements round it.
macro_rules! foreign {
    ($slot:ident, $depth:literal) => { placed!($slot, Any, $depth, plain!(Any, 0, Foreign)) };
}

/// The cells of the elements of a foreign tree, by the number of elements round each.
macro_rules! foreign_tree {
    (0 $($depth:literal)*) => { [foreign!(Root, 0) $(, foreign!(Foreign, $depth))*] };
}

/// The cell that a message begins by.
pub const MESSAGE: Cell = nested!(IllApdu);

/// The cell that a message of the module profile begins by.
pub const MODULE_MESSAGE: Cell = nested!(ModuleIllApdu);

/// A cell for the place where nothing may come.
pub const NOWHERE: Cell = segment!(Boolean);

/// The cells of the elements of a foreign tree, by the number of elements round each.
const FOREIGN: [Cell; 20] = foreign_tree!(0 1 2 3 4 5 6 7 8 9 10 11 12 13 14 15 16 17 18 19);

/// The cells of a node: first that of its own tag or type, then those of its components.
#[inline(always)]
pub fn cells_of(node: NodeId) -> &'static [Cell]
    ensures meant { cells_meant result.now ≡ node_meant node }
    ensures few { length result.now ≤ 27 }
    ensures two { IsTrue (is_of_two node) → IsTrue (list_all is_two_cell result.now) }
{
    match node {
        NodeId::Boolean => leaf!(Boolean),
        NodeId::Integer => leaf!(Integer),
        NodeId::Enumerated => leaf!(Enumerated),
        NodeId::IsoDate => leaf!(IsoDate),
        NodeId::IsoTime => leaf!(IsoTime),
        NodeId::PrintableString => leaf!(PrintableString),
        NodeId::Null => leaf!(Null),
        NodeId::ObjectIdentifier => leaf!(ObjectIdentifier),
        NodeId::OctetString => leaf!(OctetString),
        NodeId::BitString => leaf!(BitString),
        NodeId::ObjectDescriptor => leaf!(ObjectDescriptor),
        NodeId::IllString => &[nested!(IllString), segment!(IllString)],
        NodeId::Any => &[nested!(Any)],
        NodeId::LeftOut => cells!(Seq LeftOut, "", Context:),
        NodeId::Symbol => cells_of!(Symbol),
        NodeId::Name => cells_of!(Name),
        NodeId::SystemId => cells_of!(SystemId),
        NodeId::TransactionId => cells_of!(TransactionId),
        NodeId::DateTime => cells_of!(DateTime),
        NodeId::ServiceDateTime => cells_of!(ServiceDateTime),
        NodeId::PostalAddress => cells_of!(PostalAddress),
        NodeId::SystemAddress => cells_of!(SystemAddress),
        NodeId::DeliveryAddress => cells_of!(DeliveryAddress),
        NodeId::ClientId => cells_of!(ClientId),
        NodeId::DeliveryService => cells_of!(DeliveryService),
        NodeId::ModuleDeliveryService => cells_of!(DeliveryService / ModuleDeliveryService),
        NodeId::RequesterOptionalMessages => cells_of!(RequesterOptionalMessages),
        NodeId::ResponderOptionalMessages => cells_of!(ResponderOptionalMessages),
        NodeId::SearchType => cells_of!(SearchType),
        NodeId::SupplyMediumInfo => cells_of!(SupplyMediumInfo),
        NodeId::ItemId => cells_of!(ItemId),
        NodeId::ModuleItemId => cells_of!(ItemId / ModuleItemId),
        NodeId::Amount => cells_of!(Amount),
        NodeId::CostInfo => cells_of!(CostInfo),
        NodeId::SendTo => cells_of!(SendTo),
        NodeId::SendToList => cells_of!(SendToList),
        NodeId::AlreadyTriedList => cells_of!(AlreadyTriedList),
        NodeId::ThirdPartyInfo => cells_of!(ThirdPartyInfo),
        NodeId::UnitsPerMedium => cells_of!(UnitsPerMedium),
        NodeId::ModuleUnitsPerMedium => cells_of!(UnitsPerMedium / ModuleUnitsPerMedium),
        NodeId::UnitsPerMediumList => cells_of!(UnitsPerMediumList),
        NodeId::ModuleUnitsPerMediumList => cells_of!(
            UnitsPerMediumList / ModuleUnitsPerMediumList
        ),
        NodeId::DateDue => cells_of!(DateDue),
        NodeId::ShippedVia => cells_of!(ShippedVia),
        NodeId::ModuleShippedVia => cells_of!(ShippedVia / ModuleShippedVia),
        NodeId::SupplyDetails => cells_of!(SupplyDetails),
        NodeId::ModuleSupplyDetails => cells_of!(SupplyDetails / ModuleSupplyDetails),
        NodeId::IllServiceTypes => cells_of!(IllServiceTypes),
        NodeId::SupplyMediumInfos => cells_of!(SupplyMediumInfos),
        NodeId::IllRequest => cells_of!(IllRequest),
        NodeId::ModuleIllRequest => cells_of!(IllRequest / ModuleIllRequest),
        NodeId::Shipped => cells_of!(Shipped),
        NodeId::ModuleShipped => cells_of!(Shipped / ModuleShipped),
        NodeId::LocationInfo => cells_of!(LocationInfo),
        NodeId::Locs => cells_of!(Locs),
        NodeId::Conditional => cells_of!(Conditional),
        NodeId::ModuleConditional => cells_of!(Conditional / ModuleConditional),
        NodeId::Retry => cells_of!(Retry),
        NodeId::Unfilled => cells_of!(Unfilled),
        NodeId::Locations => cells_of!(Locations),
        NodeId::WillSupply => cells_of!(WillSupply),
        NodeId::ModuleWillSupply => cells_of!(WillSupply / ModuleWillSupply),
        NodeId::HoldPlaced => cells_of!(HoldPlaced),
        NodeId::Estimate => cells_of!(Estimate),
        NodeId::Results => cells_of!(Results),
        NodeId::ModuleResults => cells_of!(Results / ModuleResults),
        NodeId::IllAnswer => cells_of!(IllAnswer),
        NodeId::ModuleIllAnswer => cells_of!(IllAnswer / ModuleIllAnswer),
        NodeId::ConditionalReply => cells_of!(ConditionalReply),
        NodeId::ModuleConditionalReply => cells_of!(ConditionalReply / ModuleConditionalReply),
        NodeId::Cancel => cells_of!(Cancel),
        NodeId::ModuleCancel => cells_of!(Cancel / ModuleCancel),
        NodeId::CancelReply => cells_of!(CancelReply),
        NodeId::ModuleCancelReply => cells_of!(CancelReply / ModuleCancelReply),
        NodeId::Received => cells_of!(Received),
        NodeId::ModuleReceived => cells_of!(Received / ModuleReceived),
        NodeId::Recall => cells_of!(Recall),
        NodeId::ModuleRecall => cells_of!(Recall / ModuleRecall),
        NodeId::Returned => cells_of!(Returned),
        NodeId::ModuleReturned => cells_of!(Returned / ModuleReturned),
        NodeId::CheckedIn => cells_of!(CheckedIn),
        NodeId::ModuleCheckedIn => cells_of!(CheckedIn / ModuleCheckedIn),
        NodeId::Overdue => cells_of!(Overdue),
        NodeId::ModuleOverdue => cells_of!(Overdue / ModuleOverdue),
        NodeId::Renew => cells_of!(Renew),
        NodeId::ModuleRenew => cells_of!(Renew / ModuleRenew),
        NodeId::RenewAnswer => cells_of!(RenewAnswer),
        NodeId::ModuleRenewAnswer => cells_of!(RenewAnswer / ModuleRenewAnswer),
        NodeId::Lost => cells_of!(Lost),
        NodeId::ModuleLost => cells_of!(Lost / ModuleLost),
        NodeId::Damaged => cells_of!(Damaged),
        NodeId::ModuleDamaged => cells_of!(Damaged / ModuleDamaged),
        NodeId::MessageApdu => cells_of!(MessageApdu),
        NodeId::ModuleMessageApdu => cells_of!(MessageApdu / ModuleMessageApdu),
        NodeId::StatusQuery => cells_of!(StatusQuery),
        NodeId::ModuleStatusQuery => cells_of!(StatusQuery / ModuleStatusQuery),
        NodeId::Expired => cells_of!(Expired),
        NodeId::ModuleExpired => cells_of!(Expired / ModuleExpired),
        NodeId::IllApdu => cells_of!(IllApdu),
        NodeId::ModuleIllApdu => cells_of!(IllApdu / ModuleIllApdu),
        NodeId::Encoding => cells_of!(Encoding),
        NodeId::External => cells_of!(External),
        NodeId::TaggedExternal => cells_of!(TaggedExternal),
        NodeId::Externals => cells_of!(Externals),
        NodeId::Extension => cells_of!(Extension),
        NodeId::Extensions => cells_of!(Extensions),
        NodeId::EDeliveryService => cells_of!(EDeliveryService),
        NodeId::DocumentType => cells_of!(DocumentType),
        NodeId::EDeliveryDetails => cells_of!(EDeliveryDetails),
        NodeId::ElectronicDelivery => cells_of!(ElectronicDelivery),
        NodeId::ElectronicDeliveries => cells_of!(ElectronicDeliveries),
        NodeId::SpecificUnits => cells_of!(SpecificUnits),
        NodeId::DamagedPortion => cells_of!(DamagedPortion),
        NodeId::DamagedDetails => cells_of!(DamagedDetails),
        NodeId::HistoryReport => cells_of!(HistoryReport),
        NodeId::StatusReport => cells_of!(StatusReport),
        NodeId::AlreadyForwarded => cells_of!(AlreadyForwarded),
        NodeId::UserErrorReport => cells_of!(UserErrorReport),
        NodeId::StateTransition => cells_of!(StateTransition),
        NodeId::ProviderErrorReport => cells_of!(ProviderErrorReport),
        NodeId::ErrorReport => cells_of!(ErrorReport),
        NodeId::ForwardNotification => cells_of!(ForwardNotification),
        NodeId::StatusOrErrorReport => cells_of!(StatusOrErrorReport),
    }
}

/// The cells by which a node begins that has alternatives, or two types.
#[inline(always)]
pub fn alternatives_of(node: NodeId) -> &'static [Cell]
    ensures meant { starts_of_cells result.now ≡ nested_starts (kind_of node) node }
    ensures open { IsTrue (all_open 0 result.now) }
    ensures few { length result.now ≤ 20 }
    ensures two { IsTrue (is_of_two node) → IsTrue (list_all is_two_cell result.now) }
{
    each_table! {
        node,
        alternatives,
        NodeId::IllString => &[
            string!(0, GENERAL_STRING, General),
            string!(1, VISIBLE_STRING, Visible),
        ],
        _ => &[],
    }
}

/// The cell of an element of a foreign tree with this number of elements round it, None where the tree would have too many levels.
#[cold]
pub fn foreign_in(depth: u8) -> Option<&'static Cell>
    ensures { MatchOption result (20 ≤ depth)
        (λ cell. (depth < 20) × (cell.now ≡ foreign_cell depth)) }
{
    let cells: &'static [Cell] = &FOREIGN;
    cells.get(depth as usize)
}
