//! Items.
use crate::part::{Node, Part, Typed, entries, optional, optional_value, sequence};
use crate::part_of;
use ber_leaf::IllString;
use ill_schema::{NodeId, Value};
use std::alloc::{AllocError, Global};

/// The item that is asked for: a monograph, a serial or a part of one (Item-Id).
///
/// `national-bibliography-no` (row 17) and `system-no` (row 20) are left out.
#[derive(Debug, Drop, PartialEq, Eq)]
pub struct ItemId {
    /// The kind of item: 1 monograph, 2 serial, 3 other (row 0).
    pub item_type: Option<i64>,
    /// The medium in which it is held: 1 printed, 3 microform, 4 film or video, 5 audio, 6
    /// machine-readable, 7 other (row 1).
    pub held_medium_type: Option<i64>,
    /// The call number (row 2).
    pub call_number: Option<IllString>,
    /// The author (row 3).
    pub author: Option<IllString>,
    /// The title (row 4).
    pub title: Option<IllString>,
    /// The subtitle (row 5).
    pub sub_title: Option<IllString>,
    /// The body that sponsors it (row 6).
    pub sponsoring_body: Option<IllString>,
    /// The place of publication (row 7).
    pub place_of_publication: Option<IllString>,
    /// The publisher (row 8).
    pub publisher: Option<IllString>,
    /// The title of the series, and the number in it (row 9).
    pub series_title_number: Option<IllString>,
    /// The volume and issue (row 10).
    pub volume_issue: Option<IllString>,
    /// The edition (row 11).
    pub edition: Option<IllString>,
    /// The date of publication (row 12).
    pub publication_date: Option<IllString>,
    /// The date of publication of the part (row 13).
    pub publication_date_of_component: Option<IllString>,
    /// The author of the article (row 14).
    pub author_of_article: Option<IllString>,
    /// The title of the article (row 15).
    pub title_of_article: Option<IllString>,
    /// The pages (row 16).
    pub pagination: Option<IllString>,
    /// The ISBN (row 18).
    pub isbn: Option<IllString>,
    /// The ISSN (row 19).
    pub issn: Option<IllString>,
    /// Further numbers or letters that identify it (row 21).
    pub additional_no_letters: Option<IllString>,
    /// The source that verifies the description (row 22).
    pub verification_reference_source: Option<IllString>,
}

impl Node for ItemId {
    ghost use Rattle.ill_tables.specs.declared.node.NodeId.TheVariants.{ItemId as TheNode};
    ghost use Rattle.ill_parts.specs.Views.{item_id_rows};

    ghost NODE = { TheNode };

    ghost entries = { item_id_rows };

    const NODE: NodeId = NodeId::ItemId;
}

#[tactic(auto, unfolding(crate::specs::Views::item_id))]
impl Part for ItemId {
    ghost use Rattle.ill_tables.specs.declared.node.NodeId.TheVariants.{ItemId as TheNode};
    ghost use Rattle.ill_parts.specs.Shape.{Is};
    ghost use Rattle.ill_parts.specs.Views.{item_id};

    ghost content = { item_id };

    ghost accepts = { Is TheNode };

    fn to_value(&self, alloc: Global) -> Result<Value, AllocError> {
        let entries = [
            optional_value(alloc, &self.item_type),
            optional_value(alloc, &self.held_medium_type),
            optional_value(alloc, &self.call_number),
            optional_value(alloc, &self.author),
            optional_value(alloc, &self.title),
            optional_value(alloc, &self.sub_title),
            optional_value(alloc, &self.sponsoring_body),
            optional_value(alloc, &self.place_of_publication),
            optional_value(alloc, &self.publisher),
            optional_value(alloc, &self.series_title_number),
            optional_value(alloc, &self.volume_issue),
            optional_value(alloc, &self.edition),
            optional_value(alloc, &self.publication_date),
            optional_value(alloc, &self.publication_date_of_component),
            optional_value(alloc, &self.author_of_article),
            optional_value(alloc, &self.title_of_article),
            optional_value(alloc, &self.pagination),
            Ok(None),
            optional_value(alloc, &self.isbn),
            optional_value(alloc, &self.issn),
            Ok(None),
            optional_value(alloc, &self.additional_no_letters),
            optional_value(alloc, &self.verification_reference_source),
        ];
        sequence(alloc, self, entries)
    }

    fn read(alloc: Global, value: &Value) -> Result<Self, AllocError> {
        let entries = entries::<Self>(value);
        part_of!(ItemId {
            item_type: optional(alloc, entries, 0),
            held_medium_type: optional(alloc, entries, 1),
            call_number: optional(alloc, entries, 2),
            author: optional(alloc, entries, 3),
            title: optional(alloc, entries, 4),
            sub_title: optional(alloc, entries, 5),
            sponsoring_body: optional(alloc, entries, 6);
            place_of_publication: optional(alloc, entries, 7),
            publisher: optional(alloc, entries, 8),
            series_title_number: optional(alloc, entries, 9),
            volume_issue: optional(alloc, entries, 10),
            edition: optional(alloc, entries, 11),
            publication_date: optional(alloc, entries, 12),
            publication_date_of_component: optional(alloc, entries, 13);
            author_of_article: optional(alloc, entries, 14),
            title_of_article: optional(alloc, entries, 15),
            pagination: optional(alloc, entries, 16),
            isbn: optional(alloc, entries, 18),
            issn: optional(alloc, entries, 19),
            additional_no_letters: optional(alloc, entries, 21),
            verification_reference_source: optional(alloc, entries, 22),
        })
    }
}

impl Typed for ItemId {
    ghost use Rattle.ill_parts.specs.code.Equality.{item_id_exact};

    ghost is_node = { λ _. (λ fits. fits, λ fits. fits) };

    ghost is_exact = { item_id_exact };
}
