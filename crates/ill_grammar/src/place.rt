//! Places in a message, and the elements that are due there.
ghost use Rattle.std.specs.Prelude.{◌≡◌, ◌<◌, IsTrue, true, IfSome, MatchOption, None, Some, length, slice_get, is_some, option_map, [], pos};
ghost use Rattle.std.proofs.Props.{props};
ghost use Rattle.ber_core.specs.Id.{tag_of_id};
ghost use Rattle.ber_leaf.specs.Profile.{profile_two};
ghost use Rattle.ill_tables.specs.Table.{kind_of};
ghost use Rattle.ill_schema.specs.TableFacts.{is_of_two};
ghost use Rattle.ill_schema.specs.Tagging.{same_tag};
ghost use Rattle.ill_grammar.specs.Elements.{element_with};
ghost use Rattle.ill_grammar.specs.Cells.{cell_alternative, first_position, is_placed, is_two_cell, node_choice, part_at};
ghost use Rattle.ill_grammar.specs.code.Meant.{cell_choice, cell_opens, cell_starts, default_at, is_nested, node_starts, opens_in, row_there};
ghost use Rattle.ill_refusals.specs.Element.{components};
ghost use Rattle.ill_grammar.specs.code.Starts.{IsBegunBy};

mod due_elements;

use crate::cell::{Cell, ElementType, EntryRole};
use crate::cell_tables::{MESSAGE, MODULE_MESSAGE, NOWHERE, alternatives_of, cells_of, foreign_in};
use ber_core::Id;
pub use due_elements::DueElement;
use ill_schema::{Kind, NodeId, PartId, Profile, kind};

/// A place where an element may begin: a position in the cells of a node, at 0 in a wrapper round the node, from 1 on in the node
/// itself.
#[derive(Clone, Copy)]
pub struct Place {
    /// The cell of the node, or of the wrapper round it.
    parent: &'static Cell,
    // As wide as the reference: so nothing is left unused in what holds a place, and it is copied by whole words.
    position: usize,
    ghost few: { position < 28 },
}

/// An element that is due.
#[derive(Clone, Copy)]
pub struct Found {
    /// The place where it is due: the position of its row's cell.
    at: Place,
    /// The cell of its row.
    cell: &'static Cell,
    /// The cell that has its tag: that of its row, or of an alternative.
    tagged: &'static Cell,
    ghost opens: { IsTrue (opens_in tagged.now.element_type tagged.now.node) },
    ghost placed: { IsTrue (is_placed (kind_of at.parent.now.node) at.position cell.now.slot) },
    ghost there: { IsTrue (row_there cell.now.slot at.position (components profile_two at.parent.now.node)) },
    ghost default_is: { option_map pos cell.now.default ≡ default_at at.parent.now.node at.position cell.now.slot } by { Prim.hlevel props },
    ghost nested: { IsTrue (cell_opens cell.now) },
    ghost few: { at.position < 27 },
}

/// Tells whether the identifier is the cell's.
#[inline(always)]
fn has_tag(cell: &Cell, id: Id) -> bool
    ensures { result ≡ same_tag (record { class = cell.now.class; number = cell.now.number })
        (tag_of_id id) }
{
    id.number() == cell.number && id.class() == cell.class
}

/// The cell of what a node with alternatives, or of two types, is by the tag.
#[inline(always)]
fn nested_start(node: NodeId, id: Id) -> Option<&'static Cell>
    requires { is_nested (kind_of node) ≡ true }
    ensures begins { MatchOption result (element_with (tag_of_id id) (node_starts node) ≡ None)
        (λ tagged. IsBegunBy (tag_of_id id) (node_starts node) (node_choice node)
        (option_map (λ _. tagged.now.part.row) (node_choice node)) tagged.now) }
    ensures two { IsTrue (is_of_two node)
        → IfSome result (λ tagged. IsTrue (is_two_cell tagged.now)) }
{
    let cells = alternatives_of(node);
    for row in 0..cells.len() {
        let cell = cell_at(cells, row);
        if has_tag(cell, id) {
            return Some(cell);
        }
    }
    None
}

/// The number as that of an alternative, None where the node has two types instead.
#[inline(always)]
fn alternative_number(node: NodeId, number: u8) -> Option<u8>
    requires { is_nested (kind_of node) ≡ true }
    ensures { result ≡ option_map (λ _. number) (node_choice node) }
{
    match node {
        NodeId::IllString | NodeId::Any => None,
        _ => Some(number),
    }
}

/// The position where an element begins inside.
#[inline(always)]
fn first_position(element_type: ElementType) -> usize
    ensures { result ≡ first_position element_type }
{
    match element_type {
        ElementType::Wrapper | ElementType::LooseWrapper => 0,
        _ => 1,
    }
}

/// The cell at a position.
#[inline(always)]
fn cell_at(cells: &'static [Cell], position: usize) -> &'static Cell
    requires { position < length cells.now }
    ensures { slice_get cells.now position ≡ Some result.now }
{
    &cells[position]
}

/// The part that is due at a position.
fn part_at(at: Place, position: usize, slot: EntryRole) -> PartId
    requires { position < 28 }
    ensures { result ≡ part_at at.parent.now.part at.parent.now.node position slot }
{
    match slot {
        EntryRole::Row => PartId {
            node: at.parent.node,
            row: position.saturating_sub(1) as u8,
        },
        _ => at.parent.part,
    }
}

/// The cell of what begins by the tag at a cell.
#[inline(always)]
fn start(cell: &'static Cell, id: Id) -> Option<&'static Cell>
    requires { cell_opens cell.now ≡ true }
    ensures begins { MatchOption result (element_with (tag_of_id id) (cell_starts cell.now) ≡ None)
        (λ tagged. IsBegunBy (tag_of_id id) (cell_starts cell.now) (cell_choice cell.now)
        (cell_alternative cell.now tagged.now) tagged.now) }
    ensures two { IsTrue (is_two_cell cell.now)
        → IfSome result (λ tagged. IsTrue (is_two_cell tagged.now)) }
{
    if cell.nested {
        return nested_start(cell.node, id);
    }
    if has_tag(cell, id) {
        return Some(cell);
    }
    None
}

impl Place {
    ghost use Rattle.ill_refusals.specs.Next.{due, missing};
    ghost use Rattle.ill_refusals.specs.Place.{next_in};
    ghost use Rattle.ber_tree.specs.Identifier.{Tag};
    ghost use Rattle.ill_tables.specs.declared.node.Kind.{Kind};
    ghost use Rattle.ill_schema.specs.Profiles.{profile_of};
    ghost use Rattle.ill_grammar.specs.Places.{IsDueWithTag, is_two, next_at, node_at, nowhere, part_in, position_in, top, top_in, type_of, place_view};
    ghost use Rattle.ill_grammar.specs.declared.cell.ElementType.{ElementType};
    ghost use Rattle.ill_grammar.specs.code.ByTag.{due_by_tag};

    /// The place where a message begins.
    pub fn top() -> Place
        ensures place { place_view result ≡ top }
        ensures next { next_at result ≡ next_in profile_two [] }
    {
        Place {
            parent: &MESSAGE,
            position: 0,
        }
    }

    /// The place where a message of the profile begins.
    pub fn top_of(profile: Profile) -> Place
        ensures place { place_view result ≡ top_in (profile_of profile) }
        ensures next { next_at result ≡ next_in (profile_of profile) [] }
    {
        match profile {
            Profile::Two => Place::top(),
            Profile::Module => Place {
                parent: &MODULE_MESSAGE,
                position: 0,
            },
        }
    }

    /// The part that the wrapper round the node is.
    pub fn part(self) -> PartId
        ensures { result ≡ part_in self }
    {
        self.parent.part
    }

    /// The node that is open, or that is in the wrapper.
    pub fn node(self) -> NodeId
        ensures { result ≡ node_at self }
    {
        self.parent.node
    }

    /// The position in the cells of the node: 0 in the wrapper, from 1 on in the node itself.
    pub fn position(self) -> u8
        ensures { result ≡ position_in self }
    {
        self.position as u8
    }

    /// A place where nothing may come.
    fn nowhere() -> Place
        ensures { place_view result ≡ nowhere }
    {
        Place {
            parent: &NOWHERE,
            position: 2,
        }
    }

    /// The element that is due with the identifier's tag, None where nothing is.
    #[inline(always)]
    pub fn find(self, id: Id) -> Option<Found>
        ensures due { MatchOption result (due profile_two (tag_of_id id) (next_at self) ≡ None)
            (λ found. IsDueWithTag (tag_of_id id) self found) }
        ensures two { IsTrue (is_of_two (node_at self))
            → IfSome result (λ found. IsTrue (is_two found)) }
    {
        match self.find_tag(id) {
            Some(found) => Some(found),
            None => self.find_any(),
        }
    }

    /// The element that is due whatever its tag: one of a foreign tree.
    #[inline(always)]
    pub fn find_any(self) -> Option<Found>
        ensures due { (t : Tag) → due_by_tag t (next_at self) ≡ None
            → MatchOption result (due profile_two t (next_at self) ≡ None)
            (λ found. IsDueWithTag t self found) }
        ensures open { IfSome result (λ _. kind_of (node_at self) ≡ Kind.Any) }
        ensures foreign { IfSome result (λ found. type_of found ≡ ElementType.Foreign) }
    {
        let depth = match (kind(self.parent.node), self.position) {
            (Kind::Any, 0) => 0,
            (Kind::Any, 1) => self.parent.part.row.saturating_add(1),
            _ => return None,
        };
        let cell = foreign_in(depth)?;
        Some(Found {
            at: self,
            cell,
            tagged: cell,
        })
    }

    /// The element that is due because of the identifier's tag, None where nothing is.
    #[inline(always)]
    pub fn find_tag(self, id: Id) -> Option<Found>
        ensures due { MatchOption result (due_by_tag (tag_of_id id) (next_at self) ≡ None)
            (λ found. IsDueWithTag (tag_of_id id) self found) }
        ensures two { IsTrue (is_of_two (node_at self))
            → IfSome result (λ found. IsTrue (is_two found)) }
    {
        let cells = cells_of(self.parent.node);
        for position in self.position..cells.len() {
            let cell = cell_at(cells, position);
            if let Some(tagged) = start(cell, id) {
                return Some(Found {
                    at: Place {
                        parent: self.parent,
                        position,
                    },
                    cell,
                    tagged,
                });
            }
            if cell.is_mandatory {
                return None;
            }
        }
        None
    }

    /// The first mandatory part that is still to come.
    #[cold]
    pub fn missing(self) -> Option<PartId>
        ensures { result ≡ missing profile_two (next_at self) }
    {
        let cells = cells_of(self.parent.node);
        for position in self.position..cells.len() {
            let cell = cell_at(cells, position);
            if cell.is_mandatory {
                return Some(part_at(self, position, cell.slot));
            }
        }
        None
    }

    /// Tells whether something mandatory is still to come.
    #[inline(always)]
    pub fn is_missing(self) -> bool
        ensures { result ≡ is_some (missing profile_two (next_at self)) }
    {
        let cells = cells_of(self.parent.node);
        if cells.len() <= self.position {
            return false;
        }
        cell_at(cells, self.position).mandatory_follows
    }
}

/// A place where nothing may come: the filler of a fixed number of places.
impl Default for Place {
    fn default() -> Place {
        Place::nowhere()
    }
}

/// A filler for an unused place of a fixed number of places: a segment in a BOOLEAN, which is never found.
impl Default for Found {
    fn default() -> Found {
        Found {
            at: Place {
                parent: &NOWHERE,
                position: 1,
            },
            cell: &NOWHERE,
            tagged: &NOWHERE,
        }
    }
}

impl Found {
    ghost use Rattle.ill_refusals.specs.Next.{element_of, next_of, opening};
    ghost use Rattle.ill_grammar.specs.Places.{IsAtRow, alternative_of, due_of, first_place, next_at, node_of, parent_node, part_of, place_after, row_of, slot_of, type_of, place_view};
    ghost use Rattle.ill_grammar.specs.Cells.{default_due, element_in};

    /// The place in the element, once it is open.
    #[inline(always)]
    pub fn first(self) -> Place
        ensures place { place_view result ≡ first_place self }
        ensures next { next_at result ≡ opening profile_two (element_of (due_of self)) }
    {
        Place {
            parent: self.tagged,
            position: first_position(self.tagged.element_type),
        }
    }

    /// The place after the element.
    #[inline(always)]
    pub fn after(self) -> Place
        ensures place { place_view result ≡ place_after self (slot_of self) }
        ensures next { next_at result ≡ next_of (due_of self) }
    {
        match self.cell.slot {
            EntryRole::Row => Place {
                parent: self.at.parent,
                position: self.at.position + 1,
            },
            EntryRole::Inner | EntryRole::Root => Place::nowhere(),
            EntryRole::Item | EntryRole::Segment | EntryRole::Foreign => self.at,
        }
    }

    /// The element type.
    pub(crate) fn element_type(self) -> ElementType
        ensures element_type { result ≡ type_of self }
        ensures element { element_of (due_of self)
            ≡ element_in (part_of self) (node_of self) result }
    {
        self.tagged.element_type
    }

    /// The node that it is, or that is in the wrapper.
    pub fn node(self) -> NodeId
        ensures { result ≡ node_of self }
    {
        self.tagged.node
    }

    /// The row of the tables, or the alternative, that it is.
    pub fn part(self) -> PartId
        ensures { result ≡ part_of self }
    {
        self.tagged.part
    }

    /// The role in the element around it.
    pub fn slot(self) -> EntryRole
        ensures { result ≡ slot_of self }
    {
        self.cell.slot
    }

    /// The row of the sequence round it.
    pub fn row(self) -> u8
        requires { slot_of self ≡ EntryRole.Row }
        ensures row { result ≡ row_of self }
        ensures component { IsAtRow (parent_node self) result (due_of self) }
    {
        (self.at.position - 1) as u8
    }

    /// The alternative of the choice without a tag that it is.
    pub fn alternative(self) -> Option<u8>
        ensures { result ≡ alternative_of self }
    {
        if self.cell.nested {
            return alternative_number(self.cell.node, self.tagged.part.row);
        }
        None
    }

    /// The default of its row.
    pub fn default_value(self) -> Option<i64>
        ensures { result ≡ default_due (due_of self) }
    {
        match self.cell.default {
            Some(default) => Some(default as i64),
            None => None,
        }
    }
}
