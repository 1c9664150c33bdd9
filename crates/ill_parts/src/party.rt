//! Parties to a transaction.
use crate::part::{
    Node, Part, Typed, alternative, chosen, entries, optional, optional_value, sequence,
};
use crate::part_of;
use ber_leaf::IllString;
use ill_schema::{NodeId, Value};
use std::alloc::{AllocError, Global};

/// The symbol by which a party is known (Symbol).
#[derive(Debug, Drop, PartialEq, Eq)]
pub enum Symbol {
    /// The symbol of a person (row 0).
    PersonSymbol(IllString),
    /// The symbol of an institution (row 1).
    InstitutionSymbol(IllString),
}

impl Node for Symbol {
    ghost use Rattle.ill_tables.specs.declared.node.NodeId.TheVariants.{Symbol as TheNode};

    ghost NODE = { TheNode };

    const NODE: NodeId = NodeId::Symbol;
}

#[tactic(auto, unfolding(crate::specs::Views::symbol))]
impl Part for Symbol {
    ghost use Rattle.ill_tables.specs.declared.node.NodeId.TheVariants.{Symbol as TheNode};
    ghost use Rattle.ill_parts.specs.Shape.{Is};
    ghost use Rattle.ill_parts.specs.Views.{symbol};

    ghost content = { symbol };

    ghost accepts = { Is TheNode };

    fn to_value(&self, alloc: Global) -> Result<Value, AllocError> {
        match self {
            Symbol::PersonSymbol(part) => alternative::<Self>(alloc, 0, part.to_value(alloc)?),
            Symbol::InstitutionSymbol(part) => alternative::<Self>(alloc, 1, part.to_value(alloc)?),
        }
    }

    fn read(alloc: Global, value: &Value) -> Result<Self, AllocError> {
        Ok(match chosen::<Self>(value) {
            (0, part) => Symbol::PersonSymbol(Part::read(alloc, part)?),
            (1, part) => Symbol::InstitutionSymbol(Part::read(alloc, part)?),
            _ => unreachable!(),
        })
    }
}

impl Typed for Symbol {
    ghost use Rattle.ill_parts.specs.code.Equality.{symbol_exact};

    ghost is_node = { λ _. (λ fits. fits, λ fits. fits) };

    ghost is_exact = { symbol_exact };
}

/// The name of a party (Name).
#[derive(Debug, Drop, PartialEq, Eq)]
pub enum Name {
    /// The name of a person (row 0).
    NameOfPerson(IllString),
    /// The name of an institution (row 1).
    NameOfInstitution(IllString),
}

impl Node for Name {
    ghost use Rattle.ill_tables.specs.declared.node.NodeId.TheVariants.{Name as TheNode};

    ghost NODE = { TheNode };

    const NODE: NodeId = NodeId::Name;
}

#[tactic(auto, unfolding(crate::specs::Views::name))]
impl Part for Name {
    ghost use Rattle.ill_tables.specs.declared.node.NodeId.TheVariants.{Name as TheNode};
    ghost use Rattle.ill_parts.specs.Shape.{Is};
    ghost use Rattle.ill_parts.specs.Views.{name};

    ghost content = { name };

    ghost accepts = { Is TheNode };

    fn to_value(&self, alloc: Global) -> Result<Value, AllocError> {
        match self {
            Name::NameOfPerson(part) => alternative::<Self>(alloc, 0, part.to_value(alloc)?),
            Name::NameOfInstitution(part) => alternative::<Self>(alloc, 1, part.to_value(alloc)?),
        }
    }

    fn read(alloc: Global, value: &Value) -> Result<Self, AllocError> {
        Ok(match chosen::<Self>(value) {
            (0, part) => Name::NameOfPerson(Part::read(alloc, part)?),
            (1, part) => Name::NameOfInstitution(Part::read(alloc, part)?),
            _ => unreachable!(),
        })
    }
}

impl Typed for Name {
    ghost use Rattle.ill_parts.specs.code.Equality.{name_exact};

    ghost is_node = { λ _. (λ fits. fits, λ fits. fits) };

    ghost is_exact = { name_exact };
}

/// A party to a transaction: a person or an institution, by symbol, by name or by both
/// (System-Id).
#[derive(Debug, Drop, PartialEq, Eq)]
pub struct SystemId {
    /// The symbol by which the party is known (row 0).
    pub person_or_institution_symbol: Option<Symbol>,
    /// The party's name (row 1).
    pub name_of_person_or_institution: Option<Name>,
}

impl Node for SystemId {
    ghost use Rattle.ill_tables.specs.declared.node.NodeId.TheVariants.{SystemId as TheNode};
    ghost use Rattle.ill_parts.specs.Views.{system_id_rows};

    ghost NODE = { TheNode };

    ghost entries = { system_id_rows };

    const NODE: NodeId = NodeId::SystemId;
}

#[tactic(auto, unfolding(crate::specs::Views::system_id))]
impl Part for SystemId {
    ghost use Rattle.ill_tables.specs.declared.node.NodeId.TheVariants.{SystemId as TheNode};
    ghost use Rattle.ill_parts.specs.Shape.{Is};
    ghost use Rattle.ill_parts.specs.Views.{system_id};

    ghost content = { system_id };

    ghost accepts = { Is TheNode };

    fn to_value(&self, alloc: Global) -> Result<Value, AllocError> {
        let entries = [
            optional_value(alloc, &self.person_or_institution_symbol),
            optional_value(alloc, &self.name_of_person_or_institution),
        ];
        sequence(alloc, self, entries)
    }

    fn read(alloc: Global, value: &Value) -> Result<Self, AllocError> {
        let entries = entries::<Self>(value);
        part_of!(SystemId {
            person_or_institution_symbol: optional(alloc, entries, 0),
            name_of_person_or_institution: optional(alloc, entries, 1),
        })
    }
}

impl Typed for SystemId {
    ghost use Rattle.ill_parts.specs.code.Equality.{system_id_exact};

    ghost is_node = { λ _. (λ fits. fits, λ fits. fits) };

    ghost is_exact = { system_id_exact };
}
