//! The types of leaves, and the values of their contents.
ghost use Rattle.std.specs.Prelude.{◌≡◌, ℕ, List, IsTrue};
ghost use Rattle.ber_tree.specs.Octets.{are_octets};
ghost use Rattle.ber_leaf.specs.Content.{IsContent};
ghost use Rattle.ber_leaf.specs.Leaf.{content_fault, is_string, value};
ghost use Rattle.ill_schema.specs.Profiles.{profile_of};
ghost use Rattle.ill_tables.specs.declared.profile.Profile.{Profile as Named};

use ber_leaf::{
    DateText, Flag, GeneralText, IllString, Leaf, LeafFault, Null, ObjectDescriptor,
    ObjectIdentifier, OctetString, PrintableText, TimeText, VisibleText, Whole,
};
use ill_schema::{Profile, Value};

/// Gives a node to a macro: one that is a leaf after `@leaf`, with its universal tag and its `ElementType`, another after `@sequence`.
macro_rules! leaf_or {
    ($with:ident Boolean) => { $with!(@leaf Boolean, BOOLEAN, Leaf(LeafType::Boolean)) };
    ($with:ident Integer) => { $with!(@leaf Integer, INTEGER, Leaf(LeafType::Integer)) };
    ($with:ident Enumerated) => { $with!(@leaf Enumerated, ENUMERATED, Leaf(LeafType::Enumerated)) };
    ($with:ident IsoDate) => { $with!(@leaf IsoDate, VISIBLE_STRING, Leaf(LeafType::Date)) };
    ($with:ident IsoTime) => { $with!(@leaf IsoTime, VISIBLE_STRING, Leaf(LeafType::Time)) };
    ($with:ident PrintableString) => {
        $with!(@leaf PrintableString, PRINTABLE_STRING, Leaf(LeafType::Printable))
    };
    ($with:ident Null) => { $with!(@leaf Null, NULL, ModuleLeaf(ModuleLeaf::Null)) };
    ($with:ident ObjectIdentifier) => {
        $with!(@leaf ObjectIdentifier, OBJECT_IDENTIFIER, ModuleLeaf(ModuleLeaf::ObjectIdentifier))
    };
    ($with:ident OctetString) => {
        $with!(@leaf OctetString, OCTET_STRING, ModuleLeaf(ModuleLeaf::OctetString))
    };
    ($with:ident BitString) => { $with!(@leaf BitString, BIT_STRING, BitString) };
    ($with:ident ObjectDescriptor) => {
        $with!(@leaf ObjectDescriptor, OBJECT_DESCRIPTOR, ModuleLeaf(ModuleLeaf::ObjectDescriptor))
    };
    ($with:ident $node:ident) => { $with!(@sequence $node) };
}

pub(crate) use leaf_or;

/// A type of leaf, with the two strings of an ILL-String apart.
#[derive(Clone, Copy, Debug, PartialEq, Eq)]
pub enum LeafType {
    Boolean,
    Integer,
    Enumerated,
    General,
    Visible,
    Printable,
    Date,
    Time,
}

/// A type of leaf that only rows of the module profile have, but for BIT STRING, whose segments are joined in another way.
#[derive(Clone, Copy, Debug, PartialEq, Eq)]
pub enum ModuleLeaf {
    Null,
    ObjectIdentifier,
    OctetString,
    ObjectDescriptor,
}

/// The kind of value that a leaf of the module profile holds, by which it is shown.
#[derive(Clone, Copy, Debug, PartialEq, Eq)]
pub enum ValueKind {
    Null,
    Identifier,
    Octets,
    Text,
}

impl LeafType {
    ghost use Rattle.ill_schema.specs.Content.{simple};
    ghost use Rattle.ill_schema.specs.Value.{content_of};
    ghost use Rattle.ill_grammar.specs.LeafTypes.{IsContentIn, leaf_is, type_name};
    ghost use Rattle.ill_grammar.specs.Written.{is_number};

    /// Tells whether it is a string, which may be spelled in segments (X.690, 8.23).
    #[inline(always)]
    pub fn is_string(self) -> bool
        ensures { result ≡ is_string (leaf_is self) }
    {
        match self {
            LeafType::Boolean | LeafType::Integer | LeafType::Enumerated => false,
            LeafType::General
            | LeafType::Visible
            | LeafType::Printable
            | LeafType::Date
            | LeafType::Time => true,
        }
    }

    /// The name of its type in ASN.1.
    pub fn name(self) -> &'static str
        ensures { result.now ≡ type_name (leaf_is self) }
    {
        match self {
            LeafType::Boolean => "BOOLEAN",
            LeafType::Integer => "INTEGER",
            LeafType::Enumerated => "ENUMERATED",
            LeafType::General => "GeneralString",
            LeafType::Visible | LeafType::Date | LeafType::Time => "VisibleString",
            LeafType::Printable => "PrintableString",
        }
    }

    /// The reason why the octets are no content of it in the profile, None exactly where they are.
    #[inline(always)]
    pub fn fault(self, profile: Profile, octets: &[u8]) -> Option<LeafFault>
        ensures fault { result ≡ content_fault (profile_of profile) (leaf_is self) octets.now }
        ensures octets { IsTrue (are_octets octets.now) }
    {
        self.check(profile, octets)
    }

    fn check(self, profile: Profile, octets: &[u8]) -> Option<LeafFault>
        ensures { result ≡ content_fault (profile_of profile) (leaf_is self) octets.now }
    {
        match self {
            LeafType::Boolean => Flag::check(octets),
            LeafType::Integer | LeafType::Enumerated => Whole::check(octets),
            LeafType::General => match profile {
                Profile::Two => GeneralText::check(octets),
                Profile::Module => None,
            },
            LeafType::Visible => VisibleText::check(octets),
            LeafType::Printable => PrintableText::check(octets),
            LeafType::Date => DateText::check(octets),
            LeafType::Time => TimeText::check(octets),
        }
    }

    /// Tells whether the octets hold the value that the number of a default stands for: of a BOOLEAN, 1 is TRUE. A string never does.
    #[inline(always)]
    pub fn is_number(self, number: i64, octets: &[u8]) -> bool
        requires { (p : Named) × IsContentIn p (leaf_is self) octets.now }
        ensures { result ≡ is_number (leaf_is self) number octets.now }
    {
        match self {
            LeafType::Boolean => Flag::read(octets) == (number == 1),
            LeafType::Integer => Whole::read(octets) == number,
            LeafType::Enumerated => Whole::read(octets) == number,
            LeafType::General
            | LeafType::Visible
            | LeafType::Printable
            | LeafType::Date
            | LeafType::Time => false,
        }
    }

    /// The value that the octets hold.
    pub fn value(self, octets: Vec<u8>) -> Value
        requires { IsContent (leaf_is self) octets.items }
        ensures { content_of result ≡ simple (value (leaf_is self) octets.items) }
    {
        match self {
            LeafType::Boolean => Value::Flag(Flag::of(octets)),
            LeafType::Integer => Value::Whole(Whole::of(octets)),
            LeafType::Enumerated => Value::Whole(Whole::of(octets)),
            LeafType::General => Value::Str(IllString::General(GeneralText::of(octets))),
            LeafType::Visible => Value::Str(IllString::Visible(VisibleText::of(octets))),
            LeafType::Printable => Value::Print(PrintableText::of(octets)),
            LeafType::Date => Value::Date(DateText::of(octets)),
            LeafType::Time => Value::Time(TimeText::of(octets)),
        }
    }
}

impl ModuleLeaf {
    ghost use Rattle.ill_grammar.specs.LeafTypes.{held_as, module_leaf_is, type_name};

    /// Tells whether it is a string, which may be spelled in segments (X.690, 8.7 and 8.25).
    #[inline(always)]
    pub fn is_string(self) -> bool
        ensures { result ≡ is_string (module_leaf_is self) }
    {
        match self {
            ModuleLeaf::Null | ModuleLeaf::ObjectIdentifier => false,
            ModuleLeaf::OctetString | ModuleLeaf::ObjectDescriptor => true,
        }
    }

    /// The name of its type in ASN.1.
    pub fn name(self) -> &'static str
        ensures { result.now ≡ type_name (module_leaf_is self) }
    {
        match self {
            ModuleLeaf::Null => "NULL",
            ModuleLeaf::ObjectIdentifier => "OBJECT IDENTIFIER",
            ModuleLeaf::OctetString => "OCTET STRING",
            ModuleLeaf::ObjectDescriptor => "ObjectDescriptor",
        }
    }

    /// The kind of value that its contents hold.
    pub fn value_kind(self) -> ValueKind
        ensures { (octets : List ℕ)
            → value (module_leaf_is self) octets ≡ held_as result octets }
    {
        match self {
            ModuleLeaf::Null => ValueKind::Null,
            ModuleLeaf::ObjectIdentifier => ValueKind::Identifier,
            ModuleLeaf::OctetString => ValueKind::Octets,
            ModuleLeaf::ObjectDescriptor => ValueKind::Text,
        }
    }

    /// The reason why the octets are no content of it, None exactly where they are.
    pub fn fault(self, octets: &[u8]) -> Option<LeafFault>
        ensures fault { (p : Named)
            → result ≡ content_fault (profile_of p) (module_leaf_is self) octets.now }
        ensures octets { IsTrue (are_octets octets.now) }
    {
        self.check(octets)
    }

    fn check(self, octets: &[u8]) -> Option<LeafFault>
        ensures { (p : Named) → result ≡ content_fault (profile_of p) (module_leaf_is self)
            octets.now }
    {
        match self {
            ModuleLeaf::Null => Null::check(octets),
            ModuleLeaf::ObjectIdentifier => ObjectIdentifier::check(octets),
            ModuleLeaf::OctetString => OctetString::check(octets),
            ModuleLeaf::ObjectDescriptor => ObjectDescriptor::check(octets),
        }
    }
}
