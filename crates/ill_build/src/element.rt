//! The octets round the contents of an element.
ghost use Rattle.std.specs.Prelude.{◌≡◌, ◌∷◌, ◌++◌, [], IfOk, OnOk, length, true, false};
ghost use Rattle.ber_core.specs.Der.{encoding};
ghost use Rattle.ber_core.specs.Id.{tag_of_id, form_of_id};
ghost use Rattle.ber_tree.specs.Identifier.{HasIdentifier, identifier};
ghost use Rattle.ber_tree.specs.Tree.{primitive};
ghost use Rattle.ill_schema.specs.Elements.{tag_at};

use ber_core::{Class, Id};
use der_buffer::DerBuffer;
use std::alloc::AllocError;

/// The identifier of a tag and a form that have one.
pub fn identifier_of(tag: (Class, u32), constructed: bool) -> Id
    requires { HasIdentifier (tag_at tag) constructed }
    ensures { (tag_of_id result ≡ tag_at tag) × (form_of_id result ≡ constructed) }
{
    Id::new(tag.0, constructed, tag.1).unwrap()
}

/// Begins a constructed element, and returns how many octets come before its contents.
pub fn open(tag: (Class, u32), out: &mut DerBuffer) -> Result<usize, AllocError>
    requires { HasIdentifier (tag_at tag) true }
    ensures octets { OnOk result (out.new
        ≡ out.old ++ (identifier (tag_at tag) true ++ 0 ∷ [])) }
    ensures contents_start { IfOk result (λ contents_start. contents_start ≡ length out.new) }
{
    out.open(identifier_of(tag, true))
}

/// Appends a primitive element with these contents octets.
pub fn put_primitive(
    tag: (Class, u32),
    octets: &[u8],
    out: &mut DerBuffer,
) -> Result<(), AllocError>
    requires { HasIdentifier (tag_at tag) false }
    ensures { OnOk result (out.new ≡ out.old ++ encoding (primitive (tag_at tag) octets.now)) }
{
    out.primitive(identifier_of(tag, false), octets)
}
