//! Laws of the definitions alone.
ghost use Rattle.std.specs.Prelude.{◌≡◌, Some};
ghost use Rattle.ill_schema.specs.Apdu.{Apdu, normal_form};
ghost use Rattle.ill_schema.specs.Names.{apdu_node_of};
ghost use Rattle.ill_schema.specs.Sizes.{node_form};
ghost use Rattle.ill_tables.specs.declared.node.NodeId.{NodeId};

/// The size that `ill_schema::normal_size` counts at the node of an APDU's body is that of the normal form of the
/// APDU, which [`Sizes::total`](crate::Sizes::total) returns.
pub fn normal_size_counts_normal_forms()
    ensures { (a : Apdu) (node : NodeId) → apdu_node_of a.number ≡ Some node
        → node_form a.body node ≡ normal_form a }
{}
