//! Definitions of the module profile: worked messages, with their normal forms from outside, foreign trees, and BIT STRINGs in segments.
ghost use Rattle.std.specs.Prelude.{◌≡◌, List, [], ◌∷◌, ℕ, codes, true, false, Some, None};
ghost use Rattle.ber_tree.specs.declared.class.Class.{Class};
ghost use Rattle.ber_core.specs.Foreign.{is_foreign, foreign_levels};
ghost use Rattle.ber_tree.specs.Identifier.{Tag};
ghost use Rattle.ber_tree.specs.Tree.{Tree, constructed, depth, more, none, primitive};
ghost use Rattle.ber_leaf.specs.declared.fault.LeafFault.{LeafFault};
ghost use Rattle.ber_leaf.specs.Leaf.{bit_string};
ghost use Rattle.ber_leaf.specs.Profile.{profile_three};
ghost use Rattle.ber_leaf.specs.Segments.{segment_tag};
ghost use Rattle.ber_leaf.specs.Simple.{bits};
ghost use Rattle.ill_refusals.specs.Next.{due, segments};
ghost use Rattle.ill_schema.specs.Apdu.{choice_of};
ghost use Rattle.ill_schema.specs.Content.{foreign};
ghost use Rattle.ill_schema.specs.Normal.{normal_tree};
ghost use Rattle.ill_schema.specs.Tagging.{explicit, universal, untagged};
ghost use Rattle.ill_schema.specs.Worked.{hex};
ghost use Rattle.test_messages.specs.Module.{
  IsModuleForm,
  arbitrary,
  damaged,
  extended,
  joined,
  joined_fault,
  nested,
  nine_bits,
  octet_aligned,
  parts,
  proposed,
  returned,
  short_first,
  short_inside,
  supplied,
  twelve_bits,
};

use ill_schema::NodeId;

/// Messages of the module profile are spelled by their normal forms; one of them has the greatest depth.
fn worked_messages_of_the_module()
    ensures extension_with_sequence { IsModuleForm (extended (nested 1))
        (hex (codes
        "742d302b800102a10aa1031b0147a2031b0151a20ca00a80083230323430323239bf310b3009800101a20430020500")) }
    ensures external_octets { IsModuleForm (returned octet_aligned)
        (hex (codes
        "6a3f303d800102a10aa1031b0147a2031b0151a20ca00a80083230323430323239b113281106072a8648ce13050a81065831323334359f25083230323430323239")) }
    ensures external_bits { IsModuleForm (returned arbitrary)
        (hex (codes
        "6a353033800102a10aa1031b0147a2031b0151a20ca00a80083230323430323239b1092807020105820203f89f25083230323430323239")) }
    ensures damaged_whole { IsModuleForm damaged
        (hex (codes "70233021800102a10aa1031b0147a2031b0151a20ca00a80083230323430323239a5028100")) }
    ensures will_supply { IsModuleForm supplied
        (hex (codes
        "64443042800102a10aa1031b0147a2031b0151a20ca00a800832303234303232399f1f0105bf201ea51c301aa0030a011aa10a1a083230323430323239a2073005a4031b0143")) }
    ensures deepest_normal_form { IsModuleForm proposed
        (hex (codes
        "64653063800102a10aa1031b0147a2031b0151a20ca00a800832303234303232399f1f0101bf203fa13d303b80011ebf32353033a02d80012aa1283026302430223020301e301c301a30183016301430123010300e300c300a30083006300430020500a502a000")) }
    ensures depth { depth (normal_tree (choice_of proposed) NodeId.ModuleIllApdu untagged) ≡ 29 }
{}

/// A foreign tree has at most 20 levels, and in each element a tag with an identifier. Its normal tree is the tree itself.
fn foreign_trees_stay_as_they_are()
    ensures twenty_levels { is_foreign foreign_levels (nested 19) ≡ true }
    ensures twenty_one_levels { is_foreign foreign_levels (nested 20) ≡ false }
    ensures universal_0_constructed { is_foreign foreign_levels (constructed (universal 0) none)
        ≡ true }
    ensures universal_0_primitive { is_foreign foreign_levels (primitive (universal 0) []) ≡ false }
    ensures highest_tag { is_foreign foreign_levels
        (primitive (record { class = Class.Private; number = 268_435_455 }) []) ≡ true }
    ensures tag_too_high { is_foreign foreign_levels
        (primitive (record { class = Class.Private; number = 268_435_456 }) []) ≡ false }
    ensures stay { (tree : Tree) (tag : Tag)
        → normal_tree (foreign tree) NodeId.Any (explicit tag) ≡ constructed tag (more tree none) }
{}

/// The segments of a BIT STRING are BIT STRINGs; only the last one may have unused bits, at each level, and nothing follows it.
fn bits_in_segments_are_joined()
    ensures in_segments { joined twelve_bits ≡ bits 12 (0xA5 ∷ 0xF0 ∷ []) }
    ensures in_nested_segments { joined nine_bits ≡ bits 9 (0xA5 ∷ 0x80 ∷ []) }
    ensures no_segments { joined (parts none) ≡ bits 0 [] }
    ensures sound { (joined_fault twelve_bits ≡ None) × (joined_fault nine_bits ≡ None)
        × (joined_fault (parts none) ≡ None) }
    ensures short_first_segment { joined_fault short_first ≡ Some LeafFault.BadBits }
    ensures segment_after_short_one { joined_fault short_inside ≡ Some LeafFault.BadBits }
    ensures octet_segment { due profile_three (universal 4) (segments (segment_tag bit_string))
        ≡ None }
{}

#[test]
fn laws() {
    worked_messages_of_the_module();
    foreign_trees_stay_as_they_are();
    bits_in_segments_are_joined();
}
