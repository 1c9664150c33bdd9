//! Laws of the definitions alone. Each is the contract of a function that does nothing.
ghost use Rattle.std.specs.Prelude.{◌≡◌, ℕ, ◌<◌, ◌≤◌, ◌^◌, List, [], ◌++◌, length, codes, IsTrue};
ghost use Rattle.ber_tree.specs.Tree.{Tree, Spells, depth};
ghost use Rattle.ber_leaf.specs.Profile.{Profile, profile_one, profile_two, profile_three};
ghost use Rattle.ill_tables.specs.declared.profile.Profile.TheVariants.{Two, Module};
ghost use Rattle.ill_schema.specs.Profiles.{profile_of};
ghost use Rattle.ill_schema.specs.Content.{Content};
ghost use Rattle.ill_schema.specs.Tagging.{Tagging, untagged};
ghost use Rattle.ill_schema.specs.TableFacts.{are_of_two, deepest, has_different_tags, is_of_two, names_below, stand};
ghost use Rattle.ill_tables.specs.Table.{rows_of, twin};
ghost use Rattle.ill_schema.specs.Meaning.{Means};
ghost use Rattle.ill_schema.specs.Fits.{Fits, FitsApdu};
ghost use Rattle.ill_schema.specs.Normal.{normal_tree};
ghost use Rattle.ill_schema.specs.Apdu.{Accepts, Apdu, choice_of, root, Encodes, SpellsApdu, MeansApdu, normal_form, normal_form_in};
ghost use Rattle.ill_schema.specs.Lift.{is_plain_apdu, lift_apdu};
ghost use Rattle.ill_schema.specs.Worked.{hex, expired, request, answer, estimate, unfilled, retry, IsNormalForm};

use ill_tables::NodeId;

/// In each sequence and choice the tags of all rows are different, and each row names a node of a lower level. The rows of profile
/// 2's nodes name nodes of profile 2: no open type, and none of the types that the module alone has. Each of them that isn't left
/// out stands in the table of its node's twin.
pub fn tables_are_well_formed()
    ensures tags { (p : Profile) (node : NodeId) → IsTrue (has_different_tags p node) }
    ensures below { (node : NodeId) → IsTrue (names_below node) }
    ensures two { (node : NodeId) → IsTrue (is_of_two node) → IsTrue (are_of_two (rows_of node)) }
    ensures twins { (node : NodeId)
        → rows_of (twin node) ≡ stand (rows_of node) (rows_of (twin node)) }
{}

/// A tree means at most one value as the type of a node, and at most one APDU.
pub fn one_value()
    ensures value { (p : Profile) (v w : Content) (node : NodeId) (t : Tree)
        → Means p v node untagged t → Means p w node untagged t → v ≡ w }
    ensures apdu { (p : Profile) (a b : Apdu) (t : Tree) → MeansApdu p a t → MeansApdu p b t
        → a ≡ b }
{}

/// A value that octets mean at a node fits the node, and so does an APDU.
pub fn what_is_meant_fits()
    ensures value { (p : Profile) (v : Content) (node : NodeId) (g : Tagging) (t : Tree)
        → Means p v node g t → Fits p v node }
    ensures apdu { (p : Profile) (a : Apdu) (t : Tree) → MeansApdu p a t → FitsApdu p a }
{}

/// Octets spell at most one APDU, and no spelling is a proper prefix of another.
pub fn one_meaning()
    ensures apdu { (p : Profile) (a b : Apdu) (octets : List ℕ) → SpellsApdu p a octets
        → SpellsApdu p b octets → a ≡ b }
    ensures prefix { (p : Profile) (a b : Apdu) (octets more : List ℕ) → SpellsApdu p a octets
        → SpellsApdu p b (octets ++ more) → more ≡ [] }
{}

/// The normal tree of a value that fits means it; the normal tree of an APDU has depth 11 at most, and 29 in the module profile.
pub fn normal_tree_means_the_value()
    ensures value { (p : Profile) (v : Content) (node : NodeId) (g : Tagging) → Fits p v node
        → Means p v node g (normal_tree v node g) }
    ensures depth { (p : Profile) (a : Apdu) → FitsApdu p a
        → depth (normal_tree (choice_of a) (root p) untagged) ≤ deepest p.full }
{}

/// The normal form of an APDU spells it, where it is within a profile's limit that a length can say (X.690, 10.1).
pub fn normal_form_is_a_spelling()
    ensures { (p : Profile) (a : Apdu) → p.limit < 256 ^ 126 → FitsApdu p a
        → length (normal_form_in p a) ≤ p.limit → SpellsApdu p a (normal_form_in p a) }
{}

/// Two APDUs with one normal form are one APDU, where a length can say their sizes.
pub fn normal_form_is_one_to_one()
    ensures { (p : Profile) (a b : Apdu) → FitsApdu p a → FitsApdu p b
        → length (normal_form_in p a) < 256 ^ 126 → length (normal_form_in p b) < 256 ^ 126
        → normal_form_in p a ≡ normal_form_in p b → a ≡ b }
{}

/// A normal form is no longer than a spelling of up to 65,535 octets, where wrappers aren't bare: an indefinite form costs
/// three octets there, and a shortest definite length three at most.
pub fn normal_form_is_no_longer()
    ensures { (limit : ℕ) (a : Apdu) (octets : List ℕ) → Encodes (profile_one limit) a octets
        → length octets ≤ 65_535 → length (normal_form a) ≤ length octets }
{}

/// Octets that spell an APDU in profile 1, with either of its limits, spell the same APDU in profile 2; its normal form doesn't depend on
/// the profile. (Within 65,535 octets the size of the normal form is no condition of its own.)
pub fn profile_two_extends_profile_one()
    ensures small { (a : Apdu) (octets : List ℕ) → Encodes (profile_one 65_535) a octets
        → SpellsApdu profile_two a octets }
    ensures large { (a : Apdu) (octets : List ℕ) → SpellsApdu (profile_one 1_048_576) a octets
        → SpellsApdu profile_two a octets }
{}

/// Octets that spell an APDU in profile 2 spell it in the module profile, too, and have the same normal form there, where the APDU has
/// no Units-Per-Medium and no Will-Supply, the tags of which are explicit in the module alone. As a value of the module profile
/// each APDU fits, and is of one APDU alone.
pub fn the_module_reads_profile_two()
    ensures spelling { (a : Apdu) (octets : List ℕ) → IsTrue (is_plain_apdu a)
        → SpellsApdu profile_two a octets → SpellsApdu profile_three (lift_apdu a) octets }
    ensures normal { (a : Apdu) → IsTrue (is_plain_apdu a) → FitsApdu profile_two a
        → normal_form_in profile_three (lift_apdu a) ≡ normal_form a }
    ensures fits { (a : Apdu) → FitsApdu profile_two a → FitsApdu profile_three (lift_apdu a) }
    ensures one { (a b : Apdu) → FitsApdu profile_two a → FitsApdu profile_two b
        → lift_apdu a ≡ lift_apdu b → a ≡ b }
{}

/// Octets spell one APDU in both profiles, and none with a Units-Per-Medium or a Will-Supply. Where some of the first
/// octets spell an APDU in profile 2 and some in the module profile, they are the same octets.
pub fn no_octets_change_their_meaning()
    ensures apdu { (a b : Apdu) (octets : List ℕ) → SpellsApdu profile_two a octets
        → SpellsApdu profile_three b octets → b ≡ lift_apdu a }
    ensures plain { (a b : Apdu) (octets : List ℕ) → SpellsApdu profile_two a octets
        → SpellsApdu profile_three b octets → IsTrue (is_plain_apdu a) }
    ensures prefix { (a b : Apdu) (m n : ℕ) (octets : List ℕ) → Accepts profile_two octets a m
        → Accepts profile_three octets b n → m ≡ n }
{}

/// The profiles that a program can name are profile 2 and the module profile.
pub fn named_profiles()
    ensures two { profile_of Two ≡ profile_two }
    ensures module { profile_of Module ≡ profile_three }
{}

/// Worked messages. An Expired, an ILL-Request and three ILL-Answers are spelled by their normal forms, one of them of the greatest
/// depth; the Expired also by indefinite lengths and without its inner SEQUENCE, and an answer with its result without that.
pub fn worked_messages()
    ensures expired { IsNormalForm expired
        (hex (codes "741f301d800102a10aa1031b0147a2031b0151a20ca00a80083230323430323239")) }
    ensures size { length (normal_form expired) ≡ 33 }
    ensures indefinite { SpellsApdu profile_two expired
        (hex (codes
        "74803080800102a180a1801b01470000a2801b015100000000a280a080800832303234303232390000000000000000")) }
    ensures bare { SpellsApdu profile_two expired
        (hex (codes "741d800102a10aa1031b0147a2031b0151a20ca00a80083230323430323239")) }
    ensures request { IsNormalForm request
        (hex (codes
        "61343032800102a10aa1031b0147a2031b0151a20ca00a80083230323430323239a9030a0101ab0c800100810100820101830101b000")) }
    ensures estimate { IsNormalForm (answer 7 estimate)
        (hex (codes
        "64333031800102a10aa1031b0147a2031b0151a20ca00a800832303234303232399f1f0107bf200da70b3009a0071b0531322e3530")) }
    ensures unfilled { IsNormalForm (answer 3 unfilled)
        (hex (codes
        "643a3038800102a10aa1031b0147a2031b0151a20ca00a800832303234303232399f1f0103bf2014a3123010800101a10b3009a007a005a1031b014c")) }
    ensures depth { depth (normal_tree (choice_of (answer 3 unfilled)) NodeId.IllApdu untagged)
        ≡ 11 }
    ensures bare_retry { SpellsApdu profile_two (answer 2 retry)
        (hex (codes
        "64283026800102a10aa1031b0147a2031b0151a20ca00a800832303234303232399f1f0102bf2002a200")) }
    ensures retry { IsNormalForm (answer 2 retry)
        (hex (codes
        "642a3028800102a10aa1031b0147a2031b0151a20ca00a800832303234303232399f1f0102bf2004a2023000")) }
{}
