//! Laws of each input. Each is the contract of a function that does nothing.
ghost use Rattle.std.specs.Prelude.{◌≡◌, ◌≢◌, ℕ, ◌≤◌, List, IsTrue};
ghost use Rattle.ber_tree.specs.Identifier.{Tag};
ghost use Rattle.ber_tree.specs.Tree.{Trees};
ghost use Rattle.ber_leaf.specs.Profile.{Profile, profile_two, profile_three};
ghost use Rattle.ill_tables.specs.declared.node.NodeId.{NodeId};
ghost use Rattle.ill_tables.specs.declared.part.Row.{Row};
ghost use Rattle.ill_tables.specs.declared.profile.Profile.{Profile as Named};
ghost use Rattle.ill_schema.specs.declared.refusal.Cause.{Cause};
ghost use Rattle.ill_schema.specs.Apdu.{Apdu, SpellsApdu};
ghost use Rattle.ill_schema.specs.Causes.{cause_number};
ghost use Rattle.ill_schema.specs.Lift.{is_plain_apdu};
ghost use Rattle.ill_schema.specs.Profiles.{profile_of};
ghost use Rattle.ill_schema.specs.Tagging.{tagging};
ghost use Rattle.ill_refusals.specs.Element.{Component, Element, components, starts};
ghost use Rattle.ill_refusals.specs.Next.{Next, due, missing, opening, next_after};
ghost use Rattle.ill_refusals.specs.Bounds.{ValuesAreSmall};
ghost use Rattle.ill_refusals.specs.Fault.{Fault, fault, Refuses};
ghost use Rattle.ill_refusals.specs.Retagged.{IsFirstRetagged};
ghost use Rattle.ill_refusals.specs.Outcome.{OnlyRefuses, OutcomesAreExact, RefusalsStay, PrefixesAreTruncated, TruncatedIsAtTheEnd, PlacesAreApart, FaultsAreLast, FewAreOpen, ComponentsAreShallow, ForeignTreesFit, CausesAreOfLeaves};

/// Each input is accepted as one APDU of one size, or refused with one fault.
pub fn one_outcome()
    ensures { (p : Profile) → OutcomesAreExact p }
{}

/// A refusal stays, unless the input ended too early; and a message cut short is refused as Truncated at its size.
pub fn refusals_stay()
    ensures stay { (p : Profile) → RefusalsStay p }
    ensures cut { (p : Profile) → PrefixesAreTruncated p }
{}

/// An input that is refused as Truncated is refused at its size.
pub fn truncated_at_the_end()
    ensures { (p : Profile) → TruncatedIsAtTheEnd p }
{}

/// An offset and a number of open elements say one place, and only the last place can have a fault.
pub fn one_place()
    ensures apart { (p : Profile) → PlacesAreApart p }
    ensures last { (p : Profile) → FaultsAreLast p }
{}

/// At each place of an input at most 32 elements are open. An element of a type of the tables is at most the twelfth. In a foreign tree the
/// bound of 32 is never reached: its levels and those around it are at most 29.
pub fn few_elements_are_open()
    ensures all { (p : Profile) → FewAreOpen p }
    ensures outside { (p : Profile) → ComponentsAreShallow p }
    ensures foreign { (p : Profile) → ForeignTreesFit p }
{}

/// The causes of refusals: in profile 2 those with the numbers 1 to 19; in the module profile all but LeftOut. A cause of the contents
/// of one leaf type alone is only of elements of that type.
pub fn causes_of_profiles()
    ensures two { (s : List ℕ) (f : Fault) → Refuses profile_two s f → cause_number f.cause ≤ 19 }
    ensures module { (s : List ℕ) (f : Fault) → Refuses profile_three s f
        → cause_number f.cause ≢ 8 }
    ensures leaves { (p : Profile) → CausesAreOfLeaves p }
{}

/// The texts of an APDU have at most as many octets as its encoding, and its lists and foreign trees together at most half as many
/// items and elements.
pub fn values_are_small()
    ensures { (p : Profile) → ValuesAreSmall p }
{}

/// Two profiles in which tags may be bare, or in which none may, have the same due at each place; so do all those that a program can
/// name.
pub fn due_by_bare_tags()
    ensures tags { (p q : Profile) → p.bare ≡ q.bare
        → (row : Row) → tagging p row ≡ tagging q row }
    ensures rows { (p q : Profile) → p.bare ≡ q.bare
        → (node : NodeId) → components p node ≡ components q node }
    ensures begins { (p q : Profile) → p.bare ≡ q.bare
        → (c : Component) → starts p c ≡ starts q c }
    ensures element { (p q : Profile) → p.bare ≡ q.bare
        → (t : Tag) (n : Next) → due p t n ≡ due q t n }
    ensures lacks { (p q : Profile) → p.bare ≡ q.bare
        → (n : Next) → missing p n ≡ missing q n }
    ensures opens { (p q : Profile) → p.bare ≡ q.bare
        → (e : Element) → opening p e ≡ opening q e }
    ensures later { (p q : Profile) → p.bare ≡ q.bare
        → (n : Next) (ts : Trees) → next_after p n ts ≡ next_after q n ts }
    ensures named { (p : Named) → (profile_of p).bare ≡ profile_two.bare }
{}

/// Octets that spell an APDU of profile 2 with a Units-Per-Medium or a Will-Supply are refused in the module profile as WrongForm, where
/// the first component of the first of them begins: its tag is implicit in profile 2, and explicit in the module.
pub fn the_module_refuses_other_tags()
    ensures { (a : Apdu) (octets : List ℕ) → SpellsApdu profile_two a octets
        → (IsTrue (is_plain_apdu a) → ⊥)
        → (k : ℕ) × IsFirstRetagged octets k
        × OnlyRefuses profile_three octets (fault Cause.WrongForm k) }
{}
