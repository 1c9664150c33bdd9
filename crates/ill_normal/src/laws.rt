//! Laws of normal forms. Each is the contract of a function that does nothing.
ghost use Rattle.std.specs.Prelude.{◌≡◌, ◌↔◌, ℕ, List, length};
ghost use Rattle.ber_leaf.specs.Profile.{Profile, profile_two};
ghost use Rattle.ill_schema.specs.Apdu.{Apdu, SpellsApdu, Accepts, normal_form, normal_form_in};
ghost use Rattle.ill_schema.specs.Profiles.{profile_of};
ghost use Rattle.ill_tables.specs.declared.profile.Profile.{Profile as Named};
ghost use Rattle.ill_read.specs.Answers.{RefusesWhole, RefusesWholeIn};
ghost use Rattle.ill_refusals.specs.Fault.{Fault};

/// Two messages have equal normal forms, octet for octet, exactly if they spell the same APDU: in profile 2, and in each profile.
pub fn normal_forms_are_equal_exactly_if_apdus_are()
    ensures two { (a b : Apdu) (x y : List ℕ) → SpellsApdu profile_two a x
        → SpellsApdu profile_two b y → (normal_form a ≡ normal_form b) ↔ (a ≡ b) }
    ensures each { (q : Named) (a b : Apdu) (x y : List ℕ) → SpellsApdu (profile_of q) a x
        → SpellsApdu (profile_of q) b y
        → (normal_form_in (profile_of q) a ≡ normal_form_in (profile_of q) b) ↔ (a ≡ b) }
{}

/// A normal form spells the same APDU, all of it: in profile 2, and in each profile.
pub fn normal_form_is_accepted()
    ensures two { (a : Apdu) (x : List ℕ) → SpellsApdu profile_two a x
        → Accepts profile_two (normal_form a) a (length (normal_form a)) }
    ensures each { (q : Named) (a : Apdu) (x : List ℕ) → SpellsApdu (profile_of q) a x
        → Accepts (profile_of q) (normal_form_in (profile_of q) a) a
        (length (normal_form_in (profile_of q) a)) }
{}

/// A normal form is the normal form of what it spells: in profile 2, and in each profile.
pub fn normal_form_is_its_own()
    ensures two { (a b : Apdu) (x : List ℕ) → SpellsApdu profile_two a x
        → SpellsApdu profile_two b (normal_form a) → normal_form b ≡ normal_form a }
    ensures each { (q : Named) (a b : Apdu) (x : List ℕ) → SpellsApdu (profile_of q) a x
        → SpellsApdu (profile_of q) b (normal_form_in (profile_of q) a)
        → normal_form_in (profile_of q) b ≡ normal_form_in (profile_of q) a }
{}

/// An input is accepted as one APDU, with one prefix: in profile 2, and in each profile.
pub fn one_prefix_is_accepted()
    ensures two { (s : List ℕ) (a b : Apdu) (m n : ℕ) → Accepts profile_two s a m
        → Accepts profile_two s b n → (a ≡ b) × (m ≡ n) }
    ensures each { (p : Profile) (s : List ℕ) (a b : Apdu) (m n : ℕ) → Accepts p s a m
        → Accepts p s b n → (a ≡ b) × (m ≡ n) }
{}

/// Octets that are to be one message are refused in one way, and only where they spell none: in profile 2, and in each profile.
pub fn one_refusal_of_a_slice()
    ensures once { (s : List ℕ) (f g : Fault) → RefusesWhole s f → RefusesWhole s g → f ≡ g }
    ensures no_spelling { (s : List ℕ) (f : Fault) (a : Apdu) → RefusesWhole s f
        → SpellsApdu profile_two a s → ⊥ }
    ensures each_once { (p : Profile) (s : List ℕ) (f g : Fault) → RefusesWholeIn p s f
        → RefusesWholeIn p s g → f ≡ g }
    ensures each_no_spelling { (p : Profile) (s : List ℕ) (f : Fault) (a : Apdu)
        → RefusesWholeIn p s f → SpellsApdu p a s → ⊥ }
{}
