//! Laws of texts, by their definition. Each is the contract of a function that does nothing.
ghost use Rattle.std.specs.Prelude.{◌≡◌, ℕ};
ghost use Rattle.ber_leaf.specs.Profile.{profile_two, profile_three};
ghost use Rattle.ill_schema.specs.Apdu.{Apdu};
ghost use Rattle.ill_schema.specs.Fits.{FitsApdu};
ghost use Rattle.ill_schema.specs.Lift.{lift_apdu};
ghost use Rattle.ill_text.specs.Shown.{shown_text, shown_text_in};

/// An APDU of profile 2 has the same text as the APDU of the module profile that says the same.
pub fn lifted_texts_are_the_same()
    ensures { (i : ℕ) (a : Apdu) → FitsApdu profile_two a
        → shown_text_in profile_three i (lift_apdu a) ≡ shown_text i a }
{}
