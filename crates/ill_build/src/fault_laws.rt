//! Laws of faults. Each is the contract of a function that does nothing.
ghost use Rattle.std.specs.Prelude.{ℕ, ◌≡◌, ◌≤◌, List, length};
ghost use Rattle.ber_leaf.specs.Profile.{Profile};
ghost use Rattle.ill_schema.specs.Apdu.{Apdu, normal_form_in};
ghost use Rattle.ill_schema.specs.Fits.{FitsApdu};
ghost use Rattle.ill_build.specs.declared.cause.BuildCause.{BuildCause};
ghost use Rattle.ill_build.specs.Line.{IsFaultyLine, SaysApdu, line_limit};
ghost use Rattle.ill_build.specs.Path.{Step};

/// A line that has a fault says no APDU, unless it is too long, or the APDU's normal form is.
pub fn a_faulty_line_says_nothing()
    ensures { (p : Profile) (line : List ℕ) (a : Apdu) (cause : BuildCause) (path : List Step)
        → IsFaultyLine p line cause path → SaysApdu p line a → FitsApdu p a
        → length line ≤ line_limit → length (normal_form_in p a) ≤ p.limit → ⊥ }
{}

/// A line has at most one fault: one cause at one place.
pub fn a_line_has_one_fault()
    ensures { (p : Profile) (line : List ℕ) (cause other : BuildCause) (path place : List Step)
        → IsFaultyLine p line cause path → IsFaultyLine p line other place
        → (cause ≡ other) × (path ≡ place) }
{}
