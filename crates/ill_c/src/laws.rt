//! Laws of the calls for C. Each is the contract of a function that does nothing.
ghost use Rattle.std.specs.Prelude.{ℕ, ◌≤◌, List, false, length};
ghost use Rattle.ber_leaf.specs.Profile.{Profile};
ghost use Rattle.ill_schema.specs.Apdu.{Apdu};
ghost use Rattle.ill_schema.specs.Causes.{cause_clause, cause_name};
ghost use Rattle.ill_schema.specs.Names.{cause_part_name_of};
ghost use Rattle.ill_schema.specs.declared.refusal.Cause.{Cause};
ghost use Rattle.ill_c.specs.Builds.{BuildsIn, NamesBuildCause};
ghost use Rattle.ill_c.specs.Calls.{WritesIn, ChecksIn, ComparesIn, FindsIn, WritesFrontIn, DumpsIn, Frames, SaysOfCause, Puts};
ghost use Rattle.ill_c.specs.Memory.{Change};
ghost use Rattle.ill_c.specs.OneResult.{WritesOnce, ChecksOnce, ComparesOnce, FindsOnce, WritesFrontOnce, DumpsOnce, FramesOnce, SaysOfCauseOnce, PutsOnce, BuildsOnce, NamesBuildCauseOnce};
ghost use Rattle.ill_c.specs.Refusals.{part_text};
ghost use Rattle.ill_c.specs.Status.{ReturnsStatus};

use crate::refusal::IllcanonRefusal;

/// The contract of each call leaves one result in each profile, unless memory runs out: so a body that returns or writes anything else
/// doesn't meet it. What is written (`make`) is a normal form, a text, a line of JSON or a digest. Of the text of a dump nothing is said.
pub fn calls_have_one_result()
    ensures writes { (p : Profile) (make : Apdu → List ℕ) (s : List ℕ) (buffer : Change (List ℕ))
        (size : Change ℕ) (refusal : Change IllcanonRefusal) (n : ℕ)
        → ReturnsStatus n (WritesIn p make s buffer size refusal)
        → WritesOnce p make s buffer size refusal n }
    ensures checks { (p : Profile) (s : List ℕ) (normal : Change ℕ)
        (refusal : Change IllcanonRefusal) (n : ℕ)
        → ReturnsStatus n (ChecksIn p s normal refusal) → ChecksOnce p s normal refusal n }
    ensures compares { (p : Profile) (s t : List ℕ) (same : Change ℕ)
        (refusal : Change IllcanonRefusal) (n : ℕ)
        → ReturnsStatus n (ComparesIn p s t same refusal) → ComparesOnce p s t same refusal n }
    ensures finds { (p : Profile) (s : List ℕ) (size : Change ℕ)
        (refusal : Change IllcanonRefusal) (n : ℕ)
        → ReturnsStatus n (FindsIn p s size refusal) → FindsOnce p s size refusal n }
    ensures writes_front { (p : Profile) (s : List ℕ) (read : Change ℕ)
        (buffer : Change (List ℕ)) (size : Change ℕ) (refusal : Change IllcanonRefusal) (n : ℕ)
        → ReturnsStatus n (WritesFrontIn p s read buffer size refusal)
        → WritesFrontOnce p s read buffer size refusal n }
    ensures dumps { (p : Profile) (s : List ℕ) (buffer : Change (List ℕ)) (size : Change ℕ)
        (refusal : Change IllcanonRefusal) (n : ℕ)
        → ReturnsStatus n (DumpsIn p s buffer size refusal) → DumpsOnce p s buffer size refusal n }
    ensures frames { (s : List ℕ) (size : Change ℕ) (n : ℕ)
        → ReturnsStatus n (Frames s size) → FramesOnce s size n }
    ensures names_cause { (number : ℕ) (buffer : Change (List ℕ)) (size : Change ℕ) (n : ℕ)
        → ReturnsStatus n (SaysOfCause cause_name number buffer size)
        → SaysOfCauseOnce cause_name number buffer size n }
    ensures gives_clause { (number : ℕ) (buffer : Change (List ℕ)) (size : Change ℕ) (n : ℕ)
        → ReturnsStatus n (SaysOfCause cause_clause number buffer size)
        → SaysOfCauseOnce cause_clause number buffer size n }
    ensures puts { (octets : List ℕ) (buffer : Change (List ℕ)) (size : Change ℕ) (n : ℕ)
        → ReturnsStatus n (Puts octets buffer size) → PutsOnce octets buffer size n }
    ensures builds { (p : Profile) (line : List ℕ) (buffer : Change (List ℕ)) (size cause : Change ℕ)
        (n : ℕ) → ReturnsStatus n (BuildsIn false p line buffer size cause)
        → BuildsOnce p line buffer size cause n }
    ensures names_build_cause { (number : ℕ) (buffer : Change (List ℕ)) (size : Change ℕ) (n : ℕ)
        → ReturnsStatus n (NamesBuildCause number buffer size)
        → NamesBuildCauseOnce number buffer size n }
{}

/// The name of a part has at most 63 octets, so a zero follows it in the 64 of a refusal.
pub fn parts_are_short()
    ensures { (cause : Cause) → length (part_text (cause_part_name_of cause)) ≤ 63 }
{}
