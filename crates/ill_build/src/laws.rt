//! Laws of lines. Each is the contract of a function that does nothing.
ghost use Rattle.std.specs.Prelude.{◌≡◌, ℕ, ◌<◌, ◌≤◌, ◌^◌, List, Option, length};
ghost use Rattle.json.specs.Json.{Json};
ghost use Rattle.ber_core.specs.Der.{encoding};
ghost use Rattle.ber_leaf.specs.Profile.{Profile};
ghost use Rattle.ill_json.specs.Json.{json_line_in, line_json_in, value_json};
ghost use Rattle.ill_json.specs.declared.line.LineHead.{LineHead};
ghost use Rattle.ill_schema.specs.Apdu.{Apdu, normal_form_in};
ghost use Rattle.ill_schema.specs.Content.{Content};
ghost use Rattle.ill_schema.specs.Fits.{Fits, FitsApdu};
ghost use Rattle.ill_schema.specs.Normal.{normal_tree};
ghost use Rattle.ill_schema.specs.Profiles.{profile_of};
ghost use Rattle.ill_schema.specs.Tagging.{Tagging};
ghost use Rattle.ill_tables.specs.declared.node.NodeId.{NodeId};
ghost use Rattle.ill_tables.specs.declared.profile.Profile.{Profile as Named};
ghost use Rattle.ill_build.specs.Line.{SaysApdu, SaysLine};
ghost use Rattle.ill_build.specs.Said.{Says};
ghost use Rattle.ill_build.specs.Shown.{IsFileName, IsHead, IsSayable};

/// The JSON of a value that fits says the value, where a line can say it. It can, where the value's normal form has fewer than 2^59
/// octets.
pub fn shown_values_are_said()
    ensures said { (p : Profile) (row : List ℕ) (node : NodeId) (c : Content) → Fits p c node
        → IsSayable c → Says row node (value_json row node c) c }
    ensures sayable { (p : Profile) (c : Content) (node : NodeId) (g : Tagging)
        → length (encoding (normal_tree c node g)) < 2 ^ 59 → Fits p c node → IsSayable c }
{}

/// A value of JSON says at most one value of a type.
pub fn one_value_is_said()
    ensures { (p : Profile) (row : List ℕ) (node : NodeId) (j : Json) (c d : Content) → Fits p c node
        → Fits p d node → Says row node j c → Says row node j d → c ≡ d }
{}

/// A line says at most one APDU.
pub fn one_apdu_is_said()
    ensures { (p : Profile) (text : List ℕ) (a b : Apdu) → SaysApdu p text a → SaysApdu p text b
        → FitsApdu p a → FitsApdu p b → a ≡ b }
{}

/// The value of JSON that is the line of an APDU says the APDU, where a line can say it.
pub fn shown_lines_are_said()
    ensures { (p : Profile) (file : Option (List ℕ)) (head : LineHead) (a : Apdu) → FitsApdu p a
        → IsSayable a.body → SaysLine p (line_json_in p file head a) a }
{}

/// The line of an APDU that fits says the APDU, where its normal form is within the profile's limit.
pub fn what_is_shown_is_said()
    ensures { (profile : Named) (file : Option (List ℕ)) (head : LineHead) (a : Apdu)
        → IsFileName file → IsHead head → FitsApdu (profile_of profile) a
        → length (normal_form_in (profile_of profile) a) ≤ (profile_of profile).limit
        → SaysApdu (profile_of profile) (json_line_in (profile_of profile) file head a) a }
{}

/// Two APDUs with one line are one APDU, whatever heads and files the lines are of.
pub fn lines_are_one_to_one()
    ensures { (profile : Named) (f g : Option (List ℕ)) (h k : LineHead) (a b : Apdu)
        → IsFileName f → IsFileName g → IsHead h → IsHead k
        → FitsApdu (profile_of profile) a → FitsApdu (profile_of profile) b
        → length (normal_form_in (profile_of profile) a) ≤ (profile_of profile).limit
        → length (normal_form_in (profile_of profile) b) ≤ (profile_of profile).limit
        → json_line_in (profile_of profile) f h a ≡ json_line_in (profile_of profile) g k b
        → a ≡ b }
{}
