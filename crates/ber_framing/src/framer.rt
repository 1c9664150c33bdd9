ghost use Rattle.std.specs.Prelude.{◌↔◌, ◌*◌, ◌^◌, ◌<◌, ◌≤◌, IsTrue};

/// The greatest length that is framed, in octets.
const MAX_LENGTH: u32 = 4_294_967_294;

/// The framing of octets: whether they are an element, a part of one, or neither.
#[derive(Clone, Copy, Debug, PartialEq, Eq)]
pub enum Framing {
    /// The first octets of a framed element. More are needed.
    Part,
    /// One framed element.
    Whole,
    /// The first octets of no framed element: where an element ends that begins with them can't be known.
    Unframed,
}

/// Finds the end of the element that octets begin with, by its identifiers and lengths alone (X.690, 8.1.2 and 8.1.3). It is fed an octet
/// or a slice at a time, and holds a few numbers, however long and deep the element is.
///
/// An element of definite length ends where its length says, whatever its contents are. One of the indefinite form ends with its end mark,
/// and the elements in it are framed in the same way, however deep. A tag number may have any number of octets. The end can't be known where
/// the first octet of an identifier is 00, where a length octet is FF, or 80 in a primitive element, where only one octet of an end mark is
/// 00, and of lengths from 4,294,967,295 octets on; nor where more than 18,446,744,073,709,551,615 elements of the indefinite form are open.
///
/// # Examples
///
/// ```
/// let mut framer = Framer::new();
/// let count = framer.feed(&[0x30, 0x80, 0x05, 0x00, 0x00, 0x00, 0x30]);
/// // Now `count` is 6, and `framer.framing()` is `Framing::Whole`.
/// ```
#[derive(Clone, Copy, Debug)]
pub struct Framer {
    stage: Stage,
    // The number of end marks that are to come: one for each element of the indefinite form that is open.
    marks: u64,
}

/// The octet that is next.
#[derive(Clone, Copy, Debug)]
enum Stage {
    /// The first octet of an identifier.
    Identifier,
    /// The first octet of an identifier or an end mark. Nothing, where no element is open.
    BetweenElements,
    /// An octet of a tag number, of an element that is constructed or not.
    Number(bool),
    /// The first octet of a length, of an element that is constructed or not.
    Length(bool),
    LongLength(LongLength),
    Contents(Contents),
    /// The second octet of an end mark.
    EndOfContents,
    /// Nothing: the end can't be known. After a length that is too great, the number of its octets that are still to come.
    Unframed(u8),
}

/// Further octets of a length, and what those before say.
#[derive(Clone, Copy, Debug)]
struct LongLength {
    missing_len: u8,
    value: u32,
    ghost some: { 0 < missing_len },
    ghost fits: { value * 256 ^ missing_len ≤ 4_294_967_294 },
}

/// Octets of an element of definite length.
#[derive(Clone, Copy, Debug)]
struct Contents {
    missing_len: u32,
    ghost some: { 0 < missing_len },
}

impl Framer {
    ghost use Rattle.std.specs.Prelude.{◌≡◌, ℕ, ◌-◌, List, [], ◌∷◌, ◌++◌, length, take};
    ghost use Rattle.ber_framing.specs.Framed.{IsFrame, IsPartOfFrame, IsUnframed};
    ghost use Rattle.ber_framing.specs.Framer.{IsFed, HasFraming, Finishes, Closes, IsElementThen, IsContentsThen, IsLongThen, IsLengthThen, IsNumberThen, IsMarkThen};

    /// A framer that was fed nothing.
    pub fn new() -> Framer
        ensures { IsFed result [] }
    {
        Framer {
            stage: Stage::Identifier,
            marks: 0,
        }
    }

    /// The framing of the octets that it was fed.
    pub fn framing(&self) -> Framing
        ensures { (b : List ℕ) → IsFed self.now b → HasFraming b result }
    {
        match self.stage {
            Stage::Unframed(_) => Framing::Unframed,
            Stage::BetweenElements => {
                if self.marks == 0 {
                    Framing::Whole
                } else {
                    Framing::Part
                }
            }
            _ => Framing::Part,
        }
    }

    /// The least number of octets that still belong to the element, whatever they are: 0 where it is whole or its end can't be known.
    pub fn missing_len(&self) -> u32
        ensures at_least { (b rest : List ℕ) → IsFed self.now b → IsFrame (b ++ rest)
            → result ≤ length rest }
        ensures some { (b : List ℕ) → IsFed self.now b → IsPartOfFrame b → 0 < result }
        // Any fewer octets leave it part of an element.
        ensures any { (b octets : List ℕ) → IsFed self.now b → length octets < result
            → IsPartOfFrame (b ++ octets) }
    {
        match self.stage {
            Stage::Unframed(_) => 0,
            Stage::BetweenElements => { if self.marks == 0 { 0 } else { 1 } }
            Stage::Contents(contents) => contents.missing_len,
            _ => 1,
        }
    }

    /// The number of octets still to come of a length that is too large to be framed; 0 in every other case.
    pub fn oversized_length_rest(&self) -> u8
        ensures { (b : List ℕ) → IsFed self.now b → (IsUnframed b → ⊥) → result ≡ 0 }
    {
        match self.stage {
            Stage::Unframed(missing_len) => missing_len,
            _ => 0,
        }
    }

    /// Takes one octet more.
    pub fn push(&mut self, octet: u8)
        ensures { (b : List ℕ) → IsFed self.old b → IsFed self.new (b ++ octet ∷ []) }
    {
        *self = self.after(octet);
    }

    /// Takes octets up to the end of the element, or up to where it can't be known, and returns how many they are.
    pub fn feed(&mut self, octets: &[u8]) -> usize
        ensures count { result ≤ length octets.now }
        ensures fed { (b : List ℕ) → IsFed self.old b
            → IsFed self.new (b ++ take result octets.now) }
        // It takes an octet only after part of an element, and all octets of a part.
        ensures within { (b : List ℕ) (n : ℕ) → IsFed self.old b → n < result
            → IsPartOfFrame (b ++ take n octets.now) }
        ensures all { (b : List ℕ) → IsFed self.new b → IsPartOfFrame b → result ≡ length octets.now }
    {
        let mut count = 0;
        while count < octets.len() && self.missing_len() > 0 {
            count += self.step(&octets[count..]);
        }
        count
    }

    /// Takes the first octet, or as many as there are of some contents, and returns how many they are.
    fn step(&mut self, octets: &[u8]) -> usize
        requires { 0 < length octets.now }
        ensures some { 0 < result }
        ensures count { result ≤ length octets.now }
        ensures fed { (b : List ℕ) → IsFed self.old b
            → IsFed self.new (b ++ take result octets.now) }
        ensures within { (b : List ℕ) (n : ℕ) → IsFed self.old b → IsPartOfFrame b → n < result
            → IsPartOfFrame (b ++ take n octets.now) }
    {
        let Stage::Contents(contents) = self.stage else {
            self.push(octets[0]);
            return 1;
        };
        let count = octets.len().min(contents.missing_len as usize);
        *self = self.contents(contents.missing_len - count as u32);
        count
    }

    /// The framer after one octet more.
    fn after(self, octet: u8) -> Framer
        ensures { (x : List ℕ) → Finishes self (octet ∷ x) ↔ Finishes result x }
    {
        match self.stage {
            Stage::Identifier => self.after_leading_octet(octet),
            Stage::BetweenElements => self.after_between(octet),
            Stage::Number(constructed) => self.after_number(constructed, octet),
            Stage::Length(constructed) => self.after_length(constructed, octet),
            Stage::LongLength(long) => self.after_long(long, octet),
            Stage::Contents(contents) => self.contents(contents.missing_len - 1),
            Stage::EndOfContents => self.after_mark(octet),
            Stage::Unframed(_) => self,
        }
    }

    /// At another stage.
    fn at(self, stage: Stage) -> Framer
        ensures { result ≡ record { stage = stage; marks = self.marks } }
    {
        Framer {
            stage,
            marks: self.marks,
        }
    }

    /// Before contents of `missing_len` octets.
    fn contents(self, missing_len: u32) -> Framer
        ensures { (x : List ℕ) → IsContentsThen missing_len self.marks
            (18_446_744_073_709_551_615 - self.marks) x ↔ Finishes result x }
    {
        if missing_len == 0 {
            self.at(Stage::BetweenElements)
        } else {
            self.at(Stage::Contents(Contents { missing_len }))
        }
    }

    /// After the first octet of an element.
    fn after_leading_octet(self, octet: u8) -> Framer
        ensures { (x : List ℕ) → IsElementThen self.marks (18_446_744_073_709_551_615 - self.marks)
            (octet ∷ x) ↔ Finishes result x }
    {
        let constructed = octet / 32 % 2 == 1;
        if octet == 0 {
            self.at(Stage::Unframed(0))
        } else if octet % 32 == 31 {
            self.at(Stage::Number(constructed))
        } else {
            self.at(Stage::Length(constructed))
        }
    }

    /// After the first octet of an element or an end mark.
    fn after_between(self, octet: u8) -> Framer
        ensures { (x : List ℕ) → Closes self.marks (18_446_744_073_709_551_615 - self.marks)
            (octet ∷ x) ↔ Finishes result x }
    {
        if self.marks == 0 {
            self.at(Stage::Unframed(0))
        } else if octet == 0 {
            Framer {
                stage: Stage::EndOfContents,
                marks: self.marks - 1,
            }
        } else {
            self.after_leading_octet(octet)
        }
    }

    fn after_number(self, constructed: bool, octet: u8) -> Framer
        ensures { (x : List ℕ) → IsNumberThen constructed self.marks
            (18_446_744_073_709_551_615 - self.marks) (octet ∷ x) ↔ Finishes result x }
    {
        if octet < 128 {
            self.at(Stage::Length(constructed))
        } else {
            self.at(Stage::Number(constructed))
        }
    }

    /// After the first octet of a length.
    fn after_length(self, constructed: bool, octet: u8) -> Framer
        ensures { (x : List ℕ) → IsLengthThen constructed self.marks
            (18_446_744_073_709_551_615 - self.marks) (octet ∷ x) ↔ Finishes result x }
    {
        match octet {
            0..=127 => self.contents(u32::from(octet)),
            128 if constructed && self.marks < u64::MAX => Framer {
                stage: Stage::BetweenElements,
                marks: self.marks + 1,
            },
            128 | 255 => self.at(Stage::Unframed(0)),
            _ => self.at(Stage::LongLength(LongLength {
                missing_len: octet - 128,
                value: 0,
            })),
        }
    }

    /// After one octet more of a length.
    fn after_long(self, long: LongLength, octet: u8) -> Framer
        ensures { (x : List ℕ) → IsLongThen long.missing_len long.value self.marks
            (18_446_744_073_709_551_615 - self.marks) (octet ∷ x) ↔ Finishes result x }
    {
        let missing_len = long.missing_len - 1;
        let value = long.value * 256 + u32::from(octet);
        if !fits(value, missing_len) {
            self.at(Stage::Unframed(missing_len))
        } else if missing_len == 0 {
            self.contents(value)
        } else {
            self.at(Stage::LongLength(LongLength { missing_len, value }))
        }
    }

    /// After the second octet of an end mark.
    fn after_mark(self, octet: u8) -> Framer
        ensures { (x : List ℕ) → IsMarkThen self.marks (18_446_744_073_709_551_615 - self.marks)
            (octet ∷ x) ↔ Finishes result x }
    {
        if octet == 0 {
            self.at(Stage::BetweenElements)
        } else {
            self.at(Stage::Unframed(0))
        }
    }
}

/// Tells whether an element is framed by a length whose first octets say `value`, if each of the `missing_len` octets after them is 00.
fn fits(value: u32, missing_len: u8) -> bool
    ensures { IsTrue result ↔ (value * 256 ^ missing_len ≤ 4_294_967_294) }
{
    match missing_len {
        0 => value <= MAX_LENGTH,
        1 => value < 1 << 24,
        2 => value < 1 << 16,
        3 => value < 1 << 8,
        _ => value == 0,
    }
}
