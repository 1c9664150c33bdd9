//! Elements in DER.
ghost use Rattle.std.specs.Prelude.{◌≡◌, ◌++◌, MatchOption};
ghost use Rattle.ber_core.specs.Id.{form_of_id, id_octets, tag_of_id};
ghost use Rattle.ber_core.specs.ReadHeaders.{BeginsWithIdentifier};
ghost use Rattle.ber_foreign.specs.Fronts.{BeginsWithElement, element_octets};

use crate::shortest::shortest_len;
use ber_core::{HeaderRead, Id, identifier_size, read_header};

/// An element at the front of octets: its identifier, its contents, and the octets behind it.
#[derive(Clone, Copy)]
pub struct Element<'a> {
    pub id: Id,
    pub contents: &'a [u8],
    pub behind: &'a [u8],
}

/// The greatest number of octets of a header in DER: five of the identifier, and nine of a length below 2 to the power 64.
const HEADER_MAX: usize = 14;

/// The element in DER that octets begin with (X.690, 8.1.1.1 and 10.1). None where they begin with none.
pub fn first_element(octets: &[u8]) -> Option<Element<'_>>
    ensures { MatchOption result (BeginsWithElement octets.now → ⊥)
        (λ found. octets.now
        ≡ element_octets (tag_of_id found.id) (form_of_id found.id) found.contents.now
        ++ found.behind.now) }
{
    let (id, after_id) = first_id(octets)?;
    let (len, after_len) = shortest_len(after_id)?;
    if len > after_len.len() {
        return None;
    }
    let (contents, behind) = after_len.split_at(len);
    Some(Element {
        id,
        contents,
        behind,
    })
}

/// The identifier that octets begin with (X.690, 8.1.2), and the octets behind it. None where they begin with none.
fn first_id(octets: &[u8]) -> Option<(Id, &[u8])>
    ensures { MatchOption result (BeginsWithIdentifier octets.now → ⊥)
        (λ found. octets.now ≡ id_octets found.0 ++ found.1.now) }
{
    match read_header(&octets[..octets.len().min(HEADER_MAX)]) {
        HeaderRead::Identified(id, _) => {
            let (_, behind) = octets.split_at(identifier_size(id.number()));
            Some((id, behind))
        }
        HeaderRead::NoIdentifier | HeaderRead::PartIdentifier => None,
    }
}
