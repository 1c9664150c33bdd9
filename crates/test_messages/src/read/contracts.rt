//! Contracts that leave one result, for a decoder and in each profile: what the calls return is proved of their contracts and the laws alone. So a body
//! that returns anything else doesn't meet its contract. That memory was refused is the one result that may come besides.
ghost use Rattle.std.specs.Prelude.{◌≡◌, ◌≢◌, ◌<◌, ℕ, List, [], length, Ok, Err, IfErr};
ghost use Rattle.ill_schema.specs.Apdu.{Apdu, SpellsApdu, normal_form_in};
ghost use Rattle.ill_schema.specs.Profiles.{profile_of};
ghost use Rattle.ill_read.specs.Feeding.{HasFailedWith, IsOpenAfter, IsWholeWith, MayTake};

use ill_read::{
    Decoder, Failure, NormalForm, Progress, decode_normal, decoders_are_apart, one_place,
};
use ill_schema::{Message, Profile, Refusal};
use std::alloc::Global;

/// A new decoder is open, so it has not failed and has no message.
fn new_decoders_are_open(alloc: Global) -> Decoder
    ensures open { IsOpenAfter result [] }
    ensures not_failed { (failure : Failure) → HasFailedWith result failure → ⊥ }
    ensures not_whole { (message : Message) → IsWholeWith result message → ⊥ }
{
    decoders_are_apart();
    Decoder::new(alloc)
}

/// Open decoders that were fed the same octets return the same for the next piece, where memory holds.
fn decoders_return_what_they_were_fed(
    one: &mut Decoder,
    other: &mut Decoder,
    piece: &[u8],
) -> (Result<Progress, Failure>, Result<Progress, Failure>)
    requires fed { (fed : List ℕ) × IsOpenAfter one.old fed × IsOpenAfter other.old fed }
    requires one { MayTake one.old piece.now }
    requires other { MayTake other.old piece.now }
    ensures { result.0 ≢ Err Failure.OutOfMemory → result.1 ≢ Err Failure.OutOfMemory
        → result.0 ≡ result.1 }
{
    (one.feed(piece), other.feed(piece))
}

/// Open decoders that were fed the same octets end alike.
fn decoders_end_as_they_were_fed(
    one: Decoder,
    other: Decoder,
) -> (
    Result<Option<Message>, Failure>,
    Result<Option<Message>, Failure>,
)
    requires { (fed : List ℕ) × IsOpenAfter one fed × IsOpenAfter other fed }
    ensures { result.0 ≡ result.1 }
{
    (one.finish(), other.finish())
}

/// A failure stays: each call returns it, and nothing is needed any more.
fn failures_stay(mut decoder: Decoder, failure: Failure)
    requires { HasFailedWith decoder failure }
{
    let need = decoder.need();
    prove!(need == 0);
    let again = decoder.feed(&[]);
    prove!(again == Err(failure));
    let ended = decoder.finish();
    prove!(ended.is_err());
    if let Err(last) = ended {
        prove!(last == failure);
    }
}

/// The failure that a piece leads to is kept, out of memory among them: nothing is needed then, and the next piece returns it.
fn failures_are_kept(
    decoder: &mut Decoder,
    piece: &[u8],
) -> (Result<Progress, Failure>, u32, Result<Progress, Failure>)
    requires fed { (fed : List ℕ) × IsOpenAfter decoder.old fed }
    requires piece { MayTake decoder.old piece.now }
    ensures { IfErr result.0 (λ failure. (result.1 ≡ 0) × (result.2 ≡ Err failure)) }
{
    (decoder.feed(piece), decoder.need(), decoder.feed(&[]))
}

/// A message stays: an empty piece is answered by Done, and the end by the message.
fn messages_stay(mut decoder: Decoder)
    requires { (message : Message) × IsWholeWith decoder message }
{
    let need = decoder.need();
    prove!(need == 0);
    let again = decoder.feed(&[]);
    prove!(again == Ok(Progress::Done));
    let ended = decoder.finish();
    prove!(matches!(&ended, Ok(Some(_))));
}

/// Open decoders that were fed the same octets need as many more, at least one.
fn open_decoders_need_one_number(one: &Decoder, other: &Decoder) -> (u32, u32)
    requires { (fed : List ℕ) × IsOpenAfter one.now fed × IsOpenAfter other.now fed }
    ensures same { result.0 ≡ result.1 }
    ensures some { 0 < result.0 }
{
    one_place();
    (one.need(), other.need())
}

/// In each profile a slice has the normal form of the APDU that it spells, or one refusal.
fn slices_have_one_normal_form_in_each_profile(
    octets: &[u8],
    profile: Profile,
    alloc: Global,
) -> (Result<NormalForm, Failure>, Result<NormalForm, Failure>)
    ensures form { (a : Apdu) (n : NormalForm) → SpellsApdu (profile_of profile) a octets.now
        → result.0 ≡ Ok n
        → n.octets.items ≡ normal_form_in (profile_of profile) a }
    ensures same { (m n : NormalForm) → result.0 ≡ Ok m → result.1 ≡ Ok n
        → m.octets.items ≡ n.octets.items }
    ensures read { (n : NormalForm) → result.0 ≡ Ok n → n.input_len ≡ length octets.now }
    ensures accepted { (a : Apdu) (x : Refusal) → SpellsApdu (profile_of profile) a octets.now
        → result.0 ≡ Err (Failure.Refused x) → ⊥ }
    ensures refusal { (x y : Refusal) → result.0 ≡ Err (Failure.Refused x)
        → result.1 ≡ Err (Failure.Refused y) → x ≡ y }
    ensures apart { (n : NormalForm) (x : Refusal) → result.0 ≡ Ok n
        → result.1 ≡ Err (Failure.Refused x) → ⊥ }
{
    (
        decode_normal(alloc, profile, octets),
        decode_normal(alloc, profile, octets),
    )
}
