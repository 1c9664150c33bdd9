//! Laws of the definitions alone.
ghost use Rattle.std.specs.Prelude.{◌≡◌, ◌≢◌, ℕ, ◌<◌, List, ◌++◌, length, Some};
ghost use Rattle.ill_schema.specs.Profiles.{profile_of};
ghost use Rattle.ill_tables.specs.declared.profile.Profile.{Profile as Named};
ghost use Rattle.ill_schema.specs.declared.refusal.Refusal.{Refusal};
ghost use Rattle.ill_refusals.specs.Fault.{fault_of, Refuses};
ghost use Rattle.ill_normal.specs.Messages.{Spelling, first, output_from};
ghost use Rattle.ill_normal.specs.declared.messages.MessagePlace.{MessagePlace};
ghost use Rattle.ill_normal.specs.Next.{HasNoEnd};
ghost use Rattle.ill_normal.specs.Entries.{AreWritten, WritesText};
ghost use Rattle.ill_normal.specs.Items.{Item, AreItems, good_ones, HasNoMore, IsRefusedFor};

use ill_schema::Cause;

/// The output for the messages of an input is that for the accepted ones alone, if it doesn't depend on their places.
pub fn accepted_messages_are_written()
    ensures { (text : MessagePlace → Spelling → List ℕ)
        → ((p q : MessagePlace) (m : Spelling) → text p m ≡ text q m)
        → (p : MessagePlace) (items : List Item) (n : ℕ) (octets : List ℕ)
        → AreWritten (WritesText text) p items n octets
        → octets ≡ output_from text first (good_ones items) }
{}

/// In each profile an input is messages in one way, as far as their ends can be known.
pub fn one_reading_of_an_input()
    ensures { (p : Named) (s rest over : List ℕ) (items others : List Item)
        → AreItems (profile_of p) s items rest → HasNoMore rest
        → AreItems (profile_of p) s others over → HasNoMore over
        → (items ≡ others) × (rest ≡ over) }
{}

/// An input has no more messages after one whose end can't be known.
pub fn unknown_ends_are_last()
    ensures { (octets rest : List ℕ) → HasNoEnd octets (Some rest)
        → length octets < 18_446_744_073_709_551_615 → HasNoMore (octets ++ rest) }
{}

/// A refusal other than Truncated stays when octets are appended. So a call that stops there returns the refusal of the whole input.
pub fn refusals_are_of_the_input()
    ensures { (p : Named) (octets rest : List ℕ) (refusal : Refusal)
        → refusal.cause ≢ Cause.Truncated → IsRefusedFor (profile_of p) octets refusal
        → Refuses (profile_of p) (octets ++ rest) (fault_of refusal) }
{}
