//! Laws of each decoder. A law is the contract of a function that does nothing.
ghost use Rattle.ill_read.specs.Feeding.{StatesAreApart};
ghost use Rattle.ill_read.specs.declared.decoder.Decoder.{Decoder};

/// A decoder is open, whole or failed, and no two of them at once; while it is open, what it was fed is part of a message.
pub fn decoders_are_apart()
    ensures { (d : Decoder) → StatesAreApart d }
{}
