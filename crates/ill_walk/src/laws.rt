//! Laws of the words that contracts use.
ghost use Rattle.std.specs.Prelude.{◌≡◌, true};
ghost use Rattle.std.specs.List.{list_all};
ghost use Rattle.ill_walk.specs.Markup.{is_no_markup, shown_in};
ghost use Rattle.ill_walk.specs.declared.markup.DumpFormat.TheVariants.{Html};

/// A text in HTML, whatever it is, has no octet that begins or ends a tag, or the value of an attribute.
#[tactic(auto, using(crate::proofs::Escaped::no_markup))]
pub fn texts_have_no_markup(text: &[u8])
    ensures { list_all is_no_markup (shown_in Html text.now) ≡ true }
{
    let _ = text;
}
