//! The place of a refusal in words, as members.
ghost use Rattle.std.specs.Prelude.{◌≡◌, map, string_bytes};
ghost use Rattle.json.specs.Token.{string};
ghost use Rattle.ill_json.specs.code.Adding.{Adds, list_tokens, place_tokens, words_tokens};

use crate::writing::LineWriter;
use ill_inputs::RefusalPlace;
use json::Token;

/// Puts the members of a place: those that say something.
pub fn put_place(place: &RefusalPlace, out: &mut LineWriter)
    ensures { Adds (place_tokens place.now) out.old out.new }
{
    put_words("path", &place.path, out);
    put_words("found", &place.found, out);
    put_list("due", &place.due, out);
}

/// Puts the member that has these words, unless there are none.
fn put_words(name: &str, words: &str, out: &mut LineWriter)
    ensures { Adds (words_tokens name.now words.now) out.old out.new }
{
    if !words.is_empty() {
        out.put(Token::Key(name));
        out.put(Token::String(words));
    }
}

/// Puts the member that has an array of texts, unless there are none.
fn put_list(name: &str, texts: &[String], out: &mut LineWriter)
    ensures { Adds (list_tokens name.now (map string_bytes texts.now)) out.old out.new }
{
    if !texts.is_empty() {
        out.put(Token::Key(name));
        out.put(Token::BeginArray);
        put_texts(texts, out);
        out.put(Token::EndArray);
    }
}

/// Puts texts, one after another.
fn put_texts(texts: &[String], out: &mut LineWriter)
    ensures { Adds (map string (map string_bytes texts.now)) out.old out.new }
{
    for text in texts {
        out.put(Token::String(text));
    }
}
