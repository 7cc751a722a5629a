//! A request of the engine, and how a line is parsed.
ghost use Rattle.std.specs.Prelude.{◌≡◌, true, false, nat_eq, length, drop, MatchOption};
ghost use Rattle.std.specs.List.{starts_with};
ghost use Rattle.elsa_program.specs.Lines.{command_of};
ghost use Rattle.elsa_program.specs.Replies.{asked};

use crate::digits::number_of;

/// A request, as a line writes it.
#[derive(Clone, Copy)]
pub enum Request<'t> {
    /// The number of this text, which becomes a name if it is new.
    Put(&'t str),
    /// The number of this text, if it is a name.
    Find(&'t str),
    /// The name with this number.
    At(u64),
    /// The number of names.
    Len,
    /// The line is no request.
    Bad,
}

/// Returns the rest of the text after `word`, or `None` if the text doesn't begin with it.
fn after<'t>(text: &'t str, word: &str) -> Option<&'t str>
    ensures { MatchOption result (starts_with nat_eq text.now word.now ≡ false) (λ r.
        (starts_with nat_eq text.now word.now ≡ true) × (r.now ≡ drop (length word.now) text.now)) }
{
    text.strip_prefix(word)
}

/// Returns the request of a line that is UTF-8.
#[tactic(auto, using(crate::proofs::RequestLemmas::command_of_text_is))]
#[inline(always)]
pub fn request_of_text(text: &str) -> Request<'_>
    ensures { asked result ≡ command_of text.now }
{
    if let Some(name) = after(text, "put ") {
        return Request::Put(name);
    }
    if let Some(name) = after(text, "find ") {
        return Request::Find(name);
    }
    if let Some(digits) = after(text, "at ") {
        return match number_of(digits) {
            Some(n) => Request::At(n),
            None => Request::Bad,
        };
    }
    if text == "len" {
        Request::Len
    } else {
        Request::Bad
    }
}

/// Returns the request of a line.
#[inline(always)]
pub fn request_of(line: &[u8]) -> Request<'_>
    ensures { asked result ≡ command_of line.now }
{
    match str::from_utf8(line) {
        Ok(text) => request_of_text(text),
        Err(_) => Request::Bad,
    }
}
