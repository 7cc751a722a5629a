//! A reply of the engine, and its line.
ghost use Rattle.std.specs.Prelude.{[], ◌∷◌, ◌++◌};
ghost use Rattle.elsa_program.specs.Devices.{Queues, CountsFault};
ghost use Rattle.elsa_program.specs.Replies.{reply_text};

use crate::devices::{Failed, Sink};
use crate::pending::Pending;

/// The reply to a request.
#[derive(Clone, Copy)]
pub enum Reply<'a> {
    /// The number of a name, or the number of names.
    Number(usize),
    /// A name, or the text of a reply that isn't a number: `none`, `bad line`, `no memory`, `too
    /// many names`.
    Text(&'a str),
}

/// Appends the line of a reply to the buffer.
///
/// # Errors
/// Fails if a write fails. A beginning of the buffered bytes and the line is then written.
#[inline(always)]
pub fn push_reply<W: Sink>(
    out: &mut Pending,
    writer: &mut W,
    reply: Reply<'_>,
) -> Result<(), Failed>
    ensures adds { Queues result (W.held writer.old) out.old (W.held writer.new) out.new
        (reply_text reply.entry ++ (10 ∷ [])) }
    ensures counts { CountsFault result (W.failures writer.old) (W.failures writer.new) }
{
    match reply {
        Reply::Number(n) => out.push_number(writer, n),
        Reply::Text(text) => out.push_line(writer, text.as_bytes()),
    }
}
