//! [`Fault`]: why a call of C stopped.
ghost use Rattle.std.specs.Prelude.{◌≡◌};
ghost use Rattle.elsa_c.specs.Codes.{fault_code, status_code};

/// Why a call stopped. C has its number.
#[derive(Clone, Copy)]
pub enum Fault {
    /// An allocation failed.
    Memory,
    /// A text is not UTF-8.
    NotUtf8,
    /// An end is before the end of the text before it, or past the bytes.
    EndsOutOfOrder,
    /// There are 2^32 - 1 texts, and this one is new.
    Full,
    /// The array of codes has fewer elements than there are texts, so no text was coded.
    TooFewCodes,
    /// Another thread adds a text, and the call does not wait for it: call again.
    Busy,
    /// The handle has no names: it is zeroed, or was freed.
    NoNames,
}

impl Fault {
    /// Returns the number that C has for it: 1 and more, since 0 is success.
    pub fn code(self) -> u32
        ensures { result ≡ fault_code self }
    {
        match self {
            Fault::Memory => 1,
            Fault::NotUtf8 => 2,
            Fault::EndsOutOfOrder => 3,
            Fault::Full => 4,
            Fault::TooFewCodes => 5,
            Fault::Busy => 6,
            Fault::NoNames => 7,
        }
    }
}

/// Returns the number that C has for how a call ended: 0 if there is no fault.
pub fn status_of(fault: Option<Fault>) -> u32
    ensures { result ≡ status_code fault }
{
    let Some(fault) = fault else {
        return 0;
    };
    fault.code()
}
