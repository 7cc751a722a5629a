//! The calls of C: numbers for texts, a dictionary that a caller keeps, and names that threads
//! share.
//!
//! Every call is total: any bytes, ends and codes may be passed, and a failure is a number
//! ([`Fault`](fault::Fault)). What C owes is that each pointer is valid for its length, and that a
//! dictionary or a handle is zeroed before its first call, but for the seed of a dictionary, and
//! used by one call at a time.
#![tactic(auto)]

ghost use Rattle.std.specs.Prelude.{◌≡◌, ◌≤◌, ℕ, List, [], length, slice_get, false, None};
ghost use Rattle.std.specs.Option.{option_map};
ghost use Rattle.elsa_c.specs.Codes.{AreAllFirsts, IsFactorized, IsFirsts, IsFound, IsPutStatus, IsStatus, PutsAll, found_code, text_of};
ghost use Rattle.elsa_c.specs.Dictionary.{names_of};
ghost use Rattle.elsa_lock_free.specs.SharedList.{Continues, IsLaterPass};
ghost use Rattle.elsa_c.specs.Shared.{Became, IsAgain, IsAttemptStatus, IsMade, IsNew, observed};

mod block;
mod dictionary;
mod fault;
mod handle;
mod kept;
mod names;
mod seed;
mod shared;
mod shared_handle;
mod shared_kept;

use fault::{Fault, status_of};
use handle::Dictionary;
use kept::Kept;
use seed::Seed;
use shared_handle::Shared;
use shared_kept::SharedKept;
use std::alloc::Global;

/// Writes the code of each text of a block to `codes`: equal texts have equal codes, from 0 on in
/// the order of first texts. Text `i` ends before `ends[i]` and begins where the one before it
/// ends.
///
/// `done` receives the number of texts that have their codes. The codes after them are unchanged.
/// `seed` is the secret of the hash. Returns 0 if all texts have theirs, and else the number of a
/// fault.
///
/// # Cost
/// `O(1)` hashed for each text, and a copy of each new one, which is freed at the end.
#[unsafe(no_mangle)]
pub extern "C" fn elsa_factorize(
    alloc: Global,
    bytes: &[u8],
    ends: &[usize],
    codes: &mut [usize],
    done: &mut usize,
    seed: &Seed,
) -> u32
    ensures factorized { IsFactorized (text_of bytes.now ends.now) done.new codes.old codes.new }
    ensures length { length codes.new ≡ length codes.old }
    ensures within { done.new ≤ length ends.now }
    ensures status { (names : List (List ℕ)) × IsStatus bytes.now ends.now (length codes.old) names
        done.new result }
{
    let mut kept = Kept::new(alloc, *seed);
    let progress = kept.put_all(bytes, ends, codes);
    *done = progress.done;
    progress.status()
}

/// Writes to `firsts` the index at which each code occurs first, for codes as [`elsa_factorize`]
/// writes them: the text with code `c` is text `firsts[c]`.
///
/// Returns the number of codes, or the number of elements of `firsts` if that is smaller.
#[unsafe(no_mangle)]
pub extern "C" fn elsa_firsts(codes: &[usize], firsts: &mut [usize]) -> usize
    ensures firsts { IsFirsts codes.now result firsts.new }
    ensures whole { AreAllFirsts codes.now result (length firsts.old) }
    ensures length { length firsts.new ≡ length firsts.old }
{
    let mut count = 0usize;
    for at in 0..codes.len() {
        if codes[at] == count {
            if count >= firsts.len() {
                return count;
            }
            firsts[count] = at;
            count += 1;
        }
    }
    count
}

/// Writes the code of a text to `code`. A new text is copied, and has the next code.
///
/// Returns 0, or the number of a fault: then nothing has changed.
#[unsafe(no_mangle)]
pub extern "C" fn elsa_dictionary_put(
    alloc: Global,
    dictionary: &mut Dictionary,
    text: &[u8],
    code: &mut usize,
) -> u32
    ensures status { IsPutStatus text.now (names_of dictionary.old) (names_of dictionary.new)
        code.old code.new result }
    ensures seed { dictionary.new.seed ≡ dictionary.old.seed }
{
    let fault = dictionary.put(alloc, text, code);
    status_of(fault)
}

/// Writes the code of each text of a block to `codes`, as [`elsa_factorize`] does. New texts are
/// copied, and have the next codes.
///
/// `done` receives the number of texts that have their codes. They keep them if the call ends at a
/// fault, and the codes after them are unchanged. Returns 0 if all texts have theirs, and else the
/// number of the fault.
#[unsafe(no_mangle)]
pub extern "C" fn elsa_dictionary_put_many(
    alloc: Global,
    dictionary: &mut Dictionary,
    bytes: &[u8],
    ends: &[usize],
    codes: &mut [usize],
    done: &mut usize,
) -> u32
    ensures puts { PutsAll (text_of bytes.now ends.now) done.new (names_of dictionary.old)
        (names_of dictionary.new) codes.old codes.new }
    ensures length { length codes.new ≡ length codes.old }
    ensures within { done.new ≤ length ends.now }
    ensures status { IsStatus bytes.now ends.now (length codes.old) (names_of dictionary.new)
        done.new result }
    ensures seed { dictionary.new.seed ≡ dictionary.old.seed }
{
    let progress = dictionary.put_many(alloc, bytes, ends, codes);
    *done = progress.done;
    progress.status()
}

/// Returns whether the dictionary has a text, and writes its code to `code` if it does.
#[unsafe(no_mangle)]
pub extern "C" fn elsa_dictionary_find(
    alloc: Global,
    dictionary: &mut Dictionary,
    text: &[u8],
    code: &mut usize,
) -> bool
    ensures found { IsFound text.now (names_of dictionary.old) (found_code result code.new) }
    ensures absent { result ≡ false → code.new ≡ code.old }
    ensures same { names_of dictionary.new ≡ names_of dictionary.old }
    ensures seed { dictionary.new.seed ≡ dictionary.old.seed }
{
    let Some(found) = dictionary.find(alloc, text) else {
        return false;
    };
    *code = found;
    true
}

/// Returns whether the dictionary has a text with this code, and writes its address and its length
/// to `text` and `len` if it does. The bytes stay there until the dictionary is freed.
#[unsafe(no_mangle)]
pub extern "C" fn elsa_dictionary_at(
    alloc: Global,
    dictionary: &mut Dictionary,
    code: usize,
    text: &mut *const u8,
    len: &mut usize,
) -> bool
    ensures read { found_code result len.new
        ≡ option_map length (slice_get (names_of dictionary.old) code) }
    ensures absent { result ≡ false → len.new ≡ len.old }
    ensures same { names_of dictionary.new ≡ names_of dictionary.old }
    ensures seed { dictionary.new.seed ≡ dictionary.old.seed }
{
    let Some((at, count)) = dictionary.at(alloc, code) else {
        return false;
    };
    *text = at;
    *len = count;
    true
}

/// Returns the number of texts.
#[unsafe(no_mangle)]
pub extern "C" fn elsa_dictionary_len(alloc: Global, dictionary: &mut Dictionary) -> usize
    ensures length { result ≡ length (names_of dictionary.old) }
    ensures same { names_of dictionary.new ≡ names_of dictionary.old }
    ensures seed { dictionary.new.seed ≡ dictionary.old.seed }
{
    dictionary.len(alloc)
}

/// Frees all texts. The dictionary then has none, and may be used again or freed again.
#[unsafe(no_mangle)]
pub extern "C" fn elsa_dictionary_free(alloc: Global, dictionary: &mut Dictionary)
    ensures empty { names_of dictionary.new ≡ [] }
    ensures seed { dictionary.new.seed ≡ dictionary.old.seed }
{
    let _names = dictionary.take(alloc);
}

/// Makes `names` a handle of new names, of which there are none. Names that it had are freed, if no
/// other handle has them. `seed` is the secret of the hash.
///
/// Returns 0, or the number of a fault: then the handle has no names.
#[unsafe(no_mangle)]
pub extern "C" fn elsa_shared_new(alloc: Global, names: &mut Shared, seed: &Seed) -> u32
    ensures made { IsMade IsNew names.new.handle.value result }
{
    let _old = names.take(alloc);
    let Ok(made) = SharedKept::new(alloc, *seed) else {
        return Fault::Memory.code();
    };
    names.fill(alloc, made)
}

/// Makes `other` a handle of the same names, for another thread. Names that it had are freed, if no
/// other handle has them. `other` must not be `names`.
///
/// Returns 0, or the number of a fault: then `other` has no names.
#[unsafe(no_mangle)]
pub extern "C" fn elsa_shared_again(alloc: Global, names: &mut Shared, other: &mut Shared) -> u32
    ensures made { IsAgain names.old.handle.value other.new.handle.value result }
    ensures same { names.new.handle.value ≡ names.old.handle.value }
{
    let _old = other.take(alloc);
    let Some(kept) = names.take(alloc) else {
        return Fault::NoNames.code();
    };
    let made = kept.again();
    names.restore(kept);
    let Ok(made) = made else {
        return Fault::Memory.code();
    };
    other.fill(alloc, made)
}

/// Returns whether a text is among the names, and writes its code to `code` if it is. It takes no
/// lock and waits for no thread. A handle without names has no text.
#[unsafe(no_mangle)]
pub extern "C" fn elsa_shared_find(
    alloc: Global,
    names: &mut Shared,
    text: &[u8],
    code: &mut usize,
) -> bool
    ensures found { IsFound text.now (observed names.new) (found_code result code.new) }
    ensures absent { result ≡ false → code.new ≡ code.old }
    ensures continues { Became Continues names.old.handle.value names.new.handle.value }
{
    let Ok(text) = str::from_utf8(text) else {
        return false;
    };
    let Some(mut kept) = names.take(alloc) else {
        return false;
    };
    let number = kept.find(text);
    names.restore(kept);
    let Some(number) = number else {
        return false;
    };
    *code = number;
    true
}

/// Writes the code of a text to `code`. A text that no thread has put is copied, and has the next
/// code. The call waits for no thread.
///
/// Returns 0, or the number of a fault: then this call has added nothing. After `Busy`, call again.
#[unsafe(no_mangle)]
pub extern "C" fn elsa_shared_try_put(
    alloc: Global,
    names: &mut Shared,
    text: &[u8],
    code: &mut usize,
) -> u32
    ensures status { IsAttemptStatus text.now names.old.handle.value names.new.handle.value
        code.old code.new result }
    ensures later { Became IsLaterPass names.old.handle.value names.new.handle.value }
{
    let Ok(text) = str::from_utf8(text) else {
        return Fault::NotUtf8.code();
    };
    let Some(mut kept) = names.take(alloc) else {
        return Fault::NoNames.code();
    };
    let put = kept.try_put(alloc, text);
    names.restore(kept);
    match put {
        Ok(index) => {
            *code = index;
            0
        }
        Err(fault) => fault.code(),
    }
}

/// Returns whether there is a text with this code, and writes its address and its length to `text`
/// and `len` if there is. The bytes stay there until the last handle of the names is freed. It
/// takes no lock and waits for no thread.
#[unsafe(no_mangle)]
pub extern "C" fn elsa_shared_at(
    alloc: Global,
    names: &mut Shared,
    code: usize,
    text: &mut *const u8,
    len: &mut usize,
) -> bool
    ensures read { found_code result len.new
        ≡ option_map length (slice_get (observed names.new) code) }
    ensures absent { result ≡ false → len.new ≡ len.old }
    ensures continues { Became Continues names.old.handle.value names.new.handle.value }
{
    let Some(mut kept) = names.take(alloc) else {
        return false;
    };
    let found = kept.text_at(code);
    names.restore(kept);
    let Some((first, length)) = found else {
        return false;
    };
    *text = first;
    *len = length;
    true
}

/// Returns the number of names. It takes no lock and waits for no thread.
#[unsafe(no_mangle)]
pub extern "C" fn elsa_shared_len(alloc: Global, names: &mut Shared) -> usize
    ensures length { result ≡ length (observed names.new) }
    ensures continues { Became Continues names.old.handle.value names.new.handle.value }
{
    let Some(mut kept) = names.take(alloc) else {
        return 0;
    };
    let count = kept.len();
    names.restore(kept);
    count
}

/// Frees a handle, and the names with their last handle. The handle then has no names, and may be
/// freed again.
#[unsafe(no_mangle)]
pub extern "C" fn elsa_shared_free(alloc: Global, names: &mut Shared)
    ensures empty { names.new.handle.value ≡ None }
{
    let _names = names.take(alloc);
}
