//! An append-only vector that many threads share: the rule of its atomic steps, those steps, and
//! the vector itself. The slots that hold its items are those of `elsa_slots`.
#![tactic(auto)]

/// Spends ghost tokens, each named with its type: what they own goes where the function's proof
/// says. It does nothing when it runs.
macro_rules! spend {
    ($($token:ident: $kind:ident),+) => {
        $(let $kind { marker: _ } = $token;)+
    };
}

mod atomic_list;
mod event;
mod handle;
mod history;
pub mod hold;
pub mod item_rule;
pub mod lock_free;
pub mod may_lock;
mod pass;
mod rule;
mod tokens;
