//! An account as the sequential object of a recorder: its commands, its replies, and their meaning.
ghost use Rattle.std.specs.Prelude.{◌≡◌};

use elsa::sync::history::Core;
use std::alloc::AllocError;

/// An account with a balance in cents.
#[derive(Drop)]
pub struct Account {
    cents: u64,
}

impl Account {
    /// Makes an account whose balance is 0.
    pub fn new() -> Self
        ensures { result.cents ≡ 0 }
    {
        Account { cents: 0 }
    }

    /// Returns the balance in cents.
    pub fn balance(&self) -> u64
        ensures { result ≡ self.now.cents }
    {
        self.cents
    }
}

/// A call on an account.
#[derive(Clone, Copy, PartialEq, Eq)]
pub enum AccountCommand {
    /// Adds this number of cents to the balance.
    Deposit(u64),
    /// Subtracts this number of cents from the balance.
    Withdraw(u64),
}

/// A reply of an account.
#[derive(Clone, Copy, PartialEq, Eq)]
pub enum AccountReply {
    /// The call succeeded; this is the balance in cents after it.
    Balance(u64),
    /// The call changed nothing: the balance would be negative, or greater than a `u64` can be.
    Refused,
}

impl Core for Account {
    ghost use Rattle.std.specs.Prelude.{ℕ};
    ghost use Rattle.example_account.specs.Account.{AccountStep};

    type Command = AccountCommand;

    type Reply = AccountReply;

    ghost State = { ℕ };

    ghost state = { λ account. account.cents };

    ghost opening = { 0 };

    ghost steps = { AccountStep };

    fn apply(&mut self, command: AccountCommand) -> Result<AccountReply, AllocError> {
        let after = match command {
            AccountCommand::Deposit(amount) => self.cents.checked_add(amount),
            AccountCommand::Withdraw(amount) => self.cents.checked_sub(amount),
        };
        let Some(cents) = after else {
            return Ok(AccountReply::Refused);
        };
        self.cents = cents;
        Ok(AccountReply::Balance(cents))
    }
}
