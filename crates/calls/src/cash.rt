// Deposits and withdrawals.
ghost use Rattle.std.specs.Prelude.{◌≡◌, ◌+◌, nat_le, unsigned_abs};
ghost use Rattle.terms.specs.Checks.{decided};
ghost use Rattle.account.specs.declared.call.Call.TheVariants.{Deposit, Withdraw};
ghost use Rattle.account.specs.Account.{Collateral, margin_of, checks, step};
ghost use Rattle.calls.specs.Accounts.{state_of, told_as};

use crate::accounts::Account;
use crate::limits::amount_of;
use banks::bank::Bank;
use terms::amounts::MOST_CASH;
use terms::refusal::Refusal;

impl<B: Bank> Account<B> {
    // Adds to the collateral; answers the new collateral.
    pub fn deposit(&mut self, amount: i64) -> Result<u64, Refusal>
        ensures { (state_of B.Bank.meaning self.new, told_as Collateral result) ≡ step (state_of B.Bank.meaning self.old) (Deposit amount) }
    {
        let added = self.deposited(amount)?;
        self.collateral += added;
        Ok(self.collateral)
    }

    // What a deposit adds.
    fn deposited(&self, amount: i64) -> Result<u64, Refusal>
        ensures { result ≡ decided (checks (state_of B.Bank.meaning self.now) (Deposit amount)) (unsigned_abs amount) }
    {
        let added = amount_of(amount)?;
        if self.collateral + added > MOST_CASH as u64 {
            return Err(Refusal::CollateralTooLarge);
        }
        Ok(added)
    }

    // Takes off the collateral; answers the new collateral.
    pub fn withdraw(&mut self, amount: i64) -> Result<u64, Refusal>
        ensures { (state_of B.Bank.meaning self.new, told_as Collateral result) ≡ step (state_of B.Bank.meaning self.old) (Withdraw amount) }
    {
        let taken = self.withdrawn(amount)?;
        self.collateral -= taken;
        Ok(self.collateral)
    }

    // What a withdrawal takes off.
    fn withdrawn(&self, amount: i64) -> Result<u64, Refusal>
        ensures { result ≡ decided (checks (state_of B.Bank.meaning self.now) (Withdraw amount)) (unsigned_abs amount) }
    {
        let taken = amount_of(amount)?;
        if !self.leaves_enough(taken) {
            return Err(Refusal::NotCovered);
        }
        Ok(taken)
    }

    // Whether the margin is covered without that much of the collateral.
    fn leaves_enough(&self, amount: u64) -> bool
        ensures { result ≡ nat_le (margin_of (state_of B.Bank.meaning self.now) + amount) self.now.collateral }
    {
        amount <= self.collateral && self.blocked().amount <= self.collateral - amount
    }
}
