// Any call, by its kind.
ghost use Rattle.std.specs.Prelude.{◌≡◌};
ghost use Rattle.account.specs.Account.{step};
ghost use Rattle.calls.specs.Accounts.{state_of};
ghost use Rattle.calls.specs.Answers.{told_of};

use crate::accounts::Account;
use crate::answer::Answer;
use account::call::Call;
use banks::bank::Bank;
use terms::refusal::Refusal;

impl<B: Bank> Account<B> {
    // The account takes a call: its answer, or the refusal that left the account as it was.
    pub fn take(&mut self, call: Call) -> Result<Answer, Refusal>
        ensures { (state_of B.Bank.meaning self.new, told_of result) ≡ step (state_of B.Bank.meaning self.old) call }
    {
        Ok(match call {
            Call::Place {
                line,
                quantity,
                limit,
            } => Answer::Numbered(self.place(line, quantity, limit)?),
            Call::Cancel { number } => Answer::Ended(self.cancel(number)?),
            Call::Fill {
                number,
                quantity,
                price,
            } => Answer::StillLeft(self.fill(number, quantity, price)?),
            Call::Deposit { amount } => Answer::Collateral(self.deposit(amount)?),
            Call::Withdraw { amount } => Answer::Collateral(self.withdraw(amount)?),
            Call::Margin => Answer::Required(self.margin()),
        })
    }
}
