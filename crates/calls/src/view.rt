// What an account shows of itself.
ghost use Rattle.std.specs.Prelude.{◌≡◌};
ghost use Rattle.calls.specs.Accounts.{state_of};

use crate::accounts::Account;
use account::orders::Order;
use banks::bank::Bank;
use margin::book::Position;

impl<B: Bank> Account<B> {
    // The position of each line: its net, and its cost in grains.
    pub fn positions(&self) -> &[Position]
        ensures { result.now ≡ (state_of B.Bank.meaning self.now).positions }
    {
        &self.positions
    }

    // The open orders, in the order of their numbers.
    pub fn open_orders(&self) -> &[Order]
        ensures { result.now ≡ (state_of B.Bank.meaning self.now).orders }
    {
        &self.orders
    }

    // The collateral, in kopecks.
    pub fn collateral(&self) -> u64
        ensures { result ≡ (state_of B.Bank.meaning self.now).collateral }
    {
        self.collateral
    }
}
