// What must be blocked, and the worst that it is blocked for.
ghost use Rattle.std.specs.Prelude.{◌≡◌, [], ◌∷◌, length, Ok};
ghost use Rattle.account.specs.declared.call.Call.TheVariants.{Margin};
ghost use Rattle.account.specs.Account.{Required, step};
ghost use Rattle.calls.specs.Accounts.{state_of};
ghost use Rattle.calls.specs.Answers.{requirement_of};
ghost use Rattle.calls.specs.Blockings.{family_in};
ghost use Rattle.calls.specs.Safety.{SafeIfReached};

use crate::accounts::Account;
use crate::answer::{FamilyWorst, Requirement};
use banks::bank::Bank;
use cover::Blocked;
use std::array;

// What each of so many families loses, and the first point of its worst. They come in two lists side by side: both are public
// fields of what cover answers.
fn families(blocked: &Blocked, count: usize) -> [Option<FamilyWorst>; 2]
    requires losses { length blocked.now.losses ≡ 2 }
    requires worsts { length blocked.now.worsts ≡ 2 }
    ensures { result ≡ family_in blocked.now.losses blocked.now.worsts count 0 ∷ family_in blocked.now.losses blocked.now.worsts count 1 ∷ [] }
{
    array::from_fn(|f| {
        (f < count).then(|| FamilyWorst {
            loss: blocked.losses[f],
            point: blocked.worsts[f].1,
        })
    })
}

impl<B: Bank> Account<B> {
    // The least whole number of kopecks that no world's loss exceeds, what each family loses, the costliest family, and a world
    // in which no less is lost than in any. It is never refused, and changes nothing.
    pub fn margin(&self) -> Requirement
        ensures answer { step (state_of B.Bank.meaning self.now) Margin ≡ (state_of B.Bank.meaning self.now, Ok (Required (requirement_of result))) }
        ensures safe { SafeIfReached (state_of B.Bank.meaning self.now) (requirement_of result) }
    {
        let blocked = self.blocked();
        let count = self.deck.families.len();
        Requirement {
            amount: blocked.amount,
            families: families(&blocked, count),
            costliest: blocked.costliest,
            world: blocked.world,
        }
    }
}
