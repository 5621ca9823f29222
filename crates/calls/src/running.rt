// A run: an account from its begin through a list of calls.
ghost use Rattle.std.specs.Prelude.{◌≡◌, ◌+◌, ◌≤◌, ◌++◌, map, length, IfOk, vec_len, vec_capacity};
ghost use Rattle.deck.specs.Decks.{given_cards};
ghost use Rattle.deck.specs.Judgements.{cards_judged};
ghost use Rattle.account.specs.Account.{run as run_of, answers};
ghost use Rattle.account.specs.Begin.{begin as begins};
ghost use Rattle.calls.specs.Accounts.{state_of};
ghost use Rattle.calls.specs.Answers.{told_of};
ghost use Rattle.calls.specs.Told.{RunOutcome, SafeOutcome};

use crate::accounts::Account;
use crate::answer::Answer;
use crate::opening::begin;
use account::call::Call;
use banks::bank::Bank;
use deck::given::Given;
use std::alloc::{AllocError, Global};
use terms::cards::Held;
use terms::fault::Fault;
use terms::refusal::Refusal;

// The account takes the calls in their order; what it answers goes to the end of the list, which has room for it.
// A loop, since each call meets the account that the one before left, and a chain tells nothing of a closure that changes what
// it captures.
fn take_all<B: Bank>(
    account: &mut Account<B>,
    calls: &[Call],
    told: &mut Vec<Result<Answer, Refusal>>,
)
    requires { vec_len told.old + length calls.now ≤ vec_capacity told.old }
    ensures state { state_of B.Bank.meaning account.new ≡ run_of (state_of B.Bank.meaning account.old) calls.now }
    ensures told { map told_of told.new.items ≡ map told_of told.old.items ++ answers (state_of B.Bank.meaning account.old) calls.now }
{
    for call in calls {
        told.push_reserved(account.take(*call));
    }
}

// What a begun account answers to the calls.
fn told_by<B: Bank + Drop>(
    heap: Global,
    mut account: Account<B>,
    calls: &[Call],
) -> Result<Vec<Result<Answer, Refusal>>, AllocError>
    ensures { IfOk result (λ v. map told_of v.items ≡ answers (state_of B.Bank.meaning account) calls.now) }
{
    let mut told = Vec::with_capacity(heap, calls.len())?;
    take_all(&mut account, calls, &mut told);
    Ok(told)
}

// Begins an account and has it take the calls in their order: what each of them was told. Wherever margin stands among them, the
// amount answered is the least that covers every world of the account there, the world answered is one of them and none loses
// more, the collateral suffices, and no fills and cancels ever raise the amount. What the account is made of comes
// apart, as begin takes it.
pub fn run<B: Bank + Drop>(
    heap: Global,
    bank: B,
    given: &Given,
    held: &[Held],
    collateral: i64,
    calls: &[Call],
) -> Result<Vec<Result<Answer, Refusal>>, Fault>
    ensures told { RunOutcome result calls.now (cards_judged (B.Bank.meaning bank).lines (given_cards given.now) held.now) (begins (B.Bank.meaning bank) (given_cards given.now) held.now collateral) }
    ensures safe { SafeOutcome result calls.now (begins (B.Bank.meaning bank) (given_cards given.now) held.now collateral) }
{
    let account = begin(heap, bank, given, held, collateral)?;
    Ok(told_by(heap, account, calls)?)
}
