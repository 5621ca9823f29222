// Judging the items of a list one by one: the first that fails decides, and its place is told.
ghost use Rattle.std.specs.Prelude.{◌≡◌, ℕ, ◌<◌, Bool, not, length, IfSome};
ghost use Rattle.terms.specs.Judging.{failing};

// A test of the items of a list. An implementation says by `admits` which item passes at which place.
pub trait Judge<T> {
    ghost admits: { Self → ℕ → T → Bool };

    fn passes(&self, place: usize, item: &T) -> bool
        ensures { result ≡ admits self.now place item.now };
}

// The place of the first item that a test does not pass, if there is one.
pub fn first_unfit<T, F: Fn(usize, &T) -> bool>(items: &[T], fits: F) -> Option<usize>
    requires called { F.IsAlwaysCallable fits }
    ensures value { (admits : ℕ → T → Bool) → ((place : ℕ) (item : _) (r : Bool) → F.post fits place item r → r ≡ admits place item.now) → result ≡ failing admits 0 items.now }
    ensures inside { IfSome result (λ place. place < length items.now) }
{
    items
        .iter()
        .enumerate()
        .position(|(place, item)| !fits(place, item))
}

// The same for callers whose tests are types.
pub fn first_failing<T, J: Judge<T>>(judge: &J, items: &[T]) -> Option<usize>
    ensures value { result ≡ failing (J.Judge.admits judge.now) 0 items.now }
    ensures inside { IfSome result (λ place. place < length items.now) }
{
    first_unfit(items, |place, item| judge.passes(place, item))
}
