// Whether a field takes a number.
ghost use Rattle.std.specs.Prelude.{◌≡◌};
ghost use Rattle.forms.specs.Fields.{allows};

use crate::field::Allowed;
use terms::cards::between;
use terms::half::Half;

pub fn takes(allowed: Allowed, number: i64) -> bool
    ensures { result ≡ allows allowed number }
{
    match allowed {
        Allowed::Any => true,
        Allowed::Between(low, high) => between(number, low, high),
        Allowed::HalfSize => Half::of(number).is_some(),
    }
}
