//! Comparing what may be there.

ghost use Rattle.std.specs.Prelude.{◌≡◌};
ghost use Rattle.arrangement.specs.Numbers.{both_equal};

/// Are both there, and equal?
pub fn are_equal<T: Copy + Eq>(x: Option<T>, y: Option<T>) -> bool
    ensures { result ≡ both_equal T.PartialEq.eq x y }
{
    match (x, y) {
        (Some(x), Some(y)) => x == y,
        _ => false,
    }
}
