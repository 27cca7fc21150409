// A number of a line in a narrower type: held at the type's ends, so that a code beyond all codes stays one.
ghost use Rattle.std.specs.Prelude.{◌≡◌, ◌<ℤ◌, ◌≤ℤ◌, pos};
ghost use Rattle.std.specs.Result.{result_unwrap_or};

use num_traits::Bounded;

// An unsigned number.
pub fn held<T: Bounded + TryFrom<u64, Error: Drop>>(n: u64) -> T
    ensures { (tried : _) × T.try_from_gives n tried × (result ≡ result_unwrap_or tried T.highest) }
{
    T::try_from(n).unwrap_or(T::max_value())
}

// A signed number.
pub fn held_signed<T: Bounded + TryFrom<i64, Error: Drop>>(value: i64) -> T
    ensures negative { value <ℤ pos 0 → (tried : _) × T.try_from_gives value tried
        × (result ≡ result_unwrap_or tried T.lowest) }
    ensures others { pos 0 ≤ℤ value → (tried : _) × T.try_from_gives value tried
        × (result ≡ result_unwrap_or tried T.highest) }
{
    if value < 0 {
        T::try_from(value).unwrap_or(T::min_value())
    } else {
        T::try_from(value).unwrap_or(T::max_value())
    }
}
