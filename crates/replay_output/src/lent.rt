// What stands in a lent slice before its call, and whether the call left it so.
ghost use Rattle.std.specs.Prelude.{◌≡◌, ℕ, true, refl, min, length, take};
ghost use Rattle.std.proofs.Common.{eq-eqb, eqb-true};
ghost use Rattle.replay_output.specs.Lent.{number_at, byte_at, Lent};

use std::fmt::Display;

// A number of a lent slice.
pub trait Number: Copy + PartialEq + Display + Drop {
    ghost standing_at: { ℕ → Self };

    ghost narrowed: { ℕ → Self };

    // What stands at a place before the call: unlike its neighbours and what a call writes, so that a place that was written shows.
    fn standing_at(place: usize) -> Self
        ensures { result ≡ standing_at place };

    // A number as a slice holds it; one that is too large becomes the greatest.
    fn narrowed(value: usize) -> Self
        ensures { result ≡ narrowed value };

    ghost equals: { (x y : Self) → Self.eq x y ≡ true → x ≡ y };

    ghost itself: { (x : Self) → Self.eq x x ≡ true };
}

impl Number for u16 {
    ghost standing_at = { number_at };

    ghost narrowed = { λ value. min value 65535 };

    fn standing_at(place: usize) -> u16 {
        (60000 + place % 5000) as u16
    }

    fn narrowed(value: usize) -> u16 {
        u16::try_from(value).unwrap_or(u16::MAX)
    }

    ghost equals = { eqb-true };

    ghost itself = { λ x. eq-eqb x x refl };
}

impl Number for u8 {
    ghost standing_at = { byte_at };

    ghost narrowed = { λ value. min value 255 };

    fn standing_at(place: usize) -> u8 {
        (100 + place % 100) as u8
    }

    fn narrowed(value: usize) -> u8 {
        u8::try_from(value).unwrap_or(u8::MAX)
    }

    ghost equals = { eqb-true };

    ghost itself = { λ x. eq-eqb x x refl };
}

// As many of the list's numbers as are wanted, or all that it has.
pub fn front<T>(list: &[T], wanted: usize) -> &[T]
    ensures { result.now ≡ take wanted list.now }
{
    &list[..wanted.min(list.len())]
}

// A slice as it stands before a call.
pub fn lend<T: Number>(list: &mut [T])
    ensures lent { Lent T.standing_at list.new }
{
    for (place, number) in list.iter_mut().enumerate() {
        *number = T::standing_at(place);
    }
}

// As many of the list's places as are wanted, or all that it has, as they stand before a call.
pub fn lend_front<T: Number>(list: &mut [T], wanted: usize) -> &mut [T]
    ensures count { length result.now ≡ min wanted (length list.old) }
    ensures lent { Lent T.standing_at result.now }
{
    let count = wanted.min(list.len());
    let lent = &mut list[..count];
    lend(lent);
    lent
}

pub(crate) fn unchanged<T: Number>(list: &[T]) -> bool
    ensures answer { let list = list.entry.now in (result ≡ true → Lent T.standing_at list) × (Lent T.standing_at list → result ≡ true) }
{
    list.iter()
        .enumerate()
        .all(|(place, number)| *number == T::standing_at(place))
}
