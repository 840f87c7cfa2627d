// Days: how many different colours a list has, and which of two lists has fewer.
#![tactic(auto)]

ghost use Rattle.std.specs.Prelude.{◌≡◌, ◌≢◌, false, cond, ℕ, ◌+◌, ◌≤◌, ◌<◌, length, get_or, take, drop, MatchOption, IfSome};
ghost use Rattle.lists.specs.Member.{Mem, elem};
ghost use Rattle.lists.specs.Different.{different};
ghost use Rattle.graph.specs.Color.{days_of, no_color};
ghost use Rattle.days.specs.FewerDays.{second_chosen, fewer_days, FewestDays};
ghost use Rattle.days.specs.Within.{within};

use graph::Color;

// One more than the greatest colour: so many days at most. A choice without a branch, so that the compiler can take many at once.
fn most_days(colors: &[u16]) -> u16
    ensures most { let colors = colors.entry.now in (c : ℕ) → Mem c colors → c ≢ no_color → c < result }
{
    let mut days = 0;
    for &color in colors {
        let day = if color == Color::NONE { 0 } else { color + 1 };
        days = days.max(day);
    }
    days
}

// The smallest colour from `from` on and below `most`. Without a branch, as above; the list is not read where no colour is between the two.
fn next_color(colors: &[u16], from: u16, most: u16) -> Option<u16>
    ensures next { let colors = colors.entry.now in
        MatchOption result ((c : ℕ) → Mem c colors → from ≤ c → most ≤ c)
        (λ next. (from ≤ next) × (next < most) × ((c : ℕ) → Mem c colors → from ≤ c → next ≤ c)) }
{
    if most <= from {
        return None;
    }
    let mut next = most;
    for &color in colors {
        let other = if color < from { most } else { color };
        next = next.min(other);
    }
    if next < most { Some(next) } else { None }
}

// How many different numbers the list has from `from` on, as far as there are marks: each counts where it sets its mark. Once all marks are
// set, the rest of the list can add none. From the back: where each place got the smallest free colour in turn, the greatest stand late.
fn count_marked(colors: &[u16], from: u16, marks: &mut [bool]) -> usize
    requires { (i : ℕ) → get_or marks.old i false ≡ false }
    ensures answer { let colors = colors.entry.now in let marks₀ = marks.old in result ≡ different (within from (from + length marks₀) colors) }
{
    let mut days = 0;
    for &color in colors.iter().rev() {
        if days == marks.len() {
            return days;
        }
        if from <= color {
            let place = (color - from) as usize;
            if place < marks.len() && !marks[place] {
                marks[place] = true;
                days += 1;
            }
        }
    }
    days
}

// The colours of one window: `length` of them, from `from` on. The fewer MARKS, the less there is to clear. Not inlined: where few marks do,
// the many take no stack.
#[inline(never)]
fn count_window<const MARKS: usize>(colors: &[u16], from: u16, length: usize) -> usize
    requires { (length ≤ MARKS) × (MARKS ≤ 32768) }
    ensures answer { let colors = colors.entry.now in result ≡ different (within from (from + length) colors) }
{
    let mut marks = [false; MARKS];
    count_marked(colors, from, &mut marks[..length])
}

// Any colours below `most`, 32,768 at a time, each time from the next one that stands in the list: twice at most, and never more often than
// there are different colours.
fn count_many(colors: &[u16], most: u16) -> usize
    ensures answer { let colors = colors.entry.now in result ≡ different (within 0 most colors) }
{
    let mut days = 0;
    let mut from = 0;
    while let Some(start) = next_color(colors, from, most) {
        let length = (most - start).min(32768);
        days += count_window::<32768>(colors, start, length as usize);
        from = start + length;
    }
    days
}

// Whether a number stands in the list. From the back: one that is coloured in order, and not to its end, has no colour there.
fn contains(colors: &[u16], number: u16) -> bool
    ensures answer { result ≡ elem number colors.now }
{
    colors.iter().rev().any(|&color| color == number)
}

// Without marks, for a short list: a number counts where it stands last.
fn count_searched(numbers: &[u16]) -> usize
    ensures answer { result ≡ different numbers.now }
{
    let mut count = 0;
    for i in (0..numbers.len()).rev() {
        if !contains(&numbers[i + 1..], numbers[i]) {
            count += 1;
        }
    }
    count
}

// The large colours, those from 4,096 on, in their order, to the back of a list: from which place on they stand there, if it has places for
// all. From the back, as `count_marked`.
fn copy_large(colors: &[u16], large: &mut [u16]) -> Option<usize>
    ensures copied { let colors = colors.entry.now in let large = large.new in
        IfSome result (λ place. (place ≤ length large) × (drop place large ≡ within 4096 no_color colors)) }
{
    let mut place = large.len();
    for &color in colors.iter().rev() {
        if (4096..Color::NONE).contains(&color) {
            if place == 0 {
                return None;
            }
            place -= 1;
            large[place] = color;
        }
    }
    Some(place)
}

// How many different colours there are: 65,535 is none. Linear in the list, whatever its colours are. At most 4,096 marks are cleared where
// the colours are small, and none for large ones in at most 64 places: these are searched.
pub fn days_of(colors: &[u16]) -> usize
    ensures answer { result ≡ days_of colors.now }
{
    let most = most_days(colors);
    if most <= 64 {
        return count_window::<64>(colors, 0, most as usize);
    }
    if most <= 4096 {
        return count_window::<4096>(colors, 0, most as usize);
    }
    let mut large = [0; 64];
    if let Some(place) = copy_large(colors, &mut large) {
        return count_window::<4096>(colors, 0, 4096) + count_searched(&large[place..]);
    }
    count_many(colors, most)
}

// Whether the second of two lists is chosen: where it has a colour everywhere, and fewer days or the first alone a place without a colour.
fn second_chosen(first: &[u16], second: &[u16]) -> bool
    ensures answer { result ≡ second_chosen first.now second.now }
{
    if contains(second, Color::NONE) {
        return false;
    }
    contains(first, Color::NONE) || days_of(second) < days_of(first)
}

// A leading part of one of two lists: which of them, and how long it is.
#[derive(Clone, Copy)]
pub struct LeadingPart {
    pub second: bool,
    pub length: usize,
}

// The first `m` numbers of the list that has fewer days among them, as which list and how many; none, of the first, if one is shorter.
pub fn fewer_days_part(first: &[u16], second: &[u16], m: usize) -> LeadingPart
    ensures answer { result ≡ fewer_days first.now second.now m }
{
    if first.len() < m || second.len() < m {
        return LeadingPart {
            second: false,
            length: 0,
        };
    }
    let chosen = second_chosen(&first[..m], &second[..m]);
    LeadingPart {
        second: chosen,
        length: m,
    }
}

// The same as a part of the list itself, which starts where the list starts.
pub fn fewer_days<'a>(first: &'a [u16], second: &'a [u16], m: usize) -> &'a [u16]
    ensures contents { let first = first.entry.now in let second = second.entry.now in
        let part = fewer_days first second m in
        result.now ≡ take part.length (cond part.second second first) }
    ensures place { let part = fewer_days first.now second.now m in
        (result.ref_ptr.0 ≡ cond part.second second.entry.ref_ptr.0 first.entry.ref_ptr.0)
        × (result.ref_ptr.1 ≡ cond part.second second.entry.ref_ptr.1 first.entry.ref_ptr.1) }
    ensures fewest { FewestDays first.now second.now m result.now }
{
    let part = fewer_days_part(first, second, m);
    let list = if part.second { second } else { first };
    &list[..part.length]
}
