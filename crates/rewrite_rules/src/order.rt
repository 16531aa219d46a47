//! Whether the operands of a line may move from their places on the left side to those on the right one.
ghost use Rattle.std.specs.Prelude.{◌≡◌, ◌≤◌, ◌-◌, ◌==◌, ◌&&◌, ◌||◌, not, length, take, drop};
ghost use Rattle.rewrite_rules.specs.Order.{Doing, effect_at, doing_of, is_in, is_twice, every, is_free, at_most_one_passes, are_free, back, before_end, may_move, in_neither};

/// What the code of an operand may do.
#[derive(Clone, Copy, Debug, PartialEq, Eq)]
pub struct Effects {
    pub writes: bool,
    pub traps: bool,
    pub asks: bool,
}

/// What an operand does that does nothing but leave its value.
const NOTHING: Effects = Effects {
    writes: false,
    traps: false,
    asks: false,
};

// What the operand with that index may do.
fn effects_at(effects: &[Effects], index: u8) -> Effects
    ensures { result ≡ effect_at effects.now index }
{
    effects.get(index as usize).copied().unwrap_or(NOTHING)
}

// Whether the index is one of these.
fn is_in(list: &[u8], index: u8) -> bool
    ensures { result ≡ is_in list.now index }
{
    for i in 0..list.len() {
        if index == list[i] {
            return true;
        }
    }
    false
}

// Whether the index stands there twice.
fn is_twice(list: &[u8], index: u8) -> bool
    ensures { result ≡ is_twice list.now index }
{
    for i in 0..list.len() {
        if list[i] == index {
            return is_in(&list[i + 1..], index);
        }
    }
    false
}

// Whether none of these but that one may trap.
fn others_never_trap(effects: &[Effects], list: &[u8], index: u8) -> bool
    ensures { result ≡ every (λ m. m == index || not (effect_at effects.now m).traps) list.now }
{
    for i in 0..list.len() {
        if list[i] != index && effects_at(effects, list[i]).traps {
            return false;
        }
    }
    true
}

// Whether at most one of these may trap.
fn at_most_one_traps(effects: &[Effects], list: &[u8]) -> bool
    ensures { result ≡ at_most_one_passes (λ n. (effect_at effects.now n).traps) list.now }
{
    for i in 0..list.len() {
        if effects_at(effects, list[i]).traps {
            return others_never_trap(effects, &list[i + 1..], list[i]);
        }
    }
    true
}

// Whether an operand of the left side writes nothing, may not trap where it is left out, and asks nothing where it stands twice.
fn is_free(effects: &[Effects], left: &[u8], right: &[u8], index: u8) -> bool
    ensures { result ≡ is_free (doing_of effects.now) left.now right.now index }
{
    let may = effects_at(effects, index);
    !may.writes
        && (is_in(right, index) || !may.traps)
        && (!may.asks || !is_twice(left, index) && !is_twice(right, index))
}

// Whether operands that stand in other places may move.
fn are_free(effects: &[Effects], left: &[u8], right: &[u8]) -> bool
    ensures { result ≡ are_free (doing_of effects.now) left.now right.now }
{
    for i in 0..left.len() {
        if !is_free(effects, left, right, left[i]) {
            return false;
        }
    }
    at_most_one_traps(effects, left)
}

// Whether an operand is the same on both sides, and stands in neither of what is left of these.
fn is_fixed(index: u8, other: u8, left: &[u8], right: &[u8]) -> bool
    ensures { result ≡ (index == other && in_neither left.now right.now index) }
{
    index == other && !is_in(left, index) && !is_in(right, index)
}

// How many operands run first on both sides, and nowhere else.
fn same_front(left: &[u8], right: &[u8]) -> usize
    ensures few { (result ≤ length left.now) × (result ≤ length right.now) }
    ensures front { (may : Doing) → may_move may left.now right.now
        ≡ before_end may (back (drop result left.now)) (back (drop result right.now)) }
{
    let mut count = 0;
    while count < left.len() && count < right.len() {
        let behind = count + 1;
        if !is_fixed(left[count], right[count], &left[behind..], &right[behind..]) {
            return count;
        }
        count = behind;
    }
    count
}

// How many operands run last on both sides, and nowhere else.
fn same_back(left: &[u8], right: &[u8]) -> usize
    ensures few { (result ≤ length left.now) × (result ≤ length right.now) }
    ensures back { (may : Doing) → before_end may (back left.now) (back right.now)
        ≡ are_free may (take (length left.now - result) left.now)
        (take (length right.now - result) right.now) }
{
    let mut count = 0;
    while count < left.len() && count < right.len() {
        let end = left.len() - count - 1;
        let other = right.len() - count - 1;
        if !is_fixed(left[end], right[other], &left[..end], &right[..other]) {
            return count;
        }
        count += 1;
    }
    count
}

/// Whether operands with these effects may move from their places on the left side to those on the right one; `left` and `right` are
/// the holes of the sides in the order in which they run, `effects` is by their indices.
pub fn may_move(effects: &[Effects], left: &[u8], right: &[u8]) -> bool
    ensures { result ≡ may_move (doing_of effects.now) left.now right.now }
{
    let front = same_front(left, right);
    let left = &left[front..];
    let right = &right[front..];
    let back = same_back(left, right);
    are_free(
        effects,
        &left[..left.len() - back],
        &right[..right.len() - back],
    )
}
