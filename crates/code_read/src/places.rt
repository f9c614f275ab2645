//! From addresses to the numbers of instructions.

ghost use Rattle.std.specs.Prelude.{◌≡◌, ◌≤◌, length, pos, ◌+ℤ◌, ◌<ℤ◌, IfNone, IfSome};
ghost use Rattle.code_read.specs.Linked.{target_number};
ghost use Rattle.code_read.specs.Places.{Rises, count_below, position, target_at};
ghost use Rattle.code_read.specs.inner.Places.{IsCountBelow};

/// Where the addresses that are not below `x` begin.
fn split(starts: &[u32], x: u64) -> usize
    requires { Rises starts.now }
    ensures { IsCountBelow starts.now x result }
{
    let mut low = 0;
    let mut high = starts.len();
    while low < high {
        let middle = low + (high - low) / 2;
        if u64::from(starts[middle]) < x {
            low = middle + 1;
        } else {
            high = middle;
        }
    }
    low
}

/// How many addresses are below `x`.
pub fn below(starts: &[u32], x: u64) -> usize
    requires { Rises starts.now }
    ensures counted { result ≡ count_below x starts.now }
    ensures within { result ≤ length starts.now }
{
    split(starts, x)
}

/// The unit that is `offset` units from `base`.
pub(crate) fn unit_at(base: u32, offset: i32) -> Option<u64>
    ensures none { IfNone result ((pos base +ℤ offset) <ℤ pos 0) }
    ensures some { IfSome result (λ n. pos n ≡ (pos base +ℤ offset)) }
{
    let unit = i64::from(base) + i64::from(offset);
    if unit < 0 { None } else { Some(unit as u64) }
}

/// The number of the instruction that begins at the unit.
pub fn number_at(starts: &[u32], unit: u64) -> Option<u32>
    requires rises { Rises starts.now }
    requires few { length starts.now ≤ 4294967295 }
    ensures { result ≡ position starts.now unit }
{
    let n = split(starts, unit);
    if n >= starts.len() {
        return None;
    }
    if u64::from(starts[n]) != unit {
        return None;
    }
    Some(n as u32)
}

/// The number of the instruction that is `offset` units from the address `base`.
fn target_at(starts: &[u32], base: u32, offset: i32) -> Option<u32>
    requires rises { Rises starts.now }
    requires few { length starts.now ≤ 4294967295 }
    ensures { result ≡ target_at starts.now base offset }
{
    match unit_at(base, offset) {
        Some(unit) => number_at(starts, unit),
        None => None,
    }
}

/// The number of the instruction that is `offset` units from the address `base`; if there is none, the number after the last.
#[tactic(auto, unfolding(crate::specs::Linked::target_number))]
pub(crate) fn target_number(starts: &[u32], base: u32, offset: i32) -> u32
    requires rises { Rises starts.now }
    requires few { length starts.now ≤ 4294967295 }
    ensures { result ≡ target_number starts.now base offset }
{
    match target_at(starts, base, offset) {
        Some(to) => to,
        None => starts.len() as u32,
    }
}
