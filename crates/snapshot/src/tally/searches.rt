//! The least element with which something is wrong.

ghost use Rattle.std.specs.Prelude.{◌≡◌, ◌≢◌, ◌+◌, ◌<◌, ◌≤◌, ℕ, IfNone, IfSome, length, max, min, slice_index};

/// The least index of a number above 1.
pub(crate) fn repeated(own: &[u32]) -> Option<usize>
    ensures found { IfSome result (λ e. (e < length own.now) × (1 < slice_index own.now e) ×
        ((i : ℕ) → i < e → slice_index own.now i ≤ 1)) }
    ensures none { IfNone result ((i : ℕ) → i < length own.now → slice_index own.now i ≤ 1) }
{
    for (elem, times) in own.iter().enumerate() {
        if *times > 1 {
            return Some(elem);
        }
    }
    None
}

/// The least element that is free twice, or free and held.
pub(crate) fn doubled(free: &[u32], held: &[u32]) -> Option<usize>
    requires { length free.now ≡ length held.now }
    ensures found { IfSome result (λ e. (e < length held.now) ×
        (1 < slice_index free.now e + min 1 (slice_index held.now e)) ×
        ((i : ℕ) → i < e → slice_index free.now i + min 1 (slice_index held.now i) ≤ 1)) }
    ensures none { IfNone result ((i : ℕ) → i < length held.now → slice_index free.now i + min 1 (slice_index held.now i) ≤ 1) }
{
    for (elem, holds) in held.iter().enumerate() {
        if u64::from(free[elem]) + u64::from(*holds).min(1) > 1 {
            return Some(elem);
        }
    }
    None
}

/// The least element that is neither free nor held.
pub(crate) fn lost(free: &[u32], held: &[u32]) -> Option<usize>
    requires { length free.now ≡ length held.now }
    ensures found { IfSome result (λ e. (e < length held.now) × (slice_index free.now e + slice_index held.now e ≡ 0) ×
        ((i : ℕ) → i < e → 0 < slice_index free.now i + slice_index held.now i)) }
    ensures none { IfNone result ((i : ℕ) → i < length held.now → 0 < slice_index free.now i + slice_index held.now i) }
{
    for (elem, holds) in held.iter().enumerate() {
        if u64::from(free[elem]) + u64::from(*holds) == 0 {
            return Some(elem);
        }
    }
    None
}

/// The least element whose count isn't the number of its holds, or isn't 1 where nobody holds it.
pub(crate) fn miscounted(counts: &[u32], held: &[u32]) -> Option<usize>
    requires { length counts.now ≡ length held.now }
    ensures found { IfSome result (λ e. (e < length held.now) ×
        (slice_index counts.now e ≢ max 1 (slice_index held.now e)) ×
        ((i : ℕ) → i < e → slice_index counts.now i ≡ max 1 (slice_index held.now i))) }
    ensures none { IfNone result ((i : ℕ) → i < length held.now → slice_index counts.now i ≡ max 1 (slice_index held.now i)) }
{
    for (elem, holds) in held.iter().enumerate() {
        if counts[elem] != (*holds).max(1) {
            return Some(elem);
        }
    }
    None
}
