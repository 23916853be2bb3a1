//! Places in a text, which is a slice of bytes.
ghost use Rattle.std.specs.Prelude.{◌<◌, ◌≤◌, true, false, ⊤, length, slice_index, MatchOption};

// The first place whose byte passes, if any does.
fn first<F: Fn(u8) -> bool>(text: &[u8], passes: F) -> Option<usize>
    requires callable { F.IsAlwaysCallable passes }
    ensures passes { MatchOption result ⊤ (λ at. (at < length text.now) × F.post passes (slice_index text.now at) true) }
    ensures before { MatchOption result ((k : _) → k < length text.now → F.post passes (slice_index text.now k) false) (λ at. (k : _) → k < at → F.post passes (slice_index text.now k) false) }
{
    text.iter().position(|byte| passes(*byte))
}

/// The first place from `from` on whose byte passes, or the text's length.
pub fn first_from<F: Fn(u8) -> bool>(text: &[u8], from: usize, passes: F) -> usize
    requires callable { F.IsAlwaysCallable passes }
    requires within { from ≤ length text.now }
    ensures onward { from ≤ result }
    ensures within { result ≤ length text.now }
    ensures before { (k : _) → from ≤ k → k < result → F.post passes (slice_index text.now k) false }
    ensures stops { result < length text.now → F.post passes (slice_index text.now result) true }
{
    match first(&text[from..], passes) {
        Some(passed) => from + passed,
        None => text.len(),
    }
}
