//! The entry of a table that follows a serial. The used entries of a table stand in the order of their serials,
//! the deleted ones too: so the first one after a serial is found by halving, and from it on the first
//! one is taken that is there.
ghost use Rattle.std.specs.Prelude.{◌≡◌, ℕ, ◌+◌, ◌<◌, ◌≤◌, true, false, IfSome};
ghost use Rattle.ft_layout.specs.Tables.{dict_room};
ghost use Rattle.ft_iter.specs.Seeking.{is_there, Probed, FewProbes, FewHalvings, FewPassed, IsFirstAfter, IsFirstThere, Seeks};

use ft_keys::{Steps, Words};
use ft_layout::entry_word::{KEY_KIND, SERIAL};
use ft_layout::kind_of;
use ft_model::{Key, Sym};
use std::sync::ledger::Ledger;

/// Whether the kind is that of a key that is there: it is that of an integer or of a string.
fn says_there(kind: u64) -> bool
    ensures { result ≡ is_there kind }
{
    kind == kind_of(Key::Int(0)) || kind == kind_of(Key::Text(Sym(0)))
}

/// The half between two bounds that is left: the one up to the middle where its serial is greater, and else
/// the one after it.
fn half(low: u64, middle: u64, high: u64, is_greater: bool) -> (u64, u64)
    requires { (low ≤ middle) × (middle < high) }
    ensures lower { is_greater ≡ true → (result.0 ≡ low) × (result.1 ≡ middle) }
    ensures upper { is_greater ≡ false → (result.0 ≡ middle + 1) × (result.1 ≡ high) }
{
    if is_greater {
        (low, middle)
    } else {
        (middle + 1, high)
    }
}

/// The first place whose entry has a serial greater than this one, or `fill`: by halving, as serials
/// rise with the places.
fn first_after<W: Words, L: Ledger>(
    words: &mut W,
    fill: u64,
    last: u64,
    steps: &mut Steps<L>,
) -> u64
    requires can { W.can words.old }
    requires fill { fill ≤ dict_room (W.mask words.old) }
    ensures can { W.can words.new × (W.may_put words.old → W.may_put words.new) × (W.mask words.new ≡ W.mask words.old) }
    ensures low { result ≤ fill }
    ensures probed { Probed W.gave (W.mask words.old) words.old words.new steps.old steps.new
        (FewHalvings fill) (λ ws. IsFirstAfter (W.mask words.old) ws fill last result) }
{
    let mut low = 0;
    let mut high = fill;
    'halvings: while low < high {
        let middle = low + (high - low) / 2;
        steps.tick();
        let serial = words.entry(middle, SERIAL);
        let (lower, upper) = half(low, middle, high, serial > last);
        low = lower;
        high = upper;
    }
    low
}

/// The first place from this one on whose entry is there, if there is one below `fill`.
fn first_there<W: Words, L: Ledger>(
    words: &mut W,
    from: u64,
    fill: u64,
    steps: &mut Steps<L>,
) -> Option<u64>
    requires can { W.can words.old }
    requires fill { (from ≤ fill) × (fill ≤ dict_room (W.mask words.old)) }
    ensures can { W.can words.new × (W.may_put words.old → W.may_put words.new) × (W.mask words.new ≡ W.mask words.old) }
    ensures within { IfSome result (λ place. place < fill) }
    ensures probed { Probed W.gave (W.mask words.old) words.old words.new steps.old steps.new
        FewPassed (λ ws. IsFirstThere (W.mask words.old) ws from fill result) }
{
    for place in from..fill {
        steps.tick();
        let kind = words.entry(place, KEY_KIND);
        if says_there(kind) {
            return Some(place);
        }
    }
    None
}

/// The place of the live entry with the least serial that is greater than `after`, where nothing was
/// given yet the least of all: `None` exactly where there is none. `fill` is how many entries of the table
/// were used.
///
/// Each load is a step: it makes at most as many as `fill` has binary digits, one more, and one for each
/// deleted entry that it passes.
pub fn seek<W: Words, L: Ledger>(
    words: &mut W,
    fill: u64,
    after: Option<u64>,
    steps: &mut Steps<L>,
) -> Option<u64>
    requires can { W.can words.old }
    requires fill { fill ≤ dict_room (W.mask words.old) }
    ensures can { W.can words.new × (W.may_put words.old → W.may_put words.new) × (W.mask words.new ≡ W.mask words.old) }
    ensures within { IfSome result (λ place. place < fill) }
    ensures seeks { Probed W.gave (W.mask words.old) words.old words.new steps.old steps.new
        (FewProbes fill) (λ ws. Seeks (W.mask words.old) ws fill after result) }
{
    match after {
        Some(last) => {
            let from = first_after(words, fill, last, steps);
            first_there(words, from, fill, steps)
        }
        None => first_there(words, 0, fill, steps),
    }
}
