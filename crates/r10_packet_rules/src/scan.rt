//! Entries read where they stand.

ghost use Rattle.std.specs.Prelude.{◌≡◌, ◌++◌, ◌≤◌, ◌&&◌, ℕ, List, map, max, nat_le, true, IfSome, IfNone, length};
ghost use Rattle.r10_count.specs.Form.{IsBody};
ghost use Rattle.r10_packet.specs.Limits.{longest_packet};
ghost use Rattle.r10_packet_rules.specs.Glance.{AreEntries, IsGlimpse};
ghost use Rattle.r10_packet_rules.specs.Tally.{tally_of};

use crate::facts::Spread;
use crate::tally::EntryTally;
use r10_body::ChannelEntry;
use r10_count::{Count, split_u32};

/// What an entry comes to.
#[derive(Clone, Copy)]
pub(crate) struct Glimpse {
    pub(crate) count: Count,
    /// What it costs in a file.
    pub(crate) cost: u64,
}

/// An entry of a body that is read where it stands.
pub(crate) trait ScannedEntry: ChannelEntry {
    /// Whether an entry at this count may come first in a packet of this counter.
    fn may_open(counter: u64, count: Count) -> bool
        ensures { (e : Self) → Self.form.count e ≡ count → result ≡ Self.form.opens counter e };

    /// What the entry comes to that stands first, and the bytes after it, if the writer spells one so after
    /// an entry at a count, on a channel of this setting.
    fn glance(setting: u32, before: u64, bytes: &[u8]) -> Option<(Glimpse, &[u8])>
        ensures found { IfSome result (λ x. (e : Self)
            × IsGlimpse Self.form Self.channel.said setting before (Self.form.spelled before e) x.0 e
            × (bytes.now ≡ Self.form.spelled before e ++ x.1.now)) }
        ensures none { IfNone result ((e : Self) (rest : List ℕ) → Self.form.Fits before e → Self.form.suits setting e ≡ true
            → bytes.now ≡ Self.form.spelled before e ++ rest → ⊥) };
}

/// The greater of two counts.
#[inline(always)]
fn higher(greatest: Count, count: Count) -> Count
    ensures { result ≡ max greatest count }
{
    if greatest <= count { count } else { greatest }
}

/// Whether counts rise with one after them: while they do, the last one is the greatest.
#[inline(always)]
fn goes_on(rise: bool, greatest: Count, count: Count) -> bool
    ensures { result ≡ (rise && nat_le greatest count) }
{
    rise && greatest <= count
}

/// What the entries come to that the writer makes these bytes of, on a channel of this setting and in a packet of this
/// counter, if there are such. It is a function of its own in the program too, so that what each turn carries stays in registers.
#[inline(never)]
fn scan<E: ScannedEntry>(setting: u32, counter: u64, bytes: &[u8]) -> Option<EntryTally>
    requires { length bytes.now ≤ longest_packet }
    ensures found { IfSome result (λ t. (entries : List E) × AreEntries E.form setting counter entries bytes.now
        × (t ≡ tally_of (map E.channel.said entries))) }
    ensures none { IfNone result ((entries : List E) → AreEntries E.form setting counter entries bytes.now → ⊥) }
{
    let Some((first, behind)) = E::glance(setting, counter, bytes) else {
        return None;
    };
    if !E::may_open(counter, first.count) {
        return None;
    }
    let mut rest = behind;
    let mut entries = 1;
    let mut cost = first.cost;
    let mut last = first.count;
    let mut greatest = first.count;
    let mut rise = true;
    while let Some((glimpse, after)) = E::glance(setting, last.get(), rest) {
        last = glimpse.count;
        rise = goes_on(rise, greatest, last);
        greatest = higher(greatest, last);
        entries += 1;
        cost += glimpse.cost;
        rest = after;
    }
    if !rest.is_empty() {
        return None;
    }
    Some(EntryTally {
        entries,
        cost,
        counts: Some(Spread {
            first: first.count,
            last,
            greatest,
            rise,
        }),
    })
}

/// What the entries of a body come to, if the writer makes the body of some on a channel of this setting, in a packet of
/// this counter.
pub(crate) fn scan_body<E: ScannedEntry>(
    setting: u32,
    counter: u64,
    body: &[u8],
) -> Option<EntryTally>
    requires { length body.now ≤ longest_packet }
    ensures found { IfSome result (λ t. (entries : List E) × IsBody E.form setting counter entries body.now
        × (t ≡ tally_of (map E.channel.said entries))) }
    ensures none { IfNone result ((entries : List E) → IsBody E.form setting counter entries body.now → ⊥) }
{
    let Some((word, rest)) = split_u32(body) else {
        return None;
    };
    let Some(tally) = scan::<E>(setting, counter, rest) else {
        return None;
    };
    let number = tally.entries;
    if word != E::word(setting, number) || !E::agrees(word, number) {
        return None;
    }
    Some(tally)
}
