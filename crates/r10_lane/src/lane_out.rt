//! The end of a lane from which samples are taken.

ghost use Rattle.std.specs.Prelude.{◌≡◌, ◌≤◌, ◌++◌, ℕ, List, [], ◌∷◌, length, slice_get, Option, Some};
ghost use Rattle.std.specs.Prelude.{None, IfSome, MatchOption, option_copied};
ghost use Rattle.std.specs.Borrow.{sem};
ghost use Rattle.std.specs.Io.BufRead.{Rests};
ghost use Rattle.r10_count.specs.Count.{IsCount};
ghost use Rattle.r10_body.specs.Gaps.{IsSoundGap};
ghost use Rattle.r10_body.specs.Messages.{channel_refusal};
ghost use Rattle.r10_body.specs.declared.entry.Sample.{Sample as SampleValue};
ghost use Rattle.r10_body.specs.declared.spec.ChannelSpec.{ChannelSpec as ChannelSpecValue};
ghost use Rattle.r10_lane.specs.Lanes.{Gives};

use r10_body::{ChannelSpec, Sample};

/// The end of a lane from which samples are taken, the first accepted first.
///
/// - None of the calls takes memory. Each of them leaves in the lane what it doesn't give.
/// - A sample that is given passes its channel's check, its gap tells no loss of none, and its
///   count isn't below that of the one given before it.
/// - A lane is quiet where nobody else holds its sending end. Then all that waits is known, and
///   each call gives the first of it, or `None` exactly where nothing waits.
pub trait LaneOut {
    /// What the channel is set to.
    ghost spec_of: { Self → ChannelSpecValue };

    /// `took old samples new`: these samples were taken from the front of `old`, and `new` is left.
    ghost took: { Self → List SampleValue → Self → Type 0 };

    /// The next `take` gives this sample.
    ghost shows: { Self → SampleValue → Type 0 };

    /// The count that the lane has reached: no sample given is above it, none to come below it.
    ghost reached: { Self → ℕ };

    /// All that waits, where the lane is quiet.
    ghost quiet: { Self → Option (List SampleValue) };

    /// What the channel is set to.
    fn spec(&self) -> ChannelSpec
        ensures { result ≡ spec_of self.now };

    /// A law: the count that the lane has reached is one of 48 bits.
    fn in_range(&self)
        ensures { IsCount (reached self.now) };

    /// The first sample, which stays. The next `take`, and each `front` before it, give the same one.
    fn front(&mut self) -> Option<&Sample>
        ensures* after { sem 𝓛 (Rests Self.row self.entry (λ new. took self.old [] new
            × ((first : SampleValue) → shows self.old first → shows new first) × IfSome result (λ first. shows new first.now))) }
        ensures shown { (first : SampleValue) → shows self.old first → option_copied result ≡ Some first }
        ensures quiet { IfSome (quiet self.old) (λ waiting. option_copied result ≡ slice_get waiting 0) };

    /// Takes the first sample.
    fn take(&mut self) -> Option<Sample>
        ensures took { MatchOption result (took self.old [] self.new) (λ first. took self.old (first ∷ []) self.new) }
        ensures passes { IfSome result (λ first. channel_refusal (spec_of self.old) first.message ≡ None) }
        ensures sound { IfSome result (λ first. IsSoundGap first.gap) }
        ensures climbs { IfSome result (λ first. (reached self.old ≤ first.count) × (first.count ≤ reached self.new)) }
        ensures shown { (first : SampleValue) → shows self.old first → result ≡ Some first }
        ensures quiet { IfSome (quiet self.old) (λ waiting. result ≡ slice_get waiting 0) };

    /// How many samples wait: never more than the capacity.
    fn held(&mut self) -> usize
        ensures took { took self.old [] self.new }
        ensures room { result ≤ (spec_of self.old).capacity }
        ensures shown { (first : SampleValue) → shows self.old first → shows self.new first }
        ensures quiet { IfSome (quiet self.old) (λ waiting. result ≡ length waiting) };

    /// What was taken by one call and then by another was taken by both, in this order.
    ghost joins: { (a b c : Self) (xs ys : List SampleValue) → took a xs b → took b ys c → took a (xs ++ ys) c };

    ghost took_none: { (a b c : Self) (xs : List SampleValue) → took a xs b → took b [] c → took a xs c };

    /// From a lane that stays as it is nothing was taken.
    ghost stays: { (a : Self) → took a [] a };

    ghost keeps_spec: { (a b : Self) (xs : List SampleValue) → took a xs b → spec_of b ≡ spec_of a };

    ghost rises: { (a b : Self) (xs : List SampleValue) → took a xs b → reached a ≤ reached b };

    /// What was taken passes the channel's check, in counts that don't fall from what the lane had reached to what it has.
    ghost gives: { (a b : Self) (xs : List SampleValue) → took a xs b → Gives (spec_of a) (reached a) xs (reached b) };

    /// What is taken from a quiet lane is the front of what waits, and the rest waits on.
    ghost stays_quiet: { (a b : Self) (xs waiting : List SampleValue) → took a xs b → quiet a ≡ Some waiting
        → (rest : List SampleValue) × (quiet b ≡ Some rest) × (waiting ≡ xs ++ rest) };
}
