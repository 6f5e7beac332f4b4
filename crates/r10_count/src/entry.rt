//! One entry of a body.

ghost use Rattle.std.specs.Prelude.{◌≡◌, length, IfOk, IfSome, IfNone};
ghost use Rattle.r10_count.specs.Append.{Appends};
ghost use Rattle.r10_count.specs.Form.{Form};

use std::alloc::{AllocError, Global};

/// An entry of a packet's body. Counts are in units of 100 ns.
pub trait BodyEntry: Sized {
    /// How entries of this kind are spelled.
    ghost form: { Form Self };

    /// How many bytes tell an entry's length.
    fn front() -> usize
        ensures { result ≡ form.front };

    /// The length in bytes of an entry that begins so, if one does.
    fn entry_length(front: &[u8]) -> Option<usize>
        requires { length front.now ≡ form.front }
        ensures { result ≡ form.reported front.now };

    /// The channel specific data word of so many entries on a channel of this setting.
    fn word(setting: u32, count: usize) -> u32
        ensures { result ≡ form.word setting count };

    /// Whether a word of any writer goes with so many entries.
    fn agrees(word: u32, count: usize) -> bool
        ensures { result ≡ form.agrees word count };

    /// The count of its first data.
    fn count(&self) -> u64
        ensures { result ≡ form.count self.now };

    /// Whether it may come first in a packet of this counter.
    fn opens(&self, counter: u64) -> bool
        ensures { result ≡ form.opens counter self.now };

    /// Whether it may come in a channel of this setting.
    fn suits(&self, setting: u32) -> bool
        ensures { result ≡ form.suits setting self.now };

    /// How many bytes it has.
    fn size(&self, before: u64) -> usize
        requires { form.Fits before self.now }
        ensures { result ≡ form.size self.now };

    /// Adds its bytes after those of an entry at a count.
    fn encode_into(&self, before: u64, out: &mut Vec<u8>) -> Result<(), AllocError>
        requires { form.Fits before self.now }
        ensures { Appends (form.spelled before self.now) out.old out.new result };

    /// The entry that the writer spells with these bytes after an entry at a count, if there is one.
    fn read(alloc: Global, before: u64, bytes: &[u8]) -> Result<Option<Self>, AllocError>
        ensures found { IfOk result (λ read. IfSome read (λ e. form.Fits before e × (bytes.now ≡ form.spelled before e))) }
        ensures none { IfOk result
            (λ read. IfNone read ((e : Self) → form.Fits before e → bytes.now ≡ form.spelled before e → ⊥)) };
}
