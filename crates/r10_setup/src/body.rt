//! The body of a setup packet.

ghost use Rattle.std.specs.Prelude.{◌≡◌, ◌↔◌, ℕ, List, length, IsTrue, IfOk};
ghost use Rattle.r10_count.specs.Append.{Appends};
ghost use Rattle.r10_count.specs.Reading.{ReadsBody};

use r10_count::{Reading, append_all, split_u32};
use r10_packet::LONGEST_BODY;
use std::alloc::{AllocError, Global};

/// The channel specific data word: ASCII text, configuration unchanged, and release 0x0C, which is
/// this recorder's own choice.
const WORD: u32 = 0x0000_000C;

/// The most bytes that a setup text of this recorder has: those of a body after its word.
pub const LONGEST_TEXT: usize = LONGEST_BODY - 4;

/// The body of a setup packet: the channel specific data word, and the setup text as it is.
/// Source: IRIG 106-17 chapter 11, computer-generated data packets, format 1.
#[derive(Clone, Copy)]
pub struct SetupBody<'a> {
    /// The setup text.
    pub text: &'a [u8],
}

impl<'a> SetupBody<'a> {
    ghost use Rattle.r10_setup.specs.Setup.{FitsSetup, IsSetup, IsForeignSetup, IsText, setup_body, is_opaque_setup};

    /// Whether a packet has room for the text.
    pub fn check(&self) -> bool
        ensures { IsTrue result ↔ FitsSetup self.now.text.now }
    {
        self.text.len() <= LONGEST_TEXT
    }

    /// How many bytes the body has.
    pub fn size(&self) -> usize
        ensures { result ≡ length (setup_body self.now.text.now) }
    {
        4 + self.text.len()
    }

    /// Adds the bytes of the body. Where memory is refused, nothing is added.
    pub fn encode_into(&self, out: &mut Vec<u8>) -> Result<(), AllocError>
        ensures { Appends (setup_body self.now.text.now) out.old out.new result }
    {
        append_all(out, &[&WORD.to_le_bytes(), self.text])
    }

    /// The bytes of the body.
    pub fn encode(&self, alloc: Global) -> Result<Vec<u8>, AllocError>
        ensures { IfOk result (λ v. v.items ≡ setup_body self.now.text.now) }
    {
        let mut body = Vec::new(alloc);
        self.encode_into(&mut body)?;
        Ok(body)
    }

    /// Reads a body: the text that this recorder writes as these bytes, or whether another
    /// recorder may have written them. Another recorder's word is not judged.
    pub fn decode(body: &'a [u8]) -> Reading<SetupBody<'a>>
        ensures found { ReadsBody (λ setup. IsSetup setup.text.now body.now) (IsForeignSetup body.now) result }
        ensures only { (text : List ℕ) → IsSetup text body.now → IsText text result }
    {
        match split_u32(body) {
            Some((WORD, text)) => Reading::Strict(SetupBody { text }),
            Some(_) => Reading::Lenient,
            None => Reading::Neither,
        }
    }

    /// Whether the word of a body says that its text is XML. Such a body isn't read.
    pub fn is_opaque(body: &[u8]) -> bool
        ensures { result ≡ is_opaque_setup body.now }
    {
        match split_u32(body) {
            Some((word, _)) => word / 0x200 % 2 == 1,
            None => false,
        }
    }
}
