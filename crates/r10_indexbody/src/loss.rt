//! The body of a loss report.

ghost use Rattle.std.specs.Prelude.{◌≡◌, length, IfSome, IfNone};
ghost use Rattle.r10_count.specs.Append.{Appends};
ghost use Rattle.r10_indexbody.specs.Loss.{IsLossBody, loss_body, is_loss_body};
ghost use Rattle.r10_indexbody.specs.declared.loss.LossBody.{LossBody as LossBodyValue};

use r10_count::{append_all, split_u16, split_u32, split_u64};
use std::alloc::AllocError;

/// The letters `LOSS`.
const MARK: u32 = 0x5353_4F4C;

/// The body of a loss report: the channel specific data word, four letters, and of which channel how many messages were
/// refused because its lane was full. That such a packet has the data type 0x00 is this recorder's own choice.
#[derive(Clone, Copy, PartialEq, Eq)]
pub struct LossBody {
    /// The channel ID.
    pub channel: u16,
    /// Written 0.
    pub reserved: u16,
    /// How many messages were lost since the channel's message before.
    pub lost: u64,
}

impl LossBody {
    /// How many bytes the body has.
    pub fn size(&self) -> usize
        ensures { result ≡ length (loss_body self.now) }
    {
        20
    }

    /// The bytes of the body.
    pub fn encode(&self) -> [u8; 20]
        ensures { result ≡ loss_body self.now }
    {
        let [c0, c1] = self.channel.to_le_bytes();
        let [r0, r1] = self.reserved.to_le_bytes();
        let [n0, n1, n2, n3, n4, n5, n6, n7] = self.lost.to_le_bytes();
        [
            0, 0, 0, 0, b'L', b'O', b'S', b'S', c0, c1, r0, r1, n0, n1, n2, n3, n4, n5, n6, n7,
        ]
    }

    /// Adds the bytes of the body. Where memory is refused, nothing is added.
    pub fn encode_into(&self, out: &mut Vec<u8>) -> Result<(), AllocError>
        ensures { Appends (loss_body self.now) out.old out.new result }
    {
        append_all(out, &[&self.encode()])
    }

    /// The fields that a body tells, if it is a report's.
    pub fn decode(body: &[u8]) -> Option<LossBody>
        ensures found { IfSome result (λ read. IsLossBody read body.now) }
        ensures none { IfNone result ((reported : LossBodyValue) → IsLossBody reported body.now → ⊥) }
    {
        let (word, rest) = split_u32(body)?;
        let (mark, rest) = split_u32(rest)?;
        let (channel, rest) = split_u16(rest)?;
        let (reserved, rest) = split_u16(rest)?;
        let (lost, rest) = split_u64(rest)?;
        if word != 0 || mark != MARK || !rest.is_empty() {
            return None;
        }
        Some(LossBody {
            channel,
            reserved,
            lost,
        })
    }

    /// Whether a body of data type 0x00 is a report's: 20 bytes that begin so.
    pub fn is_report(body: &[u8]) -> bool
        ensures { result ≡ is_loss_body body.now }
    {
        let Some((word, rest)) = split_u32(body) else {
            return false;
        };
        let Some((mark, rest)) = split_u32(rest) else {
            return false;
        };
        word == 0 && mark == MARK && rest.len() == 12
    }
}
