//! A body: the channel specific data word, and entries.

ghost use Rattle.std.specs.Prelude.{◌≡◌, ◌↔◌, IsTrue, List, IfOk};
ghost use Rattle.r10_count.specs.Append.{Appends};
ghost use Rattle.r10_count.specs.Form.{IsBody, IsForeign, FitsAll, OpensAll, SuitsAll, body_bytes};
ghost use Rattle.r10_count.specs.Reading.{ReadsBody};
ghost use Rattle.r10_count.specs.declared.reading.Reading.TheVariants.{Strict};

use crate::entry::BodyEntry;
use crate::read::read_entries;
use crate::reading::Reading;
use crate::split::count_entries;
use crate::write::write_entries;
use crate::{Items, split_u32};
use std::alloc::{AllocError, Global};

/// Adds the body of these entries on a channel of this setting, in a packet of this counter.
/// Where memory is refused, nothing is added.
pub fn write_body<E: BodyEntry>(
    setting: u32,
    counter: u64,
    entries: &[E],
    out: &mut Vec<u8>,
) -> Result<(), AllocError>
    requires { FitsAll E.form counter entries.now }
    ensures { Appends (body_bytes E.form setting counter entries.now) out.old out.new result }
{
    let length = out.len();
    out.extend_from_slice(&E::word(setting, entries.len()).to_le_bytes())?;
    if let Err(error) = write_entries(counter, entries, out) {
        out.truncate(length);
        return Err(error);
    }
    Ok(())
}

/// Whether the first entry may come first, and each may come.
fn may_come<E: BodyEntry>(setting: u32, counter: u64, entries: &[E]) -> bool
    ensures { IsTrue result ↔ (OpensAll E.form counter entries.now × SuitsAll E.form setting entries.now) }
{
    let Some(first) = entries.first() else {
        return false;
    };
    first.opens(counter) && entries.iter().all(|entry| entry.suits(setting))
}

/// Reads a body in a packet of this counter: what it says on a channel of this setting.
pub fn read_body<E: BodyEntry + Drop>(
    alloc: Global,
    setting: u32,
    counter: u64,
    body: &[u8],
) -> Result<Reading<Items<E>>, AllocError>
    ensures found { IfOk result
        (ReadsBody (λ entries. IsBody E.form setting counter entries body.now) (IsForeign E.form body.now)) }
    ensures only { (entries : List E) → IsBody E.form setting counter entries body.now
        → IfOk result (λ reading. reading ≡ Strict entries) }
{
    let Some((word, rest)) = split_u32(body) else {
        return Ok(Reading::Neither);
    };
    let Some(count) = count_entries::<E>(rest) else {
        return Ok(Reading::Neither);
    };
    if !E::agrees(word, count) {
        return Ok(Reading::Neither);
    }
    if word != E::word(setting, count) {
        return Ok(Reading::Lenient);
    }
    let Some(entries) = read_entries::<E>(alloc, counter, rest)? else {
        return Ok(Reading::Lenient);
    };
    if may_come(setting, counter, entries.as_slice()) {
        Ok(Reading::Strict(entries))
    } else {
        Ok(Reading::Lenient)
    }
}
