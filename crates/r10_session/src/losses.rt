//! Which feeds of a session have losses among their items.

ghost use Rattle.std.specs.Prelude.{◌≡◌, IfOk, map};
ghost use Rattle.std.specs.List.{list_any};
ghost use Rattle.r10_session.specs.Losses.{has_losses, is_loss};

use r10_script::{FeedItem, FeedTable};
use std::alloc::{AllocError, Global};

/// Whether one of these items is a loss.
fn has_loss(items: &[FeedItem]) -> bool
    ensures { result ≡ list_any is_loss items.now }
{
    items.iter().any(|item| matches!(item, FeedItem::Lost(_)))
}

/// Of each feed whether it has losses among its items.
pub(crate) fn losses_asked(alloc: Global, feeds: &[FeedTable]) -> Result<Vec<bool>, AllocError>
    ensures { IfOk result (λ asked. asked.items ≡ map has_losses feeds.now) }
{
    let mut asked = Vec::new(alloc);
    for feed in feeds {
        asked.push(has_loss(feed.items.as_slice()))?;
    }
    Ok(asked)
}
