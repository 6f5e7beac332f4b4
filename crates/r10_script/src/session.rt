//! Session scripts.

ghost use Rattle.std.specs.Prelude.{◌≡◌, ◌==◌, ◌∷◌, [], true, pos, Some, codes, IfOk, IsUtf8};
ghost use Rattle.std.specs.List.{list_any};
ghost use Rattle.toml.specs.Data.{Members};
ghost use Rattle.toml.specs.Parse.{parse_document};
ghost use Rattle.toml.specs.View.{table_view};
ghost use Rattle.r10_script.specs.Keys.{integer_at, items_at, items_or_none_at, HasOnly};
ghost use Rattle.r10_script.specs.Script.{AreScriptSettings, ItemsAsk};
ghost use Rattle.r10_script.specs.Session.{AreApart, AreOrders, IsFeed, IsItem, IsOrder, IsReader, IsTimed, is_order, session_keys};

use crate::offer::{message_of, only_item, spec_of};
use crate::script::toml_fault;
use crate::settings::settings_of;
use crate::step::event_of;
use crate::table::Fields;
use r10_body::{ChannelSpec, Kind, Timed};
use r10_count::{Count, Items};
use r10_machine::{Event, Settings};
use r10_text::{Place, ScriptFault};
use std::alloc::Global;

/// The words of orders and of a session's steps, as a fault says them.
const ORDERS: &str = "one of: mount, dismount, tick, start, stop, event, commit, seal, erase";

const CHANNEL: &str = "the ID of a channel table";

const OTHER_CHANNEL: &str = "the ID of a channel that no other feed has";

const COUNT: &str = "a whole number from 0 to 281474976710655";

/// An item of a feed.
#[derive(Drop)]
pub enum FeedItem {
    /// A message to be offered, with its count.
    Message(Timed),
    /// So many messages were lost before the next one.
    Lost(u64),
}

/// What is offered to a channel, or lost on it, in turn.
#[derive(Drop)]
pub struct FeedTable {
    pub channel: u16,
    pub items: Items<FeedItem>,
}

/// What a reader replays: of a file the entries on these channels, all where none is named, whose counts are in this range, both
/// ends with it.
#[derive(Drop)]
pub struct ReaderTable {
    pub file: usize,
    pub channels: Items<u16>,
    pub from: u64,
    pub to: u64,
}

/// What a session script asks for: a recorder of these settings; these steps in turn; and then these feeds, orders and readers at
/// the same time. Steps and orders are mount, dismount, tick, start, stop, event, commit, seal or erase.
#[derive(Drop)]
pub struct SessionScript {
    pub settings: Settings,
    pub steps: Vec<Event>,
    pub feeds: Vec<FeedTable>,
    pub orders: Vec<Event>,
    pub readers: Vec<ReaderTable>,
}

/// The session script that the text spells, in UTF-8: the settings, the channels, steps, feeds, orders and readers under their
/// keys, at most one feed for a channel.
pub fn read_session(alloc: Global, text: &[u8]) -> Result<SessionScript, ScriptFault>
    ensures text { IfOk result (λ _. IsUtf8 text.now) }
    ensures session { IfOk result (λ session. (table : Members) × (parse_document text.now ≡ Some table)
        × HasOnly session_keys table × AreScriptSettings table session.settings
        × AreOrders session.settings.channels table (codes "step") session.steps.items
        × ItemsAsk (IsFeed session.settings.channels) (items_or_none_at table (codes "feed")) session.feeds.items
        × AreOrders session.settings.channels table (codes "order") session.orders.items
        × ItemsAsk IsReader (items_or_none_at table (codes "reader")) session.readers.items) }
    ensures apart { IfOk result (λ session. AreApart session.feeds.items) }
{
    match session_of(alloc, text) {
        Ok(session) => Ok(session),
        Err(fault) => Err(fault.with_line(text)),
    }
}

/// The session script that the text spells. A fault after the text's form names no line.
fn session_of(alloc: Global, text: &[u8]) -> Result<SessionScript, ScriptFault>
    ensures text { IfOk result (λ _. IsUtf8 text.now) }
    ensures session { IfOk result (λ session. (table : Members) × (parse_document text.now ≡ Some table)
        × HasOnly session_keys table × AreScriptSettings table session.settings
        × AreOrders session.settings.channels table (codes "step") session.steps.items
        × ItemsAsk (IsFeed session.settings.channels) (items_or_none_at table (codes "feed")) session.feeds.items
        × AreOrders session.settings.channels table (codes "order") session.orders.items
        × ItemsAsk IsReader (items_or_none_at table (codes "reader")) session.readers.items) }
    ensures apart { IfOk result (λ session. AreApart session.feeds.items) }
{
    let table = match toml::table_from_slice(alloc, text) {
        Ok(table) => table,
        Err(error) => return Err(toml_fault(alloc, text, &error)),
    };
    let top = Fields::new(alloc, &table, Place::Top);
    top.only(&[
        "blocks",
        "directory",
        "volume",
        "nodes",
        "time",
        "event",
        "channel",
        "step",
        "feed",
        "order",
        "reader",
    ])?;
    let settings = settings_of(alloc, top)?;
    let steps = orders_of(alloc, settings.channels(), top, "step")?;
    let feeds = feeds_of(alloc, settings.channels(), top)?;
    let orders = orders_of(alloc, settings.channels(), top, "order")?;
    let readers = readers_of(alloc, top)?;
    Ok(SessionScript {
        settings,
        steps,
        feeds,
        orders,
        readers,
    })
}

/// The orders under a key.
fn orders_of(
    alloc: Global,
    channels: &[ChannelSpec],
    top: Fields<'_>,
    key: &'static str,
) -> Result<Vec<Event>, ScriptFault>
    ensures { IfOk result (λ orders. AreOrders channels.now (table_view top.entry.table.now) key.now orders.items) }
{
    let mut orders = Vec::new(alloc);
    let mut number = 0usize;
    for value in top.tables(key)? {
        number = number.saturating_add(1);
        let fields = top.table_of(value, key, place_of(key, number))?;
        orders.push(order_of(channels, fields)?)?;
    }
    Ok(orders)
}

fn place_of(key: &str, number: usize) -> Place {
    match key {
        "step" => Place::Step(number),
        _ => Place::Order(number),
    }
}

/// The order that a table spells. Its word is looked at first, so that a fault tells the words that orders have.
fn order_of(channels: &[ChannelSpec], fields: Fields<'_>) -> Result<Event, ScriptFault>
    ensures { IfOk result (λ event. IsOrder channels.now (table_view fields.entry.table.now) event) }
{
    let word = fields.text("do", ORDERS)?;
    match word {
        "mount" | "dismount" | "tick" | "start" | "stop" | "event" | "commit" | "seal" | "erase" =>
            (),
        _ => return Err(fields.fault_at("do", ORDERS)),
    }
    let event = event_of(channels, fields)?;
    if is_an_order(&event) {
        Ok(event)
    } else {
        Err(fields.fault_at("do", ORDERS))
    }
}

fn is_an_order(event: &Event) -> bool
    ensures { result ≡ is_order event.now }
{
    matches!(
        event,
        Event::Mount
            | Event::Dismount
            | Event::Tick { .. }
            | Event::Start { .. }
            | Event::Event { .. }
            | Event::Commit
            | Event::Stop
            | Event::Seal
            | Event::Erase
    )
}

fn feeds_of(
    alloc: Global,
    channels: &[ChannelSpec],
    top: Fields<'_>,
) -> Result<Vec<FeedTable>, ScriptFault>
    ensures feeds { IfOk result
        (λ feeds. ItemsAsk (IsFeed channels.now) (items_or_none_at (table_view top.entry.table.now) (codes "feed")) feeds.items) }
    ensures apart { IfOk result (λ feeds. AreApart feeds.items) }
{
    let mut feeds: Vec<FeedTable> = Vec::new(alloc);
    let mut number = 0usize;
    for value in top.tables("feed")? {
        number = number.saturating_add(1);
        let fields = top.table_of(value, "feed", Place::Feed(number))?;
        let feed = feed_of(alloc, channels, fields, number)?;
        if has_channel_of(&feeds, &feed) {
            return Err(fields.fault_at("channel", OTHER_CHANNEL));
        }
        feeds.push(feed)?;
    }
    Ok(feeds)
}

/// Whether one of the feeds is for the channel of this one.
fn has_channel_of(feeds: &[FeedTable], feed: &FeedTable) -> bool
    ensures { result ≡ list_any (λ other. other.channel == feed.now.channel) feeds.now }
{
    let channel = feed.channel;
    feeds.iter().any(|other| other.channel == channel)
}

fn feed_of(
    alloc: Global,
    channels: &[ChannelSpec],
    fields: Fields<'_>,
    number: usize,
) -> Result<FeedTable, ScriptFault>
    ensures { IfOk result (λ feed. IsFeed channels.now (table_view fields.entry.table.now) feed) }
{
    fields.only(&["channel", "items"])?;
    let channel = fields.short_of("channel", CHANNEL)?;
    let Some(spec) = spec_of(channels, channel) else {
        return Err(fields.fault_at("channel", CHANNEL));
    };
    let items = items_of(alloc, spec.kind, fields, number)?;
    Ok(FeedTable {
        channel,
        items: Items::of(items),
    })
}

fn items_of(
    alloc: Global,
    kind: Kind,
    fields: Fields<'_>,
    feed: usize,
) -> Result<Vec<FeedItem>, ScriptFault>
    ensures { IfOk result
        (λ items. ItemsAsk (IsItem kind) (items_at (table_view fields.entry.table.now) (codes "items")) items.items) }
{
    let mut items = Vec::new(alloc);
    let mut number = 0usize;
    for value in fields.needed_tables("items")? {
        number = number.saturating_add(1);
        let place = Place::Item { feed, number };
        let one = fields.table_of(value, "items", place)?;
        items.push(item_of(kind, one)?)?;
    }
    Ok(items)
}

fn item_of(kind: Kind, fields: Fields<'_>) -> Result<FeedItem, ScriptFault>
    ensures { IfOk result (λ item. IsItem kind (table_view fields.entry.table.now) item) }
{
    if fields.has("lost") {
        let lost = lost_of(fields)?;
        return Ok(FeedItem::Lost(lost));
    }
    let timed = timed_of(kind, fields)?;
    Ok(FeedItem::Message(timed))
}

/// How many messages were lost, the one key of such an item.
fn lost_of(fields: Fields<'_>) -> Result<u64, ScriptFault>
    ensures { IfOk result (λ lost. (integer_at (table_view fields.entry.table.now) (codes "lost") ≡ Some (pos lost))
        × HasOnly (codes "lost" ∷ []) (table_view fields.entry.table.now)) }
{
    fields.only(&["lost"])?;
    fields.count("lost")
}

fn timed_of(kind: Kind, fields: Fields<'_>) -> Result<Timed, ScriptFault>
    ensures { IfOk result (λ timed. IsTimed kind (table_view fields.entry.table.now) timed) }
{
    only_item(kind, fields)?;
    let Some(count) = Count::of(fields.count("count")?) else {
        return Err(fields.fault_at("count", COUNT));
    };
    let message = message_of(kind, fields)?;
    Ok(Timed { count, message })
}

fn readers_of(alloc: Global, top: Fields<'_>) -> Result<Vec<ReaderTable>, ScriptFault>
    ensures { IfOk result
        (λ readers. ItemsAsk IsReader (items_or_none_at (table_view top.entry.table.now) (codes "reader")) readers.items) }
{
    let mut readers = Vec::new(alloc);
    let mut number = 0usize;
    for value in top.tables("reader")? {
        number = number.saturating_add(1);
        let fields = top.table_of(value, "reader", Place::Reader(number))?;
        readers.push(reader_of(fields)?)?;
    }
    Ok(readers)
}

fn reader_of(fields: Fields<'_>) -> Result<ReaderTable, ScriptFault>
    ensures { IfOk result (λ reader. IsReader (table_view fields.entry.table.now) reader) }
{
    fields.only(&["file", "channels", "from", "to"])?;
    let file = fields.size("file")?;
    let channels = Items::of(fields.shorts("channels")?);
    let from = fields.count("from")?;
    let to = fields.count("to")?;
    Ok(ReaderTable {
        file,
        channels,
        from,
        to,
    })
}
