//! Packets that are passed over unread.

ghost use Rattle.std.specs.Prelude.{◌≡◌, ◌==◌};
ghost use Rattle.std.specs.List.{list_any};
ghost use Rattle.r10_body.specs.Foreign.{is_loss_report as loss_reports, known_types, selects_other as word_selects};
ghost use Rattle.r10_body.specs.Foreign.{is_opaque_packet as opaque};

use r10_event::EventBody;
use r10_indexbody::LossBody;
use r10_message::MessageBody;
use r10_packet::{
    Header, TYPE_ARINC, TYPE_BUS, TYPE_DISCRETE, TYPE_EVENT, TYPE_INDEX, TYPE_MESSAGE, TYPE_SETUP,
    TYPE_TIME, TYPE_UART, TYPE_USER,
};
use r10_setup::SetupBody;
use r10_timebody::TimeBody;
use r10_uart::UartBody;

/// Whether a packet with this header and body is opaque: it has a secondary header or its
/// intra-packet time is not the counter's, its data type isn't read here, or its channel specific
/// word selects a form that isn't read.
pub fn is_opaque(header: &Header, body: &[u8]) -> bool
    ensures { result ≡ opaque header.now body.now }
{
    header.flags / 0x80 % 2 == 1
        || header.flags / 0x40 % 2 == 1
        || !(is_known(header.data_type) || is_loss_report(header.data_type, body))
        || selects_other(header.data_type, body)
}

/// Whether packets of this data type are read.
fn is_known(data_type: u8) -> bool
    ensures { result ≡ list_any (λ type. type == data_type) known_types }
{
    data_type == TYPE_SETUP
        || data_type == TYPE_EVENT
        || data_type == TYPE_INDEX
        || data_type == TYPE_TIME
        || data_type == TYPE_BUS
        || data_type == TYPE_DISCRETE
        || data_type == TYPE_MESSAGE
        || data_type == TYPE_ARINC
        || data_type == TYPE_UART
}

/// Whether a packet of this data type with this body is a loss report.
fn is_loss_report(data_type: u8, body: &[u8]) -> bool
    ensures { result ≡ loss_reports data_type body.now }
{
    data_type == TYPE_USER && LossBody::is_report(body)
}

/// Whether the channel specific word of a body of this type selects a form that isn't read.
fn selects_other(data_type: u8, body: &[u8]) -> bool
    ensures { result ≡ word_selects data_type body.now }
{
    (data_type == TYPE_SETUP && SetupBody::is_opaque(body))
        || (data_type == TYPE_EVENT && EventBody::is_opaque(body))
        || (data_type == TYPE_INDEX && r10_indexbody::is_opaque(body))
        || (data_type == TYPE_TIME && TimeBody::is_opaque(body))
        || (data_type == TYPE_MESSAGE && MessageBody::is_opaque(body))
        || (data_type == TYPE_UART && UartBody::is_opaque(body))
}
