// The tag of a record, made and taken apart. Nobody else divides a tag.
ghost use Rattle.std.specs.Prelude.{◌≡◌, ◌<◌};
ghost use Rattle.queue_event.specs.Tag.{mark_of, kind_field, padding_field, bypass_field, replace_field, side_field, machine_field};
ghost use Rattle.queue_event.specs.Tag.{flag, is_client, event_tag, aggregate_tag, stamp_tag};

use event::SimEvent;

// The number of the record's chain.
pub fn mark(tag: u64) -> u64
    ensures { result ≡ mark_of tag }
{
    tag % 16
}

// The number of the event's kind, which is its rank.
pub fn kind(tag: u64) -> u64
    ensures { result ≡ kind_field tag }
{
    tag / 16 % 16
}

pub fn padding(tag: u64) -> bool
    ensures { result ≡ flag (padding_field tag) }
{
    tag / 256 % 2 != 0
}

// The field of the bypass flag: 0 or 1.
pub fn bypass_field(tag: u64) -> u64
    ensures { result ≡ bypass_field tag }
{
    tag / 512 % 2
}

pub fn bypass(tag: u64) -> bool
    ensures { result ≡ flag (bypass_field tag) }
{
    bypass_field(tag) != 0
}

pub fn replace(tag: u64) -> bool
    ensures { result ≡ flag (replace_field tag) }
{
    tag / 1024 % 2 != 0
}

// The field of an aggregate's side: 0 is the client.
pub fn side_field(tag: u64) -> u64
    ensures { result ≡ side_field tag }
{
    tag / 2048 % 2
}

// Whether the aggregate is the client's.
pub fn client(tag: u64) -> bool
    ensures { result ≡ is_client (side_field tag) }
{
    side_field(tag) == 0
}

pub fn machine(tag: u64) -> u64
    ensures { result ≡ machine_field tag }
{
    tag / 4096 % 16
}

// The tag of an event in the chain of this number.
pub fn event_tag(chain: u64, event: SimEvent) -> u64
    requires chain { chain < 16 }
    requires kind { event.kind.0 < 16 }
    requires machine { event.machine < 16 }
    ensures { result ≡ event_tag chain event.kind.0 event.padding event.bypass event.replace event.machine }
{
    let flags = 256 * u64::from(event.padding)
        + 512 * u64::from(event.bypass)
        + 1024 * u64::from(event.replace);
    chain + 16 * event.kind.0 + flags + 4096 * event.machine
}

// The tag of a pending aggregate of a side.
pub fn aggregate_tag(client: bool) -> u64
    ensures { result ≡ aggregate_tag client }
{
    if client { 11 } else { 2059 }
}

// The tag of a stamp in the chain of this number.
pub fn stamp_tag(chain: u64) -> u64
    ensures { result ≡ stamp_tag chain }
{
    chain
}
