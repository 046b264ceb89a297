// A plan is what a rule of a job decides: its answer, its event, and which of its stores come in which order.
ghost use Rattle.std.specs.Prelude.{◌≡◌};
ghost use Rattle.rules.specs.Plans.{refuse, entry_only, head_only, head_then_entry, entry_then_head, three_stores};

use crate::{Lay, Order, Plan};
use kinds::{Event, Head, Transaction};

// The plan that answers a refusal's number and stores nothing.
pub fn refuse(answer: u8, t: Transaction, h: Head) -> Plan
    ensures { result ≡ refuse answer t h }
{
    Plan {
        answer,
        event: Event::none(),
        order: Order::Neither,
        entry: t,
        head: h,
        change: false,
        lay: Lay::Nothing,
    }
}

// The plan that stores the entry alone, with no event.
pub fn entry_only(t: Transaction, h: Head) -> Plan
    ensures { result ≡ entry_only t h }
{
    Plan {
        answer: 0,
        event: Event::none(),
        order: Order::EntryOnly,
        entry: t,
        head: h,
        change: false,
        lay: Lay::Nothing,
    }
}

// The plan that stores the head alone, with no event; `change` says whether Committed's change comes with it.
pub fn head_only(t: Transaction, h: Head, change: bool) -> Plan
    ensures { result ≡ head_only t h change }
{
    Plan {
        answer: 0,
        event: Event::none(),
        order: Order::HeadOnly,
        entry: t,
        head: h,
        change,
        lay: Lay::Nothing,
    }
}

// The plan that stores the head and the values it lays, with the event, then the entry.
pub fn head_then_entry(event: Event, h: Head, change: bool, lay: Lay, t: Transaction) -> Plan
    ensures { result ≡ head_then_entry event h change lay t }
{
    Plan {
        answer: 0,
        event,
        order: Order::HeadThenEntry,
        entry: t,
        head: h,
        change,
        lay,
    }
}

// The plan that stores the entry, with the event, then the head.
pub fn entry_then_head(event: Event, t: Transaction, h: Head, change: bool) -> Plan
    ensures { result ≡ entry_then_head event t h change }
{
    Plan {
        answer: 0,
        event,
        order: Order::EntryThenHead,
        entry: t,
        head: h,
        change,
        lay: Lay::Nothing,
    }
}

// The plan of an accepted push: the values it lays over the target's, then the head and the same values over Applied's, with
// the event, then the entry.
pub fn three_stores(event: Event, h: Head, lay: Lay, t: Transaction) -> Plan
    ensures { result ≡ three_stores event h lay t }
{
    Plan {
        answer: 0,
        event,
        order: Order::TargetThenHeadThenEntry,
        entry: t,
        head: h,
        change: false,
        lay,
    }
}
