//! Drives both inboxes and a plain model through the same long histories of calls, and prints what came of it.
#![tactic(auto)]

use inbox::limits::{LONGEST_ITEM, Limits};
use packed_inbox::packed_inbox::PackedInbox;
use slot_inbox::slot_inbox::SlotInbox;
use std::io;

mod call;
mod counts;
mod generator;
mod history;
mod model;
mod pattern;
mod perform;
mod senders;

const CALLS: u32 = 6000;

const SENDERS: usize = 5;

const LIFE: usize = 4;

// As many bytes as a slot inbox may hold.
const ROOM: usize = SENDERS * LONGEST_ITEM;

const SMALL_ROOM: usize = 1500;

// Two runs and no generic one: each makes inboxes of its own types, over memory of its own.

// A slot inbox and a packed inbox of the same limits.
fn slot_and_packed(limits: Limits) -> counts::Counts {
    let mut memory = [170; ROOM];
    let mut slots = SlotInbox::new(limits);
    let mut packed = PackedInbox::new(limits, &mut memory);
    let mut plain = model::Model::new(limits, ROOM);
    history::run(&mut slots, &mut packed, &mut plain, 1, CALLS)
}

// Two packed inboxes over small memories that held other bytes before.
fn small_and_packed(limits: Limits) -> counts::Counts {
    let mut zeros = [0; SMALL_ROOM];
    let mut ones = [255; SMALL_ROOM];
    let mut first = PackedInbox::new(limits, &mut zeros);
    let mut second = PackedInbox::new(limits, &mut ones);
    let mut plain = model::Model::new(limits, SMALL_ROOM);
    history::run(&mut first, &mut second, &mut plain, 2, CALLS)
}

fn main(rt: HostRuntime) -> io::Result<()> {
    let Ok(limits) = Limits::check(SENDERS, LIFE) else {
        return println!(rt; "limits refused");
    };
    println!(rt; "slot and packed inbox: {}", slot_and_packed(limits))?;
    println!(rt; "small packed inboxes: {}", small_and_packed(limits))
}
