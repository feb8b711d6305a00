//! Many events in memory, to measure how long they take.

use crate::world::World;
use hg_desk::share::{Column, Opening};
use hg_model::event::{Access, Event};
use hg_protocol::frame::Frame;
use hg_protocol::put::put_frame;
use hg_test_kit::text::Text;
use std::alloc::Global;

/// How many events are sent before each Ask.
const WINDOW: u64 = 256;

/// The event of a number: thread 0 writes one word after another, 4,096 in all.
fn event_of(number: u64) -> Event {
    Event::Write(Access {
        t: 0,
        at: 4096 + number % 4096 * 4,
        len: 4,
    })
}

/// How much was sent and answered.
#[derive(Clone, Copy)]
struct Counts {
    frames: u64,
    bytes: u64,
}

/// Hands over what was sent, and counts what is answered.
fn hand_over<A: Opening, B: Column>(
    alloc: Global,
    world: &mut World<A, B>,
    sent: &mut Vec<u8>,
    counts: &mut Counts,
) {
    let Ok(fed) = world.frames.push(sent.as_slice()) else {
        return;
    };
    for frame in fed.messages.iter() {
        world.answer(alloc, frame);
    }
    counts.frames = counts.frames.wrapping_add(fed.messages.len() as u64);
    counts.bytes = counts.bytes.wrapping_add(world.answered.len() as u64);
    world.answered.clear();
    sent.clear();
}

/// Sends so many events of source 0, with an Ask behind each 256, and tells how many frames and bytes came back.
pub fn load<A: Opening, B: Column>(
    alloc: Global,
    world: &mut World<A, B>,
    digits: &str,
    out: &mut Text,
) {
    let count = digits.parse::<u64>().unwrap_or(0);
    let mut sent = Vec::new(alloc);
    let mut counts = Counts {
        frames: 0,
        bytes: 0,
    };
    let _ = put_frame(&Frame::Hello { source: 0 }, &mut sent);
    for i in 0..count {
        let _ = put_frame(
            &Frame::Event {
                number: i + 1,
                event: event_of(i),
            },
            &mut sent,
        );
        if i % WINDOW == WINDOW - 1 {
            let _ = put_frame(&Frame::Ask, &mut sent);
            hand_over(alloc, world, &mut sent, &mut counts);
        }
    }
    hand_over(alloc, world, &mut sent, &mut counts);
    out.put_number(b"load frames ", counts.frames);
    out.put_number(b" bytes ", counts.bytes);
}
