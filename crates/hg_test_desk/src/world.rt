//! A store, and the conversation with it that is under way.

ghost use Rattle.std.specs.Prelude.{◌≡◌, IfSome};
ghost use Rattle.hg_model.specs.Change.{empty_content};
ghost use Rattle.hg_desk.specs.Blanks.{IsBlankOf};
ghost use Rattle.hg_desk.specs.Going.{began};
ghost use Rattle.hg_store.specs.Shown.{live};
ghost use Rattle.hg_store.specs.Store.{IsFresh};

use crate::load::load;
use crate::replies::{put_fault, tell_reply};
use hg_desk::desk::Desk;
use hg_desk::locked::Core;
use hg_desk::share::{Column, Opening, Share};
use hg_disk::{Disk, MemDisk};
use hg_protocol::feed::{Fed, Feed, FeedRefusal};
use hg_protocol::frame::Frame;
use hg_protocol::put::put_reply;
use hg_protocol::reply::{Reply, ReplyFeed};
use hg_receipts::Blank as BlankRegister;
use hg_store::devices::{Caps, Devices};
use hg_store::store::Store;
use hg_test_kit::digits::put_spelled;
use hg_test_kit::text::{Text, roomy};
use hg_test_kit::tokens::front;
use std::alloc::{AllocError, Global};
use std::marker::Brand;
use std::sync::ledger::Blank;

/// How many calls and bytes each disk has room for beforehand: where memory is refused within them, it is the store that tells.
const ROOM_OF_CALLS: usize = 4096;

const ROOM_OF_BYTES: usize = 1 << 20;

/// How many bytes of a piece, and of what it is answered, there is room for beforehand.
const ROOM_OF_BYTES_SENT: usize = 4_096;

/// A store, what its one thread was told, and a conversation.
pub struct World<A: Opening, B: Column> {
    pub core: Core<MemDisk, A, B>,
    pub share: Share<A, B>,
    pub desk: Desk,
    pub frames: Feed<Frame>,
    pub replies: ReplyFeed,
    pub answered: Vec<u8>,
    /// What a client or a server sent last.
    sent: Vec<u8>,
}

impl<A: Opening, B: Column> Drop for World<A, B> {
    fn drop(self) {
        let World {
            core: _,
            share: _,
            desk: _,
            frames: _,
            replies: _,
            answered: _,
            sent: _,
        } = self;
    }
}

impl<A: Opening, B: Column> World<A, B> {
    /// Answers one frame. Where memory is refused for its bytes, they are left out.
    pub fn answer(&mut self, alloc: Global, frame: &Frame) {
        let reply = self
            .desk
            .answer(alloc, &mut self.core, &mut self.share, frame);
        let _ = put_reply(&reply, &mut self.answered);
    }

    fn answer_all(&mut self, alloc: Global, fed: &Fed<Frame>, out: &mut Text) {
        self.answered.clear();
        for frame in fed.messages.iter() {
            self.answer(alloc, frame);
        }
        out.put(b"answer ");
        out.put_hex(self.answered.as_slice());
        match fed.fault {
            Some(fault) => put_fault(fault, out),
            None => {}
        }
    }

    /// Has the bytes that these digits spell as what was sent. Tells whether they are there.
    fn takes(&mut self, digits: &str) -> bool {
        self.sent.clear();
        put_spelled(digits, &mut self.sent).is_some()
    }

    /// Takes a piece of what a client sends.
    fn take_piece(&mut self, alloc: Global, digits: &str, out: &mut Text) {
        if !self.takes(digits) {
            out.put(b"no bytes");
            return;
        }
        match self.frames.push(&self.sent) {
            Ok(fed) => self.answer_all(alloc, &fed, out),
            Err(FeedRefusal::Failed) => out.put(b"failed"),
            Err(FeedRefusal::OutOfMemory) => out.put(b"no memory"),
        }
    }

    /// Takes a piece of what a server answers.
    fn take_reply(&mut self, digits: &str, out: &mut Text) {
        if !self.takes(digits) {
            out.put(b"no bytes");
            return;
        }
        match self.replies.push(&self.sent) {
            Ok(fed) => put_replies(&fed, out),
            Err(FeedRefusal::Failed) => out.put(b"failed"),
            Err(FeedRefusal::OutOfMemory) => out.put(b"no memory"),
        }
    }

    fn put_told(&self, out: &mut Text) {
        out.put_number(b"told accepted ", self.share.accepted());
        out.put_number(b" durable ", self.share.durable());
    }

    /// Begins another conversation over the same store.
    fn restart(&mut self, alloc: Global) {
        self.desk = Desk::new();
        self.frames = Feed::new(alloc);
        self.replies = Feed::new(alloc);
    }

    fn perform(&mut self, alloc: Global, line: &str, out: &mut Text) {
        let (token, rest) = front(line);
        match token {
            "client" => {
                self.restart(alloc);
                out.put(b"client");
            }
            "piece" => self.take_piece(alloc, rest, out),
            "reply" => self.take_reply(rest, out),
            "told" => self.put_told(out),
            "load" => load(alloc, self, rest, out),
            _ => out.put(b"not understood"),
        }
        out.put(b"\n");
    }
}

/// The replies that a piece completes, in words.
fn put_replies(fed: &Fed<Reply>, out: &mut Text) {
    out.put(b"replies");
    for reply in fed.messages.iter() {
        tell_reply(reply, out);
    }
    match fed.fault {
        Some(fault) => put_fault(fault, out),
        None => {}
    }
}

/// An empty disk in memory with room for many calls and bytes.
fn roomy_disk(alloc: Global) -> Result<MemDisk, AllocError> {
    MemDisk::with_room(alloc, ROOM_OF_CALLS, ROOM_OF_BYTES)
}

/// Five of them.
fn roomy_devices(alloc: Global) -> Result<Devices<MemDisk>, AllocError> {
    Ok(Devices {
        journal0: roomy_disk(alloc)?,
        journal1: roomy_disk(alloc)?,
        slots: roomy_disk(alloc)?,
        root0: roomy_disk(alloc)?,
        root1: roomy_disk(alloc)?,
    })
}

/// An empty store on disks in memory.
pub(crate) fn empty_store(alloc: Global) -> Option<Store<MemDisk>>
    ensures { IfSome result (λ store. IsFresh ⟦<MemDisk as Disk>⟧ store empty_content) }
{
    let Ok(devices) = roomy_devices(alloc) else {
        return None;
    };
    match Store::create(alloc, devices, 4, Caps::profile()) {
        Ok(store) => Some(store),
        Err(_) => None,
    }
}

/// A conversation that has not begun, with this store and these books.
fn world_over<A: Opening, B: Column>(
    alloc: Global,
    core: Core<MemDisk, A, B>,
    share: Share<A, B>,
) -> World<A, B> {
    World {
        core,
        share,
        desk: Desk::new(),
        frames: Feed::new(alloc),
        replies: Feed::new(alloc),
        answered: roomy(alloc, ROOM_OF_BYTES_SENT),
        sent: roomy(alloc, ROOM_OF_BYTES_SENT),
    }
}

/// Runs the lines of one part.
fn run_lines<A: Opening, B: Column>(
    alloc: Global,
    world: &mut World<A, B>,
    part: &str,
    out: &mut Text,
) {
    for line in part.lines() {
        world.perform(alloc, line, out);
    }
}

/// Runs the lines of one part over a store, with books that are opened here.
fn run_over<A: Opening, B: Column>(
    alloc: Global,
    store: Store<MemDisk>,
    accepted: Blank,
    durable: Blank,
    acks: BlankRegister,
    part: &[u8],
    out: &mut Text,
)
    requires accepted { IsBlankOf A.name A.parts 1 accepted }
    requires durable { IsBlankOf B.name B.parts 1 durable }
    requires acks { acks ≡ A.table }
    requires opening { ((live ⟦<MemDisk as Disk>⟧ store).events ≡ A.opening) × (store.durable ≡ B.opening) }
    requires start { IfSome A.start (λ start. start ≡ began ⟦<MemDisk as Disk>⟧ store) }
{
    let Ok((core, mut shares)) = Core::<MemDisk, A, B>::open(
        alloc, store, accepted, durable, acks, 1,
    ) else {
        out.put(b"no memory\n");
        return;
    };
    let Some(share) = shares.pop() else {
        return;
    };
    let mut world = world_over(alloc, core, share);
    let text = str::from_utf8(part).unwrap_or("");
    run_lines(alloc, &mut world, text, out);
}

/// Runs the lines of one part over a store of its own.
pub fn run_store(alloc: Global, part: &str, out: &mut Text) {
    let Some(store) = empty_store(alloc) else {
        out.put(b"no memory\n");
        return;
    };
    let Ok(acks) = BlankRegister::new(alloc) else {
        out.put(b"no memory\n");
        return;
    };
    run_over::<Brand, Brand>(
        alloc,
        store,
        Blank::new(1),
        Blank::new(1),
        acks,
        part.as_bytes(),
        out,
    );
}
