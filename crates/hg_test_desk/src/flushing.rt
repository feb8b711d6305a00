//! A flusher and workers, each row over a store of its own.

ghost use Rattle.std.specs.Prelude.{◌≡◌, IfSome};
ghost use Rattle.hg_desk.specs.Blanks.{IsBlankOf};
ghost use Rattle.hg_desk.specs.Going.{began};
ghost use Rattle.hg_store.specs.Shown.{live};

use crate::meeting::{Meeting, StopsAtJob};
use crate::peer::Peer;
use crate::table::{Table, one_nudge};
use crate::telling::{put_store, put_tally};
use crate::world::empty_store;
use crossbeam_channel::{Receiver, Sender};
use hg_desk::share::{Column, Opening, Share};
use hg_desk::shared::{Shared, TakenIn, gather};
use hg_disk::{Disk, MemDisk};
use hg_model::event::{Access, Event};
use hg_receipts::Blank as BlankRegister;
use hg_server::flusher::{Due, flusher};
use hg_server::health::Terms;
use hg_server::piece::Piece;
use hg_server::wire::Guest;
use hg_server::worker::{OpenGate, Seat, worker};
use hg_store::store::Store;
use hg_test_kit::digits::bytes_of;
use hg_test_kit::text::Text;
use hg_test_kit::tokens::front;
use std::alloc::Global;
use std::marker::Brand;
use std::sync::ledger::Blank;
use std::sync::{Mutex, Wait};
use std::thread;
use std::thread::Threads;
use std::time::Clock;

const FORK: Event = Event::Fork { p: 0, c: 1 };

/// The one word that is accessed.
const WORD: u64 = 0x1000;

const READ: Event = Event::Read(Access {
    t: 0,
    at: WORD,
    len: 4,
});

const WRITE: Event = Event::Write(Access {
    t: 0,
    at: WORD,
    len: 4,
});

const OTHER_WRITE: Event = Event::Write(Access {
    t: 1,
    at: WORD,
    len: 4,
});

/// What is done with a store.
#[derive(Clone, Copy, PartialEq, Eq)]
enum Row {
    /// An event is sent while the flusher has a page.
    Job,
    /// One event is committed, and a checkpoint is due behind two.
    TooFew,
    /// The flusher runs again behind the second event.
    Enough,
    /// A client talks to a worker.
    Worked,
    /// The gate stops the flusher.
    Stopped,
    /// And another flusher goes on.
    Resumed,
    /// The store is taken in with no share first.
    Apart,
    /// A checkpoint is begun twice.
    Begin,
}

/// The shares of two threads.
#[derive(Drop)]
struct Pair<A: Opening, B: Column> {
    first: Share<A, B>,
    second: Share<A, B>,
}

/// Sends number 3 when the flusher has taken a page, and then lets it go on.
fn send_meanwhile<D: Disk, A: Opening, B: Column, R: Wait + Clock>(
    table: &Table<D, A, B, R>,
    share: Share<A, B>,
    meeting: &Meeting<R>,
) -> Share<A, B> {
    let mut share = share;
    meeting.wait_for_job();
    if table.offer(&mut share, 3, OTHER_WRITE) {
        meeting.tell(b"number 3 accepted\n");
    }
    meeting.note_answer();
    share
}

/// Runs the flusher in a thread of its own, and sends an event meanwhile.
fn flush_meanwhile<
    D: Disk + Send + Drop,
    A: Opening + Send + Sync,
    B: Column + Send + Sync,
    R: Threads + Wait + Clock + Sync,
>(
    table: &Table<D, A, B, R>,
    pair: Pair<A, B>,
    nudges: Receiver<()>,
    meeting: &Meeting<R>,
) -> Pair<A, B> {
    let Pair {
        first: share,
        second,
    } = pair;
    let rt = table.rt;
    let alloc = table.alloc;
    let shared = table.shared;
    let terms = table.terms;
    let due = Due { every: 1, begun: 0 };
    let (first, second) = thread::join(
        rt,
        move || {
            flusher(
                Seat {
                    rt,
                    alloc,
                    shared,
                    share,
                    gate: meeting,
                    terms,
                },
                &nudges,
                due,
            )
        },
        move || send_meanwhile(table, second, meeting),
    );
    Pair { first, second }
}

/// Commits two events, and sends a third one while the flusher has a page.
fn run_job<A: Opening + Send + Sync, B: Column + Send + Sync, R: Threads + Wait + Clock + Sync>(
    table: &Table<MemDisk, A, B, R>,
    pair: Pair<A, B>,
    out: &mut Text,
) -> Pair<A, B> {
    let mut pair = pair;
    table.offer(&mut pair.first, 1, FORK);
    table.offer(&mut pair.first, 2, WRITE);
    table.commit(&mut pair.first);
    let Some(nudges) = one_nudge(table.rt, table.alloc) else {
        return pair;
    };
    let meeting = Meeting::new(table.rt, table.alloc);
    let pair = flush_meanwhile(table, pair, nudges, &meeting);
    out.put(meeting.into_account().bytes());
    pair
}

/// Runs a flusher behind each commit, or behind the first one alone. A checkpoint is due behind two events.
fn run_every<A: Opening, B: Column, R: Wait + Clock>(
    table: &Table<MemDisk, A, B, R>,
    share: Share<A, B>,
    is_twice: bool,
) -> Share<A, B> {
    let mut share = share;
    table.offer(&mut share, 1, FORK);
    table.commit(&mut share);
    let mut share = table.flush(share, 2, &OpenGate);
    if !is_twice {
        return share;
    }
    table.offer(&mut share, 2, READ);
    table.commit(&mut share);
    table.flush(share, 2, &OpenGate)
}

/// Holds one conversation with a worker.
fn hold_conversation<A: Opening, B: Column, R: Wait + Clock>(
    table: &Table<MemDisk, A, B, R>,
    share: Share<A, B>,
    peer: Peer<R>,
    nudges: &Sender<()>,
) -> Share<A, B> {
    let Ok((to, from)) = crossbeam_channel::unbounded(table.alloc) else {
        return share;
    };
    let Ok(piece) = Piece::new(table.alloc) else {
        return share;
    };
    let _ = to.send(table.rt, Guest::new(peer));
    drop(to);
    let (share, _) = worker(table.seat(share, &OpenGate), piece, &from, nudges);
    share
}

/// Sends bytes to a worker, and tells the replies and how many nudges wait then.
fn run_worker<A: Opening, B: Column, R: Wait + Clock>(
    table: &Table<MemDisk, A, B, R>,
    share: Share<A, B>,
    sent: &[u8],
    out: &mut Text,
) -> Share<A, B> {
    let Ok((to, from)) = crossbeam_channel::unbounded(table.alloc) else {
        return share;
    };
    let answers = Mutex::new(Text::new(table.alloc));
    let peer = Peer {
        rt: table.rt,
        rest: sent,
        answers: &answers,
    };
    let share = hold_conversation(table, share, peer, &to);
    out.put(b"replies ");
    out.put(answers.into_inner().bytes());
    out.put_number(b"\nnudges ", from.len() as u64);
    out.put(b"\n");
    share
}

/// Stops a flusher that has taken a page, and where that is asked for, lets another one go on.
fn run_stopped<A: Opening, B: Column, R: Wait + Clock>(
    table: &Table<MemDisk, A, B, R>,
    pair: Pair<A, B>,
    is_resumed: bool,
    out: &mut Text,
) -> Pair<A, B> {
    let Pair {
        mut first,
        mut second,
    } = pair;
    table.offer(&mut first, 1, FORK);
    table.offer(&mut first, 2, WRITE);
    let first = table.flush(first, 1, &StopsAtJob);
    if is_resumed {
        table.begin(&mut second, out);
        second = table.flush(second, 1, &OpenGate);
    }
    Pair { first, second }
}

/// Does what a row says.
fn run_row<A: Opening + Send + Sync, B: Column + Send + Sync, R: Threads + Wait + Clock + Sync>(
    table: &Table<MemDisk, A, B, R>,
    row: Row,
    pair: Pair<A, B>,
    sent: &[u8],
    out: &mut Text,
) -> Pair<A, B> {
    let Pair { mut first, second } = pair;
    match row {
        Row::Job => return run_job(table, Pair { first, second }, out),
        Row::Stopped => return run_stopped(table, Pair { first, second }, false, out),
        Row::Resumed => return run_stopped(table, Pair { first, second }, true, out),
        Row::TooFew => first = run_every(table, first, false),
        Row::Enough => first = run_every(table, first, true),
        Row::Worked => first = run_worker(table, first, sent, out),
        Row::Apart => {
            table.offer(&mut first, 1, FORK);
        }
        Row::Begin => {
            table.offer(&mut first, 1, FORK);
            table.begin(&mut first, out);
            table.begin(&mut first, out);
        }
    }
    Pair { first, second }
}

/// Takes the store in with both shares, and tells what it has.
fn take_in<A: Opening, B: Column>(
    alloc: Global,
    pair: Pair<A, B>,
    shared: Shared<MemDisk, A, B>,
    out: &mut Text,
) {
    let Pair { first, second } = pair;
    let Ok(shares) = Vec::from_array(alloc, [first, second]) else {
        out.put(b"no memory\n");
        return;
    };
    match gather(shares, shared) {
        Ok(taken_in) => {
            let TakenIn { store, steps: _ } = taken_in;
            put_store(alloc, store, out);
        }
        Err((_, _, tally)) => put_tally(&tally, out),
    }
}

/// Asks for the store with no share. Gives back what is shared.
fn take_in_with_none<A: Opening, B: Column>(
    alloc: Global,
    shared: Shared<MemDisk, A, B>,
    out: &mut Text,
) -> Option<Shared<MemDisk, A, B>> {
    match gather(Vec::new(alloc), shared) {
        Ok(_) => {
            out.put(b"taken in with no share\n");
            None
        }
        Err((_, shared, tally)) => {
            put_tally(&tally, out);
            Some(shared)
        }
    }
}

/// Does what a row says over a store, with books that are opened here.
fn run_over<A: Opening + Send + Sync, B: Column + Send + Sync, R: Threads + Wait + Clock + Sync>(
    rt: &R,
    alloc: Global,
    store: Store<MemDisk>,
    accepted: Blank,
    durable: Blank,
    acks: BlankRegister,
    row: Row,
    sent: &[u8],
    out: &mut Text,
)
    requires accepted { IsBlankOf A.name A.parts 2 accepted }
    requires durable { IsBlankOf B.name B.parts 2 durable }
    requires acks { acks ≡ A.table }
    requires opening { ((live ⟦<MemDisk as Disk>⟧ store).events ≡ A.opening) × (store.durable ≡ B.opening) }
    requires start { IfSome A.start (λ start. start ≡ began ⟦<MemDisk as Disk>⟧ store) }
{
    let Ok((shared, mut shares)) = Shared::<MemDisk, A, B>::new(
        alloc, store, accepted, durable, acks, 2,
    ) else {
        out.put(b"no memory\n");
        return;
    };
    let (Some(first), Some(second)) = (shares.pop(), shares.pop()) else {
        return;
    };
    let terms = Terms::new(None);
    let table = Table {
        rt,
        alloc,
        shared: &shared,
        terms: &terms,
    };
    let pair = run_row(&table, row, Pair { first, second }, sent, out);
    if row != Row::Apart {
        take_in(alloc, pair, shared, out);
        return;
    }
    if let Some(shared) = take_in_with_none(alloc, shared, out) {
        take_in(alloc, pair, shared, out);
    }
}

/// Does what a row says over a store of its own.
fn run_new<R: Threads + Wait + Clock + Sync>(
    rt: &R,
    alloc: Global,
    row: Row,
    sent: &[u8],
    out: &mut Text,
) {
    let Some(store) = empty_store(alloc) else {
        out.put(b"no memory\n");
        return;
    };
    let Ok(acks) = BlankRegister::new(alloc) else {
        out.put(b"no memory\n");
        return;
    };
    run_over::<Brand, Brand, R>(
        rt,
        alloc,
        store,
        Blank::new(2),
        Blank::new(2),
        acks,
        row,
        sent,
        out,
    );
}

/// Does what a line says.
fn run_line<R: Threads + Wait + Clock + Sync>(rt: &R, alloc: Global, line: &str, out: &mut Text) {
    let (word, rest) = front(line);
    let rows: &[Row] = match word {
        "job" => &[Row::Job],
        "every" => &[Row::TooFew, Row::Enough],
        "worked" => &[Row::Worked],
        "held" => &[Row::Stopped, Row::Resumed],
        "apart" => &[Row::Apart],
        "begin" => &[Row::Begin],
        _ => &[],
    };
    let sent = bytes_of(alloc, rest);
    let sent = match &sent {
        Some(bytes) => bytes.as_slice(),
        None => &[],
    };
    out.put(word.as_bytes());
    out.put(b"\n");
    for row in rows {
        run_new(rt, alloc, *row, sent, out);
    }
}

/// Does what each line says over stores of its own, and appends what comes of it.
pub fn run_flushers<R: Threads + Wait + Clock + Sync>(
    rt: &R,
    alloc: Global,
    text: &str,
    out: &mut Text,
) {
    for line in text.lines() {
        run_line(rt, alloc, line, out);
    }
}
