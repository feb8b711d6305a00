//! Parsed lines, queued until they are offered.

ghost use Rattle.std.specs.Prelude.{◌≡◌, ℕ, ◌+◌, ◌-◌, ◌++◌, ◌∷◌, [], ◌<◌, ◌≤◌, ◌^◌, length, vec_capacity, vec_len};
ghost use Rattle.hg_model.specs.Holding.{hold_event};
ghost use Rattle.hg_reading.specs.Queueing.{OffersLines, OffersQueued, lines_by, lines_of, lines_queued, one, one_access, reading_queued, readings_queued};

use crate::queue::Queue;
use crate::sink::Sink;
use hg_model::event::{Access, Block, Event, Hold, HoldKind};
use hg_model::verdict::Refusal;
use hg_streams::output::Output;
use hg_wire::line::AccessLine;
use hg_wire::reader::Reading;

/// A line with its event, or a number of lines without one. It takes 16 bytes, a `Reading` 48: parsed lines go through the memory of two
/// processors.
#[derive(Clone, Copy, Debug, PartialEq, Eq, Drop)]
pub enum Queued {
    /// So many lines are empty or comments.
    Passed(u64),
    Fork {
        p: u16,
        c: u16,
    },
    Join {
        p: u16,
        c: u16,
    },
    Hold {
        kind: HoldKind,
        t: u16,
        l: u16,
    },
    Access {
        len: u8,
        is_write: bool,
        t: u16,
        at: u64,
    },
    Alloc {
        t: u16,
        len: u32,
        at: u64,
    },
    Free {
        t: u16,
        len: u32,
        at: u64,
    },
    Send {
        t: u16,
        k: u32,
    },
    Recv {
        t: u16,
        k: u32,
    },
}

const _: () = prove!(size_of::<Queued>() == 16);

impl Queued {
    /// The line of a read or a write.
    #[inline(always)]
    pub fn of_access(is_write: bool, access: Access) -> Self
        ensures reading { (n : ℕ) → reading_queued n result ≡ one_access n is_write access }
        ensures lines { lines_by result ≡ 1 }
    {
        let Access { t, at, len } = access;
        Queued::Access {
            len,
            is_write,
            t,
            at,
        }
    }

    /// The line of an event on a lock.
    #[inline(always)]
    pub fn of_hold(hold: Hold) -> Self
        ensures reading { (n : ℕ) → reading_queued n result ≡ one n (hold_event hold) }
        ensures lines { lines_by result ≡ 1 }
    {
        let Hold { t, l, kind } = hold;
        Queued::Hold { kind, t, l }
    }

    /// The line of an event.
    pub fn of_event(event: Event) -> Self
        ensures reading { (n : ℕ) → reading_queued n result ≡ one n event }
        ensures lines { lines_by result ≡ 1 }
    {
        match event {
            Event::Fork { p, c } => Queued::Fork { p, c },
            Event::Join { p, c } => Queued::Join { p, c },
            Event::Lock { t, l } => Queued::Hold {
                kind: HoldKind::Lock,
                t,
                l,
            },
            Event::RdLock { t, l } => Queued::Hold {
                kind: HoldKind::RdLock,
                t,
                l,
            },
            Event::Unlock { t, l } => Queued::Hold {
                kind: HoldKind::Unlock,
                t,
                l,
            },
            Event::Read(access) => Queued::of_access(false, access),
            Event::Write(access) => Queued::of_access(true, access),
            Event::Alloc(Block { t, at, len }) => Queued::Alloc { t, len, at },
            Event::Free(Block { t, at, len }) => Queued::Free { t, len, at },
            Event::Send { t, k } => Queued::Send { t, k },
            Event::Recv { t, k } => Queued::Recv { t, k },
        }
    }

    /// How many lines it stands for.
    #[inline(always)]
    fn lines(&self) -> u64
        ensures { result ≡ lines_by self.now }
    {
        match *self {
            Queued::Passed(count) => count,
            _ => 1,
        }
    }
}

/// Lines one after another, for sinks that take them so.
impl Queue for Vec<Queued> {
    ghost held = { λ queue. lines_of queue.items };

    ghost places = { λ queue. vec_capacity queue };

    ghost room = { λ queue. vec_capacity queue - vec_len queue };

    fn clear(&mut self) {
        self.clear();
    }

    #[inline(always)]
    fn push(&mut self, _line: u64, passed: u64, it: Queued) -> bool {
        if self.capacity() - self.len() < 2 {
            return false;
        }
        if passed == 0 {
            push(self, it);
            return true;
        }
        push(self, Queued::Passed(passed));
        push(self, it);
        true
    }
}

/// Appends one item, for which there is room.
#[inline(always)]
fn push(queued: &mut Vec<Queued>, it: Queued)
    requires room { vec_len queued.old < vec_capacity queued.old }
    ensures items { queued.new.items ≡ queued.old.items ++ it ∷ [] }
    ensures len { vec_len queued.new ≡ vec_len queued.old + 1 }
    ensures capacity { vec_capacity queued.old ≤ vec_capacity queued.new }
{
    queued.push(it).unwrap();
}

/// Offers queued lines, which stand behind `lines` others, one after another, up to the first that is not passed. `None` says that each was
/// passed.
#[inline(always)]
pub fn offer_all<W, S: Sink<W>>(
    lines: u64,
    queued: &[Queued],
    sink: &mut S,
    output: &mut Output<W>,
) -> Result<Option<S::End>, Refusal>
    requires lines { lines + (lines_of queued.now).count < 2 ^ 64 }
    requires room { S.may_take sink.old (length (lines_of queued.now).readings) }
    ensures { OffersLines S.takes lines (lines_of queued.now) sink.old output.old result sink.new output.new }
{
    offer_each(lines, queued, sink, output)
}

/// Offers the queued items, by their readings behind `lines` lines.
fn offer_each<W, S: Sink<W>>(
    lines: u64,
    queued: &[Queued],
    sink: &mut S,
    output: &mut Output<W>,
) -> Result<Option<S::End>, Refusal>
    requires lines { lines + lines_queued queued.now < 2 ^ 64 }
    requires room { S.may_take sink.old (length (readings_queued lines queued.now)) }
    ensures { OffersQueued S.takes lines queued.now sink.old output.old result sink.new output.new }
{
    let mut lines = lines;
    for it in queued {
        if let Some(end) = offer(lines, it, sink, output)? {
            return Ok(Some(end));
        }
        lines += it.lines();
    }
    Ok(None)
}

/// Offers one queued item.
#[inline(always)]
fn offer<W, S: Sink<W>>(
    lines: u64,
    queued: &Queued,
    sink: &mut S,
    output: &mut Output<W>,
) -> Result<Option<S::End>, Refusal>
    requires lines { lines + lines_by queued.now < 2 ^ 64 }
    requires room { S.may_take sink.old (length (reading_queued lines queued.now)) }
    ensures { S.takes sink.old output.old.calls (reading_queued lines queued.now) result sink.new output.new.calls }
{
    match *queued {
        Queued::Passed(_) => Ok(None),
        Queued::Fork { p, c } => offer_event(lines, Event::Fork { p, c }, sink, output),
        Queued::Join { p, c } => offer_event(lines, Event::Join { p, c }, sink, output),
        Queued::Hold { kind, t, l } => offer_hold(lines, Hold { t, l, kind }, sink, output),
        Queued::Access {
            len,
            is_write,
            t,
            at,
        } => offer_access(lines, is_write, Access { t, at, len }, sink, output),
        Queued::Alloc { t, len, at } => offer_event(
            lines,
            Event::Alloc(Block { t, at, len }),
            sink,
            output,
        ),
        Queued::Free { t, len, at } => offer_event(
            lines,
            Event::Free(Block { t, at, len }),
            sink,
            output,
        ),
        Queued::Send { t, k } => offer_event(lines, Event::Send { t, k }, sink, output),
        Queued::Recv { t, k } => offer_event(lines, Event::Recv { t, k }, sink, output),
    }
}

/// Offers the line of an event behind so many lines.
#[inline(always)]
fn offer_event<W, S: Sink<W>>(
    lines: u64,
    event: Event,
    sink: &mut S,
    output: &mut Output<W>,
) -> Result<Option<S::End>, Refusal>
    requires lines { lines + 1 < 2 ^ 64 }
    requires room { S.may_take sink.old 1 }
    ensures { S.takes sink.old output.old.calls (one lines event) result sink.new output.new.calls }
{
    let reading = Reading {
        line: lines + 1,
        event: Ok(event),
    };
    sink.offer(&reading, output)
}

/// Offers the line of an event on a lock behind so many lines.
#[inline(always)]
fn offer_hold<W, S: Sink<W>>(
    lines: u64,
    hold: Hold,
    sink: &mut S,
    output: &mut Output<W>,
) -> Result<Option<S::End>, Refusal>
    requires lines { lines + 1 < 2 ^ 64 }
    requires room { S.may_take sink.old 1 }
    ensures { S.takes sink.old output.old.calls (one lines (hold_event hold)) result sink.new output.new.calls }
{
    sink.offer_hold(lines + 1, hold, output)
}

/// Offers the line of a read or write behind so many lines.
#[inline(always)]
fn offer_access<W, S: Sink<W>>(
    lines: u64,
    is_write: bool,
    access: Access,
    sink: &mut S,
    output: &mut Output<W>,
) -> Result<Option<S::End>, Refusal>
    requires lines { lines + 1 < 2 ^ 64 }
    requires room { S.may_take sink.old 1 }
    ensures { S.takes sink.old output.old.calls (one_access lines is_write access) result sink.new output.new.calls }
{
    let found = AccessLine {
        is_write,
        access,
        used: 0,
    };
    sink.offer_access(lines + 1, &found, output)
}
