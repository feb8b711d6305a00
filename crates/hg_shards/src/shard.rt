//! The detector of the words of one part.

ghost use Rattle.std.specs.Prelude.{◌≡◌, ◌<◌, ◌≤◌, IfOk, IfErr};
ghost use Rattle.hg_model.specs.Accessing.{access_named};
ghost use Rattle.hg_model.specs.Holding.{hold_named};
ghost use Rattle.hg_detect.specs.Answering.{AnswersOffer, is_accepted};
ghost use Rattle.hg_shards.specs.Sharding.{AnswersShard, BeginsFor, IsCutTo, IsReady, LogGoes, PassesOthers, PassesOver, WantsOwnRoom, page_part, words_of};

use crate::set_log::SetLog;
use hg_cells::paged::PagedWords;
use hg_cells::words::Words;
use hg_detect::detector::Answer;
use hg_detect::memory::{MemoryDetector, new_detector};
use hg_model::event::{Access, Event, Hold, Named};
use hg_model::limits::GREATEST_ACCESS;
use hg_model::verdict::Refusal;
use hg_sets::MOST_SETS;
use std::alloc::Global;

/// How many bytes the words of a page have.
const PAGE_BYTES: u64 = 1_024;

/// 2^32 over the golden ratio.
const SECTION: u64 = 2_654_435_769;

/// How many pages have numbers below 2^32.
const LOW_PAGES: u64 = 4_294_967_296;

/// The part of a page, of `count` parts numbered from 0. Pages at any regular stride are spread over the parts.
#[inline(always)]
pub fn part_of_page(count: u64, page: u64) -> u64
    requires { 0 < count }
    ensures value { result ≡ page_part count page }
    ensures within { result < count }
{
    page % LOW_PAGES * SECTION / LOW_PAGES % count
}

/// What is judged of an access where a part is judged: its bytes from the first of the part's words to the last. None where it
/// has no such word, or where its length or its end is unlawful: the rules refuse it as it is.
#[inline(always)]
fn own_bytes(count: u64, part: u64, access: &Access) -> Option<Access>
    requires { 0 < count }
    ensures { IsCutTo (words_of count part) access.now result }
{
    if access.len == 0 {
        return None;
    }
    if access.len > GREATEST_ACCESS {
        return None;
    }
    let more = u64::from(access.len) - 1;
    if access.at > u64::MAX - more {
        return None;
    }
    let first = access.at / PAGE_BYTES;
    let last = (access.at + more) / PAGE_BYTES;
    let has_first = part_of_page(count, first) == part;
    if first == last {
        if has_first {
            return Some(*access);
        }
        return None;
    }
    let border = last * PAGE_BYTES;
    let before = (border - access.at) as u8;
    let has_last = part_of_page(count, last) == part;
    if has_first {
        if has_last {
            return Some(*access);
        }
        return Some(Access {
            t: access.t,
            at: access.at,
            len: before,
        });
    }
    if has_last {
        return Some(Access {
            t: access.t,
            at: border,
            len: access.len - before,
        });
    }
    None
}

/// Whether the event was accepted.
#[inline(always)]
fn was_accepted(answer: &Result<Answer, Refusal>) -> bool
    ensures { result ≡ is_accepted answer.now }
{
    match answer {
        Ok(Answer::Accepted) => true,
        Ok(Answer::Duplicate(_)) => false,
        Err(_) => false,
    }
}

/// A detector of the words of one part, by pages of 256 words. It is offered each event of a trace, and judges what
/// concerns its own words. A contract sees its parts.
#[derive(Drop)]
pub struct Shard {
    detector: MemoryDetector,
    count: u64,
    part: u64,
    /// For each set of the detector's table, the event of the trace that asked for it first.
    log: SetLog,
}

impl Shard {
    /// The shard of an empty trace that judges part `part` of `count`, with at most `most_sets` sets of threads and of locks: 1 to
    /// 262,144. The one refusal is `OutOfMemory`.
    pub fn new(alloc: Global, count: u64, part: u64, most_sets: u32) -> Result<Self, Refusal>
        requires part { part < count }
        requires least { 1 ≤ most_sets }
        requires greatest { most_sets ≤ MOST_SETS }
        ensures begins { IfOk result (BeginsFor count part most_sets) }
        ensures refusal { IfErr result (λ r. r ≡ Refusal.OutOfMemory) }
    {
        let detector = new_detector(alloc, most_sets)?;
        let Ok(log) = SetLog::with_limit(alloc, most_sets) else {
            return Err(Refusal::OutOfMemory);
        };
        Ok(Shard {
            detector,
            count,
            part,
            log,
        })
    }

    /// Offers the own part of a read or a write to the detector, and notes the sets that its table then has more.
    #[inline(always)]
    fn judge(
        &mut self,
        source: u16,
        number: u64,
        own: Access,
        write: bool,
    ) -> Result<Answer, Refusal>
        requires ready { IsReady self.old }
        ensures answers { AnswersOffer ⟦<PagedWords as Words>⟧ self.old.detector (access_named source number write own) result self.new.detector }
        ensures log { LogGoes self.old result self.new }
        ensures rest { self.new ≡ record self.old { detector = self.new.detector; log = self.new.log } }
    {
        let answer = self.detector.touch(source, number, own, write);
        if !was_accepted(&answer) {
            return answer;
        }
        let sets = self.detector.sets().len();
        let event = self.detector.state().events();
        self.log.note(sets, event);
        answer
    }

    /// Offers a read or a write under the number that its source gave it. It is judged where it touches words of the part, and
    /// counted where it does not.
    #[inline(always)]
    pub fn touch(
        &mut self,
        source: u16,
        number: u64,
        access: Access,
        write: bool,
    ) -> Result<Answer, Refusal>
        requires ready { IsReady self.old }
        ensures answers { AnswersShard self.old (access_named source number write access) result self.new }
        ensures passes { PassesOthers self.old (access_named source number write access) result }
        ensures grows { WantsOwnRoom ⟦<PagedWords as Words>⟧ self.old (access_named source number write access) result }
    {
        match own_bytes(self.count, self.part, &access) {
            Some(own) => self.judge(source, number, own, write),
            None => self.detector.pass(source, number, access),
        }
    }

    /// Offers an event on a lock under the number that its source gave it.
    #[inline(always)]
    pub fn hold(&mut self, source: u16, number: u64, hold: Hold) -> Result<Answer, Refusal>
        requires ready { IsReady self.old }
        ensures { AnswersShard self.old (hold_named source number hold) result self.new }
    {
        self.detector.hold(source, number, hold)
    }

    /// Offers an event. A block is cleared whole, in other parts too: their words are new here at all times.
    pub fn offer(&mut self, named: &Named) -> Result<Answer, Refusal>
        requires ready { IsReady self.old }
        ensures answers { AnswersShard self.old named.now result self.new }
        ensures passes { PassesOthers self.old named.now result }
        ensures grows { WantsOwnRoom ⟦<PagedWords as Words>⟧ self.old named.now result }
    {
        match &named.event {
            Event::Read(access) => self.touch(named.source, named.number, *access, false),
            Event::Write(access) => self.touch(named.source, named.number, *access, true),
            _ => self.detector.apply(named),
        }
    }

    /// Passes over so many accesses at once, which a source numbered one after another, and which touch words of other parts alone. They
    /// are counted, and nothing else changes. It takes no memory, and constant time.
    #[inline(always)]
    pub fn pass_all(&mut self, source: u16, count: u64)
        requires ready { IsReady self.old }
        ensures { PassesOver self.old source count self.new }
    {
        self.detector.pass_all(source, count);
    }

    /// For each set of the detector's table, the event of the trace that asked for it first.
    pub fn log(&self) -> &SetLog
        ensures { result.now ≡ self.now.log }
    {
        &self.log
    }

    /// The detector of the part's words.
    pub fn detector(&self) -> &MemoryDetector
        ensures { result.now ≡ self.now.detector }
    {
        &self.detector
    }
}
