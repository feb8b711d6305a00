//! The lines of a trace text, and what each adds to the life of a word.

ghost use Rattle.std.specs.Prelude.{◌≡◌, ◌+◌, ◌<◌, ◌^◌, true, IfErr, OnOk};
ghost use Rattle.hg_check.specs.Running.{access_reading};
ghost use Rattle.hg_detect.specs.Memory.{IsWhole, content_of};
ghost use Rattle.hg_check.specs.Holding.{HoldsMore};
ghost use Rattle.hg_check.specs.LifeTaking.{IsReady, Looks, PassesLine, TellsEvent, shown_text};
ghost use Rattle.hg_wire.specs.Accesses.{event_of as event_in};
ghost use Rattle.hg_check.specs.Life as life;

use crate::checker::{apply, apply_access};
use crate::explain::event_line::{Accepted, hold_event, hold_more};
use crate::explain::explaining::Explaining;
use crate::explain::look::{Look, concerns, differs, look_at, overlaps};
use hg_model::event::Event;
use hg_model::limits::THREAD_NUMBERS;
use hg_model::verdict::Refusal;
use hg_reading::ending::Ending;
use hg_reading::sink::access_event;
use hg_wire::line::AccessLine;
use hg_wire::reader::Reading;

/// How many accesses an event is.
#[inline(always)]
fn accesses(event: &Event) -> u64
    ensures { result ≡ life.accesses event.now }
{
    match event {
        Event::Read(_) | Event::Write(_) => 1,
        _ => 0,
    }
}

impl Explaining {
    /// Shows an event that was accepted just now: holds the count of accesses that were not shown since the last line, and its line.
    #[inline(never)]
    fn show_event(&mut self, accepted: &Accepted) -> Result<(), Refusal>
        requires whole { IsWhole self.old.detector }
        requires word { self.old.asked.word < 2 ^ 62 }
        requires actor { life.actor_of accepted.now.event < THREAD_NUMBERS }
        ensures others { self.new ≡ record self.old { more = self.new.more; held = self.new.held } }
        ensures held { HoldsMore result self.old.held self.new.held (shown_text self.old accepted.now) }
        ensures none { OnOk result (self.new.more ≡ 0) }
        ensures cause { IfErr result (λ r. r ≡ Refusal.OutOfMemory) }
    {
        hold_more(self.more, &mut self.held)?;
        self.more = 0;
        hold_event(self.asked, &self.detector, accepted, &mut self.held)
    }

    /// Shows an event that was accepted just now and concerns the word, or counts it as not shown.
    #[inline(always)]
    fn tell_event(&mut self, kept: usize, line: u64, event: &Event) -> Result<(), Refusal>
        requires whole { IsWhole self.old.detector }
        requires word { self.old.asked.word < 2 ^ 62 }
        requires actor { life.actor_of event.now < THREAD_NUMBERS }
        requires few { self.old.more + 1 < 2 ^ 64 }
        ensures asked { self.new.asked ≡ self.old.asked }
        ensures detector { self.new.detector ≡ self.old.detector }
        ensures tells { OnOk result (TellsEvent self.old kept line event.now self.new) }
        ensures looks { Looks self.new }
        ensures cause { IfErr result (λ r. r ≡ Refusal.OutOfMemory) }
    {
        let before = self.look;
        self.look = look_at(&self.detector, self.asked.word);
        if self.asked.form.all || differs(before, self.look) {
            return self.show_event(&Accepted {
                before,
                kept,
                line,
                event: *event,
            });
        }
        self.more += accesses(event);
        Ok(())
    }

    /// Offers the event of a line as the next one of source 0, and tells it where it concerns the word. `None` says that it was
    /// accepted. The look of the word is carried along, and looked up again only after an event that concerns the word.
    pub(crate) fn pass(&mut self, reading: &Reading) -> Result<Option<Ending>, Refusal>
        requires ready { IsReady self.old }
        requires fits { (content_of self.old.detector).last 0 + 1 < 2 ^ 64 }
        ensures { PassesLine self.old reading.now result self.new }
    {
        let line = reading.line;
        let Ok(event) = reading.event else {
            return apply(&mut self.detector, reading);
        };
        if !concerns(self.asked.word, &event) {
            return apply(&mut self.detector, reading);
        }
        let kept = self.detector.kept();
        let stopped = apply(&mut self.detector, reading)?;
        if stopped.is_some() {
            return Ok(stopped);
        }
        self.tell_event(kept, line, &event)?;
        Ok(None)
    }

    /// Offers the read or write of a line as the next event of source 0, and tells it where it overlaps the word.
    #[inline(always)]
    pub(crate) fn pass_access(
        &mut self,
        line: u64,
        found: &AccessLine,
    ) -> Result<Option<Ending>, Refusal>
        requires ready { IsReady self.old }
        requires fits { (content_of self.old.detector).last 0 + 1 < 2 ^ 64 }
        ensures { PassesLine self.old (access_reading line found.now) result self.new }
    {
        if overlaps(
            found.access.at,
            u32::from(found.access.len),
            self.asked.word,
        ) {
            return self.pass_concerned(line, found);
        }
        apply_access(&mut self.detector, line, found)
    }

    /// Offers the read or write of a line that overlaps the word, and tells it.
    #[inline(always)]
    fn pass_concerned(&mut self, line: u64, found: &AccessLine) -> Result<Option<Ending>, Refusal>
        requires ready { IsReady self.old }
        requires fits { (content_of self.old.detector).last 0 + 1 < 2 ^ 64 }
        requires met { life.concerns self.old.asked.word (event_in found.now) ≡ true }
        ensures { PassesLine self.old (access_reading line found.now) result self.new }
    {
        let kept = self.detector.kept();
        let stopped = apply_access(&mut self.detector, line, found)?;
        if stopped.is_some() {
            return Ok(stopped);
        }
        let event = access_event(found);
        self.tell_event(kept, line, &event)?;
        Ok(None)
    }
}
