//! Explaining a word: a detector that takes the lines of a trace text, and tells those that concern the word.

ghost use Rattle.std.specs.Prelude.{◌≡◌, ◌+◌, ◌<◌, ◌^◌, [], IfErr, IfOk};
ghost use Rattle.hg_detect.specs.Memory.{IsWhole};
ghost use Rattle.hg_streams.specs.Holding.{HoldsOrWrites, WritesFront};
ghost use Rattle.hg_streams.specs.Faults.{HasWriteCause};
ghost use Rattle.hg_streams.specs.Calls.{failed_writes};
ghost use Rattle.hg_streams.specs.Told.{told};

use crate::explain::form::Asked;
use crate::explain::look::{Look, look_at};
use hg_detect::memory::{MemoryDetector, new_detector};
use hg_model::verdict::Refusal;
use hg_reading::ending::Ending;
use hg_reading::sink::Sink;
use hg_sets::MOST_SETS;
use hg_streams::holding::write_out;
use hg_streams::output::Output;
use hg_wire::line::AccessLine;
use hg_wire::reader::Reading;
use std::alloc::Global;
use std::io::Write;

/// Writes the held text.
fn write_held<W: Write>(held: &mut Vec<u8>, output: &mut Output<W>) -> Result<(), Refusal>
    ensures printed { HoldsOrWrites [] output.old.calls held.old.items result output.new.calls held.new.items }
    ensures front { WritesFront [] output.old.calls held.old.items result output.new.calls }
    ensures cause { IfErr result (λ r. HasWriteCause output.old.calls output.new.calls r) }
    ensures fault { failed_writes output.new.calls ≡ told result + failed_writes output.old.calls }
{
    write_out(held, output)
}

/// A detector, and what is told of a word.
#[derive(Drop)]
pub struct Explaining {
    pub asked: Asked,
    pub detector: MemoryDetector,
    /// How the word looks now.
    pub look: Look,
    /// How many accesses to the word were not shown since its last line.
    pub more: u64,
    /// Text that is still to be written.
    pub held: Vec<u8>,
}

impl Explaining {
    ghost use Rattle.hg_check.specs.LifeTaking.{IsFresh};
    ghost use Rattle.hg_check.specs.Running.{IsStart};

    /// A detector whose later events are told. Nothing is held.
    pub fn behind(alloc: Global, detector: MemoryDetector, asked: Asked) -> Explaining
        requires whole { IsWhole detector }
        requires word { asked.word < 2 ^ 62 }
        ensures fresh { IsFresh result }
        ensures detector { result.detector ≡ detector }
        ensures asked { result.asked ≡ asked }
        ensures none { result.held.items ≡ [] }
    {
        let look = look_at(&detector, asked.word);
        Explaining {
            asked,
            detector,
            look,
            more: 0,
            held: Vec::new(alloc),
        }
    }

    /// A detector that has accepted no event. Nothing is held.
    pub fn new(alloc: Global, asked: Asked) -> Result<Explaining, Refusal>
        requires word { asked.word < 2 ^ 62 }
        ensures fresh { IfOk result IsFresh }
        ensures start { IfOk result (λ s. IsStart s.detector) }
        ensures asked { IfOk result (λ s. s.asked ≡ asked) }
        ensures none { IfOk result (λ s. s.held.items ≡ []) }
        ensures cause { IfErr result (λ r. r ≡ Refusal.OutOfMemory) }
    {
        let detector = new_detector(alloc, MOST_SETS)?;
        Ok(Explaining::behind(alloc, detector, asked))
    }
}

impl<W: Write> Sink<W> for Explaining {
    ghost use Rattle.hg_check.specs.LifeTaking.{ExplainsLines, MayTake};
    ghost use Rattle.hg_reading.specs.Taking.{AlwaysSettled};
    ghost use Rattle.hg_check.specs.LifeTakingLaws.{takes_fewer, takes_none, takes_on, takes_room};

    type End = Ending;

    ghost may_take = { MayTake };

    ghost takes = { ExplainsLines };

    ghost settled = { AlwaysSettled };

    fn offer(
        &mut self,
        reading: &Reading,
        _output: &mut Output<W>,
    ) -> Result<Option<Ending>, Refusal> {
        self.pass(reading)
    }

    #[inline(always)]
    fn offer_access(
        &mut self,
        line: u64,
        found: &AccessLine,
        _output: &mut Output<W>,
    ) -> Result<Option<Ending>, Refusal> {
        self.pass_access(line, found)
    }

    /// Writes the held text. Each line was judged where it was offered.
    fn settle(&mut self, output: &mut Output<W>) -> Result<Option<Ending>, Refusal> {
        write_held(&mut self.held, output)?;
        Ok(None)
    }

    ghost none = { takes_none };

    ghost on = { takes_on };

    ghost room = { takes_room };

    ghost fewer = { takes_fewer };
}
