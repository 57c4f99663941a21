//! A processor as an actor.

ghost use Rattle.std.specs.Prelude.{◌≡◌, [], ◌++◌, length, Option, None, IfOk, vec_capacity};
ghost use Rattle.nm_base.specs.Geometry.{page_count};
ghost use Rattle.nm_action.specs.declared.turn.Turn.{Turn};
ghost use Rattle.nm_action.specs.declared.turn.Heard.TheVariants.{Answer};
ghost use Rattle.nm_tally.specs.Counting.{CountsEvents};
ghost use Rattle.nm_actor.specs.Turns.{Turns, own_list};
ghost use Rattle.nm_actor.specs.Actors.{HasHeard, IsAnswerTo, answered};
ghost use Rattle.nm_access.specs.Faults.{fault_kinds};
ghost use Rattle.nm_cpu.specs.declared.actor.CpuStage.TheVariants.{Opening, Accessing};
ghost use Rattle.nm_cpu.specs.Programs.{IsCpu};
ghost use Rattle.nm_cpu.specs.Agreeing.{geometry_of, cpu_view, IsAtNext, IsUnderWay, HasTouched, IsAtCpuTurn, FollowsCpu, IsAdvanced};

use crate::line::{line_access, line_result};
use crate::made::CpuMade;
use nm_access::{Access, AccessStep, Faults};
use nm_actor::Actor;
use nm_base::Geometry;
use nm_cpu_fault::ProcessorFault;
use nm_event::{AckTo, Action, Heard, Reply, Step, Tally, Turn};
use nm_report::LineResult;
use nm_script::Line;
use nm_tally::Counter;
use std::alloc::{AllocError, Global};

/// How far a processor has come.
#[derive(Clone, Copy, Debug, PartialEq, Eq)]
pub(crate) enum CpuStage {
    /// It has given no turn.
    New,
    /// It catches up before its first access.
    Opening,
    /// An access of a line is under way.
    Accessing,
    /// It acknowledges its end.
    Ending,
    /// It has ended.
    Over,
}

/// A processor that makes the lines of its program, over some kind of faults.
#[derive(Drop)]
pub struct Processor<'a, F> {
    made: CpuMade<'a>,
    access: Access<'a, F>,
    results: Vec<LineResult>,
    /// How many loads the line that is under way has made.
    loads: u32,
    stage: CpuStage,
    /// The turn that awaits its answer.
    given: Turn,
    counter: Counter,
}

/// A processor of a machine.
pub type CpuActor<'a> = Processor<'a, ProcessorFault<'a>>;

impl<'a, F: Faults<'a> + Drop> Processor<'a, F> {
    /// A processor that has given no turn. All its memory is taken here, with room for one result for each line; the only
    /// error is its want. Conditions: the processor exists; each line's virtual page is mapped, and writable for a store or
    /// an add; its word is one of the page; an await may make a load.
    pub fn new(
        alloc: Global,
        g: &'a Geometry,
        number: u32,
        program: &'a [Line],
    ) -> Result<Processor<'a, F>, AllocError>
        requires { IsCpu g.now number program.now }
        ensures geometry { IfOk result (λ c. c.made.geometry.now ≡ g.now) }
        ensures number { IfOk result (λ c. c.made.number ≡ number) }
        ensures program { IfOk result (λ c. c.made.program.now ≡ program.now) }
        ensures new { IfOk result (λ c. FollowsCpu (fault_kinds F.shape F.leaves F.waits_at F.missing F.shadowed F.counted) F.made F.awaits c [] None) }
    {
        let access = Access::new(alloc, g)?;
        let results = Vec::with_capacity(alloc, program.len())?;
        let counter = Counter::new(alloc, g)?;
        Ok(Processor {
            made: CpuMade {
                geometry: g,
                number,
                program,
            },
            access,
            results,
            loads: 0,
            stage: CpuStage::New,
            given: Turn::End,
            counter,
        })
    }

    /// What the lines gave so far.
    pub fn results(&self) -> &[LineResult]
        ensures { result.now ≡ self.now.results.items }
    {
        &self.results
    }

    /// What the lines gave, when the processor isn't needed any more.
    pub fn into_results(self) -> Vec<LineResult>
        ensures { result.items ≡ self.entry.results.items }
    {
        let Processor { results, .. } = self;
        results
    }

    /// Counts the event of the turn that is answered, if it is one.
    fn note(&mut self, heard: Heard)
        requires { HasHeard (geometry_of self.old) self.old.made.number (FollowsCpu (fault_kinds F.shape F.leaves F.waits_at F.missing F.shadowed F.counted) F.made F.awaits self.old) heard }
        ensures rest { self.new ≡ record self.old { counter = self.new.counter } }
        ensures pages { length self.new.counter.locked.items ≡ length self.old.counter.locked.items }
        ensures counted { (turns : Turns) (last : Option Turn) → FollowsCpu (fault_kinds F.shape F.leaves F.waits_at F.missing F.shadowed F.counted) F.made F.awaits self.old turns last
            → IsAnswerTo (geometry_of self.old) (cpu_view self.old turns) last heard → CountsEvents self.new.counter (own_list (answered last heard turns)) }
    {
        if let Heard::Answer(reply) = heard {
            let Turn::Do(action) = self.given else {
                unreachable!()
            };
            self.counter.note(action, reply);
        }
    }

    /// Begins the next access, of the line whose result is next; after the last line, acknowledges the end.
    fn go_on(&mut self) -> Turn
        ensures made { self.new.made ≡ self.old.made }
        ensures counter { self.new.counter ≡ self.old.counter }
        ensures advanced { (turns : Turns) → IsAtNext (fault_kinds F.shape F.leaves F.waits_at F.missing F.shadowed F.counted) self.old turns
            → IsAdvanced (fault_kinds F.shape F.leaves F.waits_at F.missing F.shadowed F.counted) F.made F.awaits self.new turns result }
    {
        let CpuMade {
            geometry,
            program,
            ..
        } = self.made;
        let next = self.results.len();
        if next < program.len() {
            self.stage = CpuStage::Accessing;
            let AccessStep::Give(turn) = self.access.begin(line_access(geometry, program[next]))
            else {
                unreachable!()
            };
            turn
        } else {
            self.stage = CpuStage::Ending;
            Turn::Do(Action::Ack { to: AckTo::End })
        }
    }

    /// Goes on after an access of a line was told this word.
    fn touched(&mut self, word: u64) -> Turn
        requires { IsUnderWay self.old }
        ensures made { self.new.made ≡ self.old.made }
        ensures counter { self.new.counter ≡ self.old.counter }
        ensures advanced { (turns : Turns) → HasTouched (fault_kinds F.shape F.leaves F.waits_at F.missing F.shadowed F.counted) self.old word turns
            → IsAdvanced (fault_kinds F.shape F.leaves F.waits_at F.missing F.shadowed F.counted) F.made F.awaits self.new turns result }
    {
        let program = self.made.program;
        match line_result(program[self.results.len()], self.loads, word) {
            Some(result) => {
                self.results.push_reserved(result);
                self.loads = 0;
            }
            None => self.loads += 1,
        }
        self.go_on()
    }

    /// The turn after an answer to an access.
    fn accessed(&mut self, heard: Heard) -> Turn
        requires heard { HasHeard (geometry_of self.old) self.old.made.number (IsAtCpuTurn (fault_kinds F.shape F.leaves F.waits_at F.missing F.shadowed F.counted) F.made F.awaits self.old) heard }
        requires stage { self.old.stage ≡ Accessing }
        ensures made { self.new.made ≡ self.old.made }
        ensures counter { self.new.counter ≡ self.old.counter }
        ensures advanced { (turns : Turns) (last : Option Turn) → IsAtCpuTurn (fault_kinds F.shape F.leaves F.waits_at F.missing F.shadowed F.counted) F.made F.awaits self.old turns last
            → IsAnswerTo (geometry_of self.old) (cpu_view self.old turns) last heard
            → IsAdvanced (fault_kinds F.shape F.leaves F.waits_at F.missing F.shadowed F.counted) F.made F.awaits self.new (answered last heard turns) result }
    {
        match self.access.after(heard) {
            AccessStep::Give(turn) => turn,
            AccessStep::Over(word) => self.touched(word),
        }
    }

    /// The turn after a reply to the first catch up.
    fn opened(&mut self, reply: Reply) -> Turn
        requires heard { HasHeard (geometry_of self.old) self.old.made.number (IsAtCpuTurn (fault_kinds F.shape F.leaves F.waits_at F.missing F.shadowed F.counted) F.made F.awaits self.old) (Answer reply) }
        requires stage { self.old.stage ≡ Opening }
        ensures made { self.new.made ≡ self.old.made }
        ensures counter { self.new.counter ≡ self.old.counter }
        ensures advanced { (turns : Turns) (last : Option Turn) → IsAtCpuTurn (fault_kinds F.shape F.leaves F.waits_at F.missing F.shadowed F.counted) F.made F.awaits self.old turns last
            → IsAnswerTo (geometry_of self.old) (cpu_view self.old turns) last (Answer reply)
            → IsAdvanced (fault_kinds F.shape F.leaves F.waits_at F.missing F.shadowed F.counted) F.made F.awaits self.new (answered last (Answer reply) turns) result }
    {
        match self.access.opened(reply) {
            Step::Do(action) => Turn::Do(action),
            Step::Over(()) => self.go_on(),
        }
    }

    /// The turn after what is heard.
    fn advance(&mut self, heard: Heard) -> Turn
        requires { HasHeard (geometry_of self.old) self.old.made.number (IsAtCpuTurn (fault_kinds F.shape F.leaves F.waits_at F.missing F.shadowed F.counted) F.made F.awaits self.old) heard }
        ensures made { self.new.made ≡ self.old.made }
        ensures counter { self.new.counter ≡ self.old.counter }
        ensures advanced { (turns : Turns) (last : Option Turn) → IsAtCpuTurn (fault_kinds F.shape F.leaves F.waits_at F.missing F.shadowed F.counted) F.made F.awaits self.old turns last
            → IsAnswerTo (geometry_of self.old) (cpu_view self.old turns) last heard
            → IsAdvanced (fault_kinds F.shape F.leaves F.waits_at F.missing F.shadowed F.counted) F.made F.awaits self.new (answered last heard turns) result }
    {
        match self.stage {
            CpuStage::New => {
                self.stage = CpuStage::Opening;
                Turn::Do(self.access.open())
            }
            CpuStage::Opening => {
                let Heard::Answer(reply) = heard else {
                    unreachable!()
                };
                self.opened(reply)
            }
            CpuStage::Accessing => self.accessed(heard),
            CpuStage::Ending => {
                self.stage = CpuStage::Over;
                Turn::End
            }
            CpuStage::Over => unreachable!(),
        }
    }
}

impl<'a, F: Faults<'a> + Drop> Actor for Processor<'a, F> {
    type Made = CpuMade<'a>;

    ghost use Rattle.std.specs.Prelude.{[], None};
    ghost use Rattle.nm_action.specs.Tally.{sum_of};
    ghost use Rattle.nm_access.specs.Faults.{fault_kinds};
    ghost use Rattle.nm_cpu.specs.Agreeing.{FollowsCpu};

    ghost made = { λ c. c.made };

    ghost geometry = { λ made. made.geometry.now };

    ghost number = { λ made. made.number };

    ghost is_new = { λ c. FollowsCpu (fault_kinds F.shape F.leaves F.waits_at F.missing F.shadowed F.counted) F.made F.awaits c [] None };

    ghost agrees = { FollowsCpu (fault_kinds F.shape F.leaves F.waits_at F.missing F.shadowed F.counted) F.made F.awaits };

    ghost counted = { λ c. sum_of c.counter.tally c.access.tally };

    fn next(&mut self, heard: Heard) -> Turn {
        self.note(heard);
        let turn = self.advance(heard);
        self.given = turn;
        turn
    }

    fn tally(&self) -> Tally {
        self.counter.tally().plus(self.access.tally())
    }

    ghost opens = { λ c new. new };
}
