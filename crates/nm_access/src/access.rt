//! An access, one turn at a time.

ghost use Rattle.std.specs.Prelude.{◌≡◌, ℕ, ◌<◌, ◌&&◌, ◌||◌, not, ◌∷◌, ◌++◌, [], Option, IfOk};
ghost use Rattle.std.specs.Option.{option_map};
ghost use Rattle.nm_base.specs.Geometry.{Geometry, frame_count};
ghost use Rattle.nm_base.specs.PageWord.{frame_of, is_writable, is_dirty};
ghost use Rattle.nm_action.specs.declared.turn.Turn.{Turn};
ghost use Rattle.nm_action.specs.declared.turn.Heard.{Heard};
ghost use Rattle.nm_view.specs.Views.{View};
ghost use Rattle.nm_actor.specs.Turns.{Turns};
ghost use Rattle.nm_actor.specs.Actors.{IsAnswer};
ghost use Rattle.nm_action.specs.declared.turn.Heard.TheVariants.{Answer};
ghost use Rattle.nm_action.specs.declared.action.Reply.TheVariants.{Done, Word};
ghost use Rattle.nm_access.specs.declared.access.AccessStep.TheVariants.{Give};
ghost use Rattle.nm_access.specs.declared.access.AccessStage.TheVariants.{Looking, Faulting, Walking};
ghost use Rattle.nm_access.specs.Faults.{fault_kinds};
ghost use Rattle.nm_access.specs.Accesses.{Carried, is_write, touch_action, serves, is_marked};
ghost use Rattle.nm_access.specs.Accessing.{access_turn, tried_stage, marked_stage, IsAccessHeard, IsCatchingStage, IsToldStage, GivesTurn, DoesTouch, view_then};
ghost use Rattle.nm_access.specs.Moving.{AwaitsOf, IsStepOf, IsTrying, IsOpening, IsGiving, IsFresh};
ghost use Rattle.nm_xlat.specs.declared.translations.Entry.{Entry};
ghost use Rattle.nm_xlat.specs.Translations.{translation_of};
ghost use Rattle.nm_catchup.specs.CatchUp.{Kept, entry_of};
ghost use Rattle.nm_catchup.specs.Catching.{kept_of, AwaitsCatch, IsCatchHeard, IsCatchStep};
ghost use Rattle.nm_catchup.specs.declared.cache.CatchStage.TheVariants.{Polling};
ghost use Rattle.nm_action.specs.declared.action.Action.{Action};
ghost use Rattle.nm_action.specs.declared.action.Action.TheVariants.{Poll};
ghost use Rattle.nm_action.specs.Own.{Own};
ghost use Rattle.nm_event.specs.Fitting.{Fits};
ghost use Rattle.nm_event.specs.After.{view_after};

use crate::faults::Faults;
use crate::made::{AccessMade, Touch};
use nm_base::Geometry;
use nm_base::table_word::{frame_of, has_hint, is_dirty, is_writable};
use nm_catchup::TranslationCache;
use nm_event::{Action, Bit, Heard, Lane, Reply, Step, Tally, Turn};
use nm_part::{Part, Piece};
use std::alloc::{AllocError, Global};

/// How far an access has come.
#[derive(Clone, Copy, Debug, PartialEq, Eq)]
pub(crate) enum AccessStage {
    /// None is under way.
    Resting,
    /// The processor catches up, and then tries its translations.
    CatchingUp,
    /// The virtual page is peeked.
    Peeking,
    /// Its word is looked at, after a peek that gave this stamp.
    Looking(u64),
    /// A fault has given an action.
    Faulting,
    /// The processor catches up, and then makes this action of a fault.
    Waiting(Action),
    /// The hint of the word is cleared.
    Softening,
    /// The word is walked, after a peek that gave this stamp.
    Walking { stamp: u64, word: u64 },
    /// The page is marked as a candidate.
    Marking,
    /// The page is put in the lane of candidates.
    Putting,
    /// The lane is full, and the mark is taken away.
    Unmarking,
    /// The access is made.
    Touching,
}

/// A step of an access.
#[derive(Clone, Copy, Debug, PartialEq, Eq)]
pub enum AccessStep {
    /// It gives this turn.
    Give(Turn),
    /// It is over, and the word that it loaded, or found before a store or an add, was this.
    Over(u64),
}

/// The accesses of a processor, one after the other: its translations, the faults, and what the ends of faults count.
#[derive(Drop)]
pub struct Access<'a, F> {
    geometry: &'a Geometry,
    cache: TranslationCache,
    fault: F,
    made: AccessMade,
    hinted: bool,
    stage: AccessStage,
    tally: Tally,
}

/// Whether something is written.
fn is_write(touch: Touch) -> bool
    ensures { result ≡ is_write touch }
{
    match touch {
        Touch::Load => false,
        Touch::Store(_) | Touch::Add(_) => true,
    }
}

/// The action that touches the word.
fn touch_action(made: AccessMade) -> Action
    ensures { result ≡ touch_action made made.touch }
{
    let AccessMade {
        vpage,
        word,
        touch,
        ..
    } = made;
    match touch {
        Touch::Load => Action::Load { vpage, word },
        Touch::Store(value) => Action::Store { vpage, word, value },
        Touch::Add(value) => Action::Add { vpage, word, value },
    }
}

/// The turn of a stage of one turn.
fn access_turn(made: AccessMade, stage: AccessStage) -> Turn
    ensures { result ≡ access_turn made stage }
{
    let AccessMade {
        vpage,
        page,
        touch,
        ..
    } = made;
    match stage {
        AccessStage::Peeking => Turn::Do(Action::Peek { vpage }),
        AccessStage::Looking(_) => Turn::Do(Action::Look { vpage }),
        AccessStage::Softening => Turn::Do(Action::Soften {
            vpage,
            bit: Bit::Hint,
        }),
        AccessStage::Walking { word, .. } => Turn::Do(Action::Walk {
            vpage,
            expect: word,
            write: is_write(touch),
        }),
        AccessStage::Marking => Turn::Do(Action::Mark {
            page,
            from: 0,
            to: 1,
        }),
        AccessStage::Putting => Turn::Put(Lane::Candidates, page),
        AccessStage::Unmarking => Turn::Do(Action::Mark {
            page,
            from: 1,
            to: 0,
        }),
        AccessStage::Touching => Turn::Do(touch_action(made)),
        AccessStage::Resting
        | AccessStage::CatchingUp
        | AccessStage::Faulting
        | AccessStage::Waiting(_) => Turn::End,
    }
}

/// Whether a translation, if there is one, serves: for a store or an add it has to be dirty.
fn serves(touch: Touch, found: Option<(u32, bool)>) -> bool
    ensures { (entry : Option Entry) → found ≡ option_map translation_of entry → result ≡ serves touch entry }
{
    match found {
        None => false,
        Some((_, dirty)) => !is_write(touch) || dirty,
    }
}

/// Whether a page that was noted as hinted, or was not, is marked after a walk of this word.
fn is_marked(geometry: &Geometry, hinted: bool, word: u64) -> bool
    requires { frame_of word < frame_count geometry.now }
    ensures { result ≡ is_marked geometry.now hinted word }
{
    hinted && geometry.tier_of(frame_of(word)) != 0
}

/// Whether something is written and the word is not writable.
fn needs_right(touch: Touch, word: u64) -> bool
    ensures { result ≡ (is_write touch && not (is_writable word)) }
{
    is_write(touch) && !is_writable(word)
}

/// Whether a write may go through the translation of a word that was walked.
fn walked_dirty(touch: Touch, word: u64) -> bool
    ensures { result ≡ (is_writable word && (is_write touch || is_dirty word)) }
{
    is_writable(word) && (is_write(touch) || is_dirty(word))
}

impl<'a, F: Faults<'a> + Drop> Access<'a, F> {
    /// No translations, and no access yet. The memory of the translations is taken here, and the only error is its want.
    pub fn new(alloc: Global, geometry: &'a Geometry) -> Result<Access<'a, F>, AllocError>
        ensures { IfOk result (λ a. IsFresh geometry.now a) }
    {
        Ok(Access {
            geometry,
            cache: TranslationCache::new(alloc)?,
            fault: F::on_missing(geometry, 0),
            made: AccessMade {
                vpage: 0,
                page: 0,
                word: 0,
                touch: Touch::Load,
            },
            hinted: false,
            stage: AccessStage::Resting,
            tally: Tally::default(),
        })
    }

    /// What the ends of its faults count so far.
    pub fn tally(&self) -> Tally
        ensures { result ≡ self.now.tally }
    {
        self.tally
    }

    /// Begins to catch up before the first access, by a poll.
    pub fn open(&mut self) -> Action
        ensures rest { self.new ≡ record self.old { cache = self.new.cache } }
        ensures kept { kept_of self.new.cache ≡ kept_of self.old.cache }
        ensures stage { self.new.cache.stage ≡ Polling }
        ensures poll { result ≡ Poll }
    {
        self.cache.poll()
    }

    /// The step of that catch up after this reply. Condition: the reply fits its last action.
    pub fn opened(&mut self, reply: Reply) -> Step<()>
        requires { IsCatchHeard self.old.cache reply }
        ensures rest { self.new ≡ record self.old { cache = self.new.cache } }
        ensures step { (was : Kept) (g : Geometry) (view : View) (own : Own) (action : Action) → AwaitsCatch self.old.cache was g view own action
            → Fits g (view_after g view own) action reply → IsCatchStep self.new.cache was g view (own ++ (action, reply) ∷ []) result }
    {
        self.cache.after(reply)
    }

    /// Comes to a stage of one turn, and gives its turn.
    fn go(&mut self, stage: AccessStage) -> AccessStep
        ensures stage { self.new ≡ record self.old { stage = stage } }
        ensures turn { result ≡ Give (access_turn self.old.made stage) }
    {
        self.stage = stage;
        AccessStep::Give(access_turn(self.made, stage))
    }

    /// Makes the access where a translation serves, and else peeks the virtual page.
    fn try_cache(&mut self) -> AccessStep
        ensures stage { self.new ≡ record self.old { stage = tried_stage (serves self.old.made.touch (entry_of (kept_of self.old.cache) self.old.made.vpage)) } }
        ensures turn { result ≡ Give (access_turn self.old.made (tried_stage (serves self.old.made.touch (entry_of (kept_of self.old.cache) self.old.made.vpage)))) }
    {
        if serves(self.made.touch, self.cache.get(self.made.vpage)) {
            self.go(AccessStage::Touching)
        } else {
            self.go(AccessStage::Peeking)
        }
    }

    /// Marks the page candidate where that is due, and else makes the access.
    fn mark(&mut self, word: u64) -> AccessStep
        requires { frame_of word < frame_count self.old.geometry.now }
        ensures stage { self.new ≡ record self.old { stage = marked_stage (is_marked self.old.geometry.now self.old.hinted word) } }
        ensures turn { result ≡ Give (access_turn self.old.made (marked_stage (is_marked self.old.geometry.now self.old.hinted word))) }
    {
        if is_marked(self.geometry, self.hinted, word) {
            self.go(AccessStage::Marking)
        } else {
            self.go(AccessStage::Touching)
        }
    }

    /// Catches up, and then tries the translations.
    fn catch_up(&mut self) -> AccessStep
        ensures step { (g : Geometry) (was : Carried F.Outcome) (view : View) (turns : Turns) → IsTrying (fault_kinds F.shape F.leaves F.waits_at F.missing F.shadowed F.counted) self.old g was view turns
            → IsStepOf (fault_kinds F.shape F.leaves F.waits_at F.missing F.shadowed F.counted) F.made F.awaits self.new g was view turns result }
        ensures made { self.new.made ≡ self.old.made }
        ensures given { GivesTurn result }
    {
        self.stage = AccessStage::CatchingUp;
        AccessStep::Give(Turn::Do(self.cache.poll()))
    }

    /// Gives an action of the fault; where the fault waits, the processor catches up before it.
    fn give(&mut self, action: Action) -> AccessStep
        ensures step { (g : Geometry) (was : Carried F.Outcome) (view : View) (turns : Turns) → IsGiving (fault_kinds F.shape F.leaves F.waits_at F.missing F.shadowed F.counted) F.made F.awaits self.old action g was view turns
            → IsStepOf (fault_kinds F.shape F.leaves F.waits_at F.missing F.shadowed F.counted) F.made F.awaits self.new g was view turns result }
        ensures made { self.new.made ≡ self.old.made }
        ensures given { GivesTurn result }
    {
        if self.fault.waits() {
            self.stage = AccessStage::Waiting(action);
            AccessStep::Give(Turn::Do(self.cache.poll()))
        } else {
            self.stage = AccessStage::Faulting;
            AccessStep::Give(Turn::Do(action))
        }
    }

    /// Goes on after the virtual page was looked at, after a peek that gave this stamp, by its word.
    fn looked(&mut self, stamp: u64, word: u64) -> AccessStep
        requires heard { IsAccessHeard (AwaitsOf (fault_kinds F.shape F.leaves F.waits_at F.missing F.shadowed F.counted) F.made F.awaits self.old) (Answer (Word word)) }
        requires stage { self.old.stage ≡ Looking stamp }
        ensures step { (g : Geometry) (was : Carried F.Outcome) (view : View) (turns : Turns) (turn : Turn) → AwaitsOf (fault_kinds F.shape F.leaves F.waits_at F.missing F.shadowed F.counted) F.made F.awaits self.old g was view turns turn
            → IsAnswer g (view_then g view turns) turn (Answer (Word word)) → IsStepOf (fault_kinds F.shape F.leaves F.waits_at F.missing F.shadowed F.counted) F.made F.awaits self.new g was view (turns ++ (turn, Answer (Word word)) ∷ []) result }
        ensures made { self.new.made ≡ self.old.made }
        ensures given { GivesTurn result }
    {
        let vpage = self.made.vpage;
        if word == 0 {
            self.fault = F::on_missing(self.geometry, vpage);
            let action = self.fault.start();
            self.give(action)
        } else if has_hint(word) {
            self.go(AccessStage::Softening)
        } else if needs_right(self.made.touch, word) {
            self.fault = F::on_shadowed(self.geometry, vpage);
            let action = self.fault.start();
            self.give(action)
        } else {
            self.go(AccessStage::Walking { stamp, word })
        }
    }

    /// Begins an access, by catching up. Conditions where it is begun: the virtual page is mapped to the page, the numbers
    /// are in range, the translations agree with the processor's view, which has no operation, frame or turn, and the
    /// processor has acknowledged a number.
    pub fn begin(&mut self, made: AccessMade) -> AccessStep
        ensures step { (g : Geometry) (was : Carried F.Outcome) (view : View) → IsOpening (fault_kinds F.shape F.leaves F.waits_at F.missing F.shadowed F.counted) self.old made g was view
            → IsStepOf (fault_kinds F.shape F.leaves F.waits_at F.missing F.shadowed F.counted) F.made F.awaits self.new g was view [] result }
        ensures made { self.new.made ≡ made }
        ensures given { GivesTurn result }
    {
        self.made = made;
        self.hinted = false;
        self.catch_up()
    }

    /// Goes on after the translations were brought up to date for an access, or for an action of a fault.
    fn caught(&mut self, reply: Reply) -> AccessStep
        requires heard { IsAccessHeard (AwaitsOf (fault_kinds F.shape F.leaves F.waits_at F.missing F.shadowed F.counted) F.made F.awaits self.old) (Answer reply) }
        requires stage { IsCatchingStage self.old.stage }
        ensures step { (g : Geometry) (was : Carried F.Outcome) (view : View) (turns : Turns) (turn : Turn) → AwaitsOf (fault_kinds F.shape F.leaves F.waits_at F.missing F.shadowed F.counted) F.made F.awaits self.old g was view turns turn
            → IsAnswer g (view_then g view turns) turn (Answer reply) → IsStepOf (fault_kinds F.shape F.leaves F.waits_at F.missing F.shadowed F.counted) F.made F.awaits self.new g was view (turns ++ (turn, Answer reply) ∷ []) result }
        ensures made { self.new.made ≡ self.old.made }
        ensures given { GivesTurn result }
    {
        match self.cache.after(reply) {
            Step::Do(action) => AccessStep::Give(Turn::Do(action)),
            Step::Over(()) => match self.stage {
                AccessStage::Waiting(action) => {
                    self.stage = AccessStage::Faulting;
                    AccessStep::Give(Turn::Do(action))
                }
                AccessStage::CatchingUp => self.try_cache(),
                _ => unreachable!(),
            },
        }
    }

    /// Goes on after an action of a fault was answered.
    fn faulted(&mut self, reply: Reply) -> AccessStep
        requires heard { IsAccessHeard (AwaitsOf (fault_kinds F.shape F.leaves F.waits_at F.missing F.shadowed F.counted) F.made F.awaits self.old) (Answer reply) }
        requires stage { self.old.stage ≡ Faulting }
        ensures step { (g : Geometry) (was : Carried F.Outcome) (view : View) (turns : Turns) (turn : Turn) → AwaitsOf (fault_kinds F.shape F.leaves F.waits_at F.missing F.shadowed F.counted) F.made F.awaits self.old g was view turns turn
            → IsAnswer g (view_then g view turns) turn (Answer reply) → IsStepOf (fault_kinds F.shape F.leaves F.waits_at F.missing F.shadowed F.counted) F.made F.awaits self.new g was view (turns ++ (turn, Answer reply) ∷ []) result }
        ensures made { self.new.made ≡ self.old.made }
        ensures given { GivesTurn result }
    {
        match self.fault.after(reply) {
            Step::Do(action) => self.give(action),
            Step::Over(end) => {
                self.tally = self.tally.plus(F::counts(end));
                self.catch_up()
            }
        }
    }

    /// Goes on after a walk of this word was done, after a peek that gave this stamp.
    fn walked(&mut self, stamp: u64, word: u64) -> AccessStep
        requires heard { IsAccessHeard (AwaitsOf (fault_kinds F.shape F.leaves F.waits_at F.missing F.shadowed F.counted) F.made F.awaits self.old) (Answer Done) }
        requires stage { self.old.stage ≡ Walking stamp word }
        ensures step { (g : Geometry) (was : Carried F.Outcome) (view : View) (turns : Turns) (turn : Turn) → AwaitsOf (fault_kinds F.shape F.leaves F.waits_at F.missing F.shadowed F.counted) F.made F.awaits self.old g was view turns turn
            → IsAnswer g (view_then g view turns) turn (Answer Done) → IsStepOf (fault_kinds F.shape F.leaves F.waits_at F.missing F.shadowed F.counted) F.made F.awaits self.new g was view (turns ++ (turn, Answer Done) ∷ []) result }
        ensures made { self.new.made ≡ self.old.made }
        ensures given { GivesTurn result }
    {
        let frame = frame_of(word);
        let dirty = walked_dirty(self.made.touch, word);
        self.cache.put(self.made.vpage, frame, dirty, stamp);
        self.mark(word)
    }

    /// The step after what is heard of the last turn. Condition: it answers that turn, and a reply fits. The access is over
    /// exactly where its word was touched.
    pub fn after(&mut self, heard: Heard) -> AccessStep
        requires { IsAccessHeard (AwaitsOf (fault_kinds F.shape F.leaves F.waits_at F.missing F.shadowed F.counted) F.made F.awaits self.old) heard }
        ensures step { (g : Geometry) (was : Carried F.Outcome) (view : View) (turns : Turns) (turn : Turn) → AwaitsOf (fault_kinds F.shape F.leaves F.waits_at F.missing F.shadowed F.counted) F.made F.awaits self.old g was view turns turn
            → IsAnswer g (view_then g view turns) turn heard → IsStepOf (fault_kinds F.shape F.leaves F.waits_at F.missing F.shadowed F.counted) F.made F.awaits self.new g was view (turns ++ (turn, heard) ∷ []) result }
        ensures made { self.new.made ≡ self.old.made }
        ensures touched { DoesTouch self.old.stage heard result }
    {
        let reply = match heard {
            Heard::Answer(reply) => reply,
            Heard::PutDone => return self.go(AccessStage::Touching),
            Heard::PutFull => return self.go(AccessStage::Unmarking),
            Heard::Start | Heard::Took(_) | Heard::TookNone => unreachable!(),
        };
        match self.stage {
            AccessStage::CatchingUp | AccessStage::Waiting(_) => self.caught(reply),
            AccessStage::Faulting => self.faulted(reply),
            AccessStage::Softening => {
                self.hinted = true;
                self.go(AccessStage::Peeking)
            }
            AccessStage::Unmarking => self.go(AccessStage::Touching),
            AccessStage::Resting | AccessStage::Putting => unreachable!(),
            AccessStage::Peeking
            | AccessStage::Looking(_)
            | AccessStage::Walking { .. }
            | AccessStage::Marking
            | AccessStage::Touching => self.told(reply),
        }
    }

    /// Goes on after a turn of which the answer decides.
    fn told(&mut self, reply: Reply) -> AccessStep
        requires heard { IsAccessHeard (AwaitsOf (fault_kinds F.shape F.leaves F.waits_at F.missing F.shadowed F.counted) F.made F.awaits self.old) (Answer reply) }
        requires stage { IsToldStage self.old.stage }
        ensures step { (g : Geometry) (was : Carried F.Outcome) (view : View) (turns : Turns) (turn : Turn) → AwaitsOf (fault_kinds F.shape F.leaves F.waits_at F.missing F.shadowed F.counted) F.made F.awaits self.old g was view turns turn
            → IsAnswer g (view_then g view turns) turn (Answer reply) → IsStepOf (fault_kinds F.shape F.leaves F.waits_at F.missing F.shadowed F.counted) F.made F.awaits self.new g was view (turns ++ (turn, Answer reply) ∷ []) result }
        ensures made { self.new.made ≡ self.old.made }
        ensures touched { DoesTouch self.old.stage (Answer reply) result }
    {
        match reply {
            Reply::Word(word) => match self.stage {
                AccessStage::Peeking => self.go(AccessStage::Looking(word)),
                AccessStage::Looking(stamp) => self.looked(stamp, word),
                AccessStage::Touching => AccessStep::Over(word),
                _ => unreachable!(),
            },
            Reply::Done => match self.stage {
                AccessStage::Walking { stamp, word } => self.walked(stamp, word),
                AccessStage::Marking => self.go(AccessStage::Putting),
                _ => unreachable!(),
            },
            Reply::Lost(_) => match self.stage {
                AccessStage::Walking { .. } => self.go(AccessStage::Peeking),
                AccessStage::Marking => self.go(AccessStage::Touching),
                _ => unreachable!(),
            },
            Reply::Busy(_) => unreachable!(),
        }
    }
}
