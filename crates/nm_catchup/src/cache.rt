//! The translations that a processor keeps.

ghost use Rattle.std.specs.Prelude.{◌≡◌, ℕ, ◌++◌, ◌∷◌, [], Some, None, IfOk};
ghost use Rattle.std.specs.Option.{option_map};
ghost use Rattle.nm_base.specs.Geometry.{Geometry};
ghost use Rattle.nm_action.specs.declared.action.Action.{Action};
ghost use Rattle.nm_action.specs.declared.action.Action.TheVariants.{Poll};
ghost use Rattle.nm_action.specs.Own.{Own};
ghost use Rattle.nm_view.specs.Views.{View};
ghost use Rattle.nm_event.specs.Fitting.{Fits};
ghost use Rattle.nm_event.specs.After.{view_after};
ghost use Rattle.nm_xlat.specs.Translations.{translation_of};
ghost use Rattle.nm_setcache.specs.SetAssociative.{put_in_set};
ghost use Rattle.nm_catchup.specs.declared.cache.CatchStage.TheVariants.{Polling};
ghost use Rattle.nm_catchup.specs.CatchUp.{Kept, entry_of, is_news, peeked_with};
ghost use Rattle.nm_catchup.specs.Catching.{kept_of, AwaitsCatch, IsCatchStep, IsCatchHeard, IsPeekingFrom};

use nm_event::{AckTo, Action, Reply, Step};
use nm_setcache::SetCache;
use nm_xlat::Translations;
use std::alloc::{AllocError, Global};

/// How many sets the cache of a processor has.
const SETS: u32 = 16;

/// How many entries each set may have.
const WAYS: u32 = 4;

/// How far a catch up has come.
#[derive(Clone, Copy, Debug, PartialEq, Eq)]
pub(crate) enum CatchStage {
    /// None is under way.
    Resting,
    /// The number of bumps is polled.
    Polling,
    /// That number is news, and this page is peeked.
    Peeking { number: u64, vpage: u32 },
    /// Every cached page was peeked, and the number is acknowledged.
    Acknowledging(u64),
}

/// What a processor keeps of its translations: a cache of 16 sets of 4 ways, and the number of bumps that it acknowledged
/// last. A catch up brings it up to date, one action at a time.
#[derive(Debug, Drop)]
pub struct TranslationCache {
    entries: SetCache,
    acked: Option<u64>,
    stage: CatchStage,
}

/// Whether a number of bumps is greater than the one that was acknowledged last, or none was.
fn is_news(acked: Option<u64>, number: u64) -> bool
    ensures { result ≡ is_news acked number }
{
    match acked {
        None => true,
        Some(acked) => acked < number,
    }
}

impl TranslationCache {
    /// No translations, and nothing acknowledged. The memory of the cache is taken here, and the only error is its want.
    pub fn new(alloc: Global) -> Result<TranslationCache, AllocError>
        ensures { IfOk result (λ c. kept_of c ≡ record { cache = record { sets = 16; ways = 4; entries = [] }; acked = None }) }
    {
        Ok(TranslationCache {
            entries: SetCache::with_room(alloc, SETS, WAYS)?,
            acked: None,
            stage: CatchStage::Resting,
        })
    }

    /// The frame of a page's translation, and whether a write may go through it; `None` exactly where the page has none.
    pub fn get(&self, vpage: u32) -> Option<(u32, bool)>
        ensures { result ≡ option_map translation_of (entry_of (kept_of self.now) vpage) }
    {
        self.entries.get(vpage)
    }

    /// Caches the translation of a page. Where its set is full and the page is new there, the least page of the set is
    /// dropped.
    pub fn put(&mut self, vpage: u32, frame: u32, dirty: bool, stamp: u64)
        ensures { kept_of self.new ≡ record (kept_of self.old) { cache = put_in_set (record { page = vpage; entry = record { frame = frame; dirty = dirty; stamp = stamp } }) (kept_of self.old).cache } }
    {
        self.entries.put(vpage, frame, dirty, stamp);
    }

    /// Begins to catch up, by a poll.
    pub fn poll(&mut self) -> Action
        ensures kept { kept_of self.new ≡ kept_of self.old }
        ensures stage { self.new.stage ≡ Polling }
        ensures poll { result ≡ Poll }
    {
        self.stage = CatchStage::Polling;
        Action::Poll
    }

    /// Peeks the least cached page from this one on; where there is none, acknowledges the number.
    fn peek_from(&mut self, from: u32, number: u64) -> Step<()>
        ensures { (g : Geometry) (was : Kept) (view : View) (own : Own) → IsPeekingFrom g number from (kept_of self.old) was view own
            → IsCatchStep self.new was g view own result }
    {
        match self.entries.next(from) {
            Some(vpage) => {
                self.stage = CatchStage::Peeking { number, vpage };
                Step::Do(Action::Peek { vpage })
            }
            None => {
                self.stage = CatchStage::Acknowledging(number);
                Step::Do(Action::Ack { to: AckTo::Seen })
            }
        }
    }

    /// Drops the entry of a page unless it has this stamp.
    fn check(&mut self, vpage: u32, stamp: u64)
        ensures { kept_of self.new ≡ peeked_with vpage stamp (kept_of self.old) }
    {
        if self.entries.stamp_of(vpage) != Some(stamp) {
            self.entries.drop_entry(vpage);
        }
    }

    /// The step after this reply to the last action of the catch up. Condition: the reply fits that action. The catch up is
    /// over once the number was acknowledged, or was no news.
    pub fn after(&mut self, reply: Reply) -> Step<()>
        requires { IsCatchHeard self.old reply }
        ensures { (was : Kept) (g : Geometry) (view : View) (own : Own) (action : Action) → AwaitsCatch self.old was g view own action
            → Fits g (view_after g view own) action reply → IsCatchStep self.new was g view (own ++ (action, reply) ∷ []) result }
    {
        match self.stage {
            CatchStage::Resting => unreachable!(),
            CatchStage::Polling => {
                let Reply::Word(number) = reply else {
                    unreachable!()
                };
                if is_news(self.acked, number) {
                    self.peek_from(0, number)
                } else {
                    Step::Over(())
                }
            }
            CatchStage::Peeking { number, vpage } => {
                let Reply::Word(stamp) = reply else {
                    unreachable!()
                };
                self.check(vpage, stamp);
                self.peek_from(vpage + 1, number)
            }
            CatchStage::Acknowledging(number) => {
                self.acked = Some(number);
                Step::Over(())
            }
        }
    }
}
