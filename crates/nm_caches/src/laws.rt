//! What holds of caches and flushes after every permitted step.

ghost use Rattle.std.specs.Prelude.{◌≡◌, ℕ, Some};
ghost use Rattle.nm_base.specs.Geometry.{Geometry, backing_page};
ghost use Rattle.nm_base.specs.HomeWord.{home_word};
ghost use Rattle.nm_action.specs.declared.action.Action.{Action};
ghost use Rattle.nm_view.specs.declared.view.CacheEntry.{CacheEntry};
ghost use Rattle.nm_view.specs.Lists.{find};
ghost use Rattle.nm_view.specs.Operations.{cached_page, IsFlushEnded};
ghost use Rattle.nm_view.specs.Views.{Op};
ghost use Rattle.nm_world.specs.Worlds.{World, moved, pte_at, home_at, op_at};
ghost use Rattle.nm_world.specs.Notions.{IsStanding};
ghost use Rattle.nm_world.specs.CacheLaw.{CacheLaw};
ghost use Rattle.nm_world.specs.Laws.{AreAll, IsReady};
ghost use Rattle.nm_caches.specs.Facts.{HasCacheFacts};

/// Each step that can be made keeps the cache law, of whatever kind it is.
pub fn each_step_keeps_the_cache_law()
    ensures { (g : Geometry) (m : World) (actor : ℕ) (action : Action) → IsReady g m actor action → HasCacheFacts g m
        → CacheLaw g m → CacheLaw g (moved g m actor action) }
{}

/// Where all the groups hold, the cache law holds after each step that can be made: the other groups have what it takes.
pub fn the_cache_law_is_kept_among_all()
    ensures { (g : Geometry) (m : World) (actor : ℕ) (action : Action) → AreAll g m → IsReady g m actor action
        → CacheLaw g (moved g m actor action) }
{}

/// Once the flush of an operation ended, whatever any processor caches of its page stands on the table word.
pub fn an_ended_flush_leaves_what_stands()
    ensures { (g : Geometry) (m : World) (actor page : ℕ) (o : Op) → AreAll g m → op_at m actor page ≡ Some o
        → IsFlushEnded g o → (p v : ℕ) (e : CacheEntry) → backing_page g v ≡ Some page
        → find cached_page v (m.view p).cache ≡ Some e → IsStanding (pte_at m v) e }
{}

/// A cached translation leads to the home of its page.
pub fn a_cached_translation_leads_home()
    ensures { (g : Geometry) (m : World) (p v page : ℕ) (e : CacheEntry) → CacheLaw g m
        → find cached_page v (m.view p).cache ≡ Some e → backing_page g v ≡ Some page → home_at m page ≡ home_word e.frame }
{}
