//! The laws of journals, as functions without a body: each clause holds for every layout and journal.

ghost use Rattle.std.specs.Prelude.{◌≡◌, ◌<◌, ◌≤◌, ◌+◌, length, is_some, ◌++◌, ◌∷◌, [], ℕ, Option, All, Contains, List, IsTrue, IsFalse, Some, None, ⊤};
ghost use Rattle.journal.specs.declared.entries.Entry.{Entry};
ghost use Rattle.journal.specs.declared.layouts.Layout.{Layout};
ghost use Rattle.journal.specs.Layout.{InBounds};
ghost use Rattle.pool_rules.specs.declared.next_load.Next.TheVariants as Next;
ghost use Rattle.pool_rules.specs.declared.want.Want.{Want};
ghost use Rattle.pool_rules.specs.Events.{has_full, has_stop, page_ended, replaces_wants};
ghost use Rattle.pool_rules.specs.Next.{is_full, next_after};
ghost use Rattle.pool_rules.specs.Numbers.{holds, is_among};
ghost use Rattle.pool_rules.specs.Rules.{IsLegal};
ghost use Rattle.pool_rules.specs.Settled.{HasSettled, IsSettled, LastSettle, has_failed_need, last_settle, lists_uppers};
ghost use Rattle.pool_rules.specs.Sound.{IsSound};
ghost use Rattle.pool_rules.specs.State.{is_live, is_resident, state_of};
ghost use Rattle.pool_rules.specs.Victim.{victim_after, IsVictim, HasNoVictim};

/// After every legal journal, for every layout within its bounds: root pages are resident; the uppers of
/// each resident or loading page are resident; no page is both resident and loading, and both kinds
/// together are at most the slots; each pinned page is resident.
pub fn legal_journals_are_sound()
    ensures { (layout : Layout) (journal : List Entry) → InBounds layout → IsLegal layout journal →
        IsSound layout (state_of layout journal) }
{}

/// The victim is the least recently used of the evictable pages, and the greatest number at ties; there is
/// none if no page is evictable.
pub fn victims_are_least_recently_used()
    ensures victim { (layout : Layout) (journal : List Entry) (page victim : ℕ) →
        victim_after layout journal page ≡ Some victim →
        IsVictim layout (state_of layout journal) page victim }
    ensures no_candidate { (layout : Layout) (journal : List Entry) (page : ℕ) →
        victim_after layout journal page ≡ None →
        HasNoVictim layout (state_of layout journal) page }
{}

/// After every legal journal no resident page is wanted. After one entry more, whichever it is, a want of a
/// live frame is still there, unless the entry ends a load of its page or replaces the frame's wants, as a
/// Settle and an Ask of the frame do.
pub fn wants_last_until_their_load_ends()
    ensures absent_pages { (layout : Layout) (journal : List Entry) → IsLegal layout journal →
        All (λ want. IsFalse (is_resident (state_of layout journal) want.page))
        (state_of layout journal).wants }
    ensures lasting_wants { (layout : Layout) (journal : List Entry) (entry : Entry) (want : Want) →
        IsTrue (is_live (state_of layout journal).frames want.frame) →
        IsFalse (holds (page_ended entry.what) want.page) →
        IsFalse (replaces_wants entry.what want.frame) →
        Contains (state_of layout journal).wants want →
        Contains (state_of layout (journal ++ entry ∷ [])).wants want }
{}

/// The state is stopped exactly if some entry is a Stop.
pub fn a_stop_is_seen()
    ensures { (layout : Layout) (journal : List Entry) →
        (state_of layout journal).stopped ≡ has_stop journal }
{}

/// Where there is a slot for each page, nobody finds the pool full: whatever page can be taken, a slot is
/// free for it.
pub fn large_pools_are_never_full()
    ensures { (layout : Layout) (journal : List Entry) (frame : Option ℕ) →
        InBounds layout → IsLegal layout journal → layout.pages ≤ layout.slots →
        IsFalse (is_full (next_after layout journal frame)) }
{}

/// A frame that settled and is left alone since keeps the pages of its Settle resident. If nothing is then
/// left to take for it, a load failed after the Settle for each missing page that is not resident: of the
/// page, or of a missing page on which it depends, directly or through others. Other makers may enter what
/// they like in between.
pub fn nothing_left_means_failed()
    ensures pages { (layout : Layout) (journal : List Entry) (frame : ℕ) (settle : LastSettle) →
        HasSettled layout journal frame settle → (page : ℕ) →
        IsTrue (is_among settle.pages page) → IsTrue (is_resident (state_of layout journal) page) }
    ensures missing { (layout : Layout) (journal : List Entry) (frame : ℕ) (settle : LastSettle) →
        HasSettled layout journal frame settle →
        IsTrue (lists_uppers layout settle.pages settle.missing) →
        next_after layout journal (Some frame) ≡ Next.Nothing → (page : ℕ) →
        IsTrue (is_among settle.missing page) →
        IsFalse (is_resident (state_of layout journal) page) →
        IsTrue (has_failed_need layout settle.missing settle.after page) }
{}

/// What a frame misses when it looks again is settled, whatever is entered later but for a Settle of the
/// frame: where nothing was left to take for it, and where it found the pool full.
pub fn records_are_settled()
    ensures nothing { (layout : Layout) (journal later : List Entry) (frame : ℕ) (settle : LastSettle)
        (missing : List ℕ) → HasSettled layout journal frame settle →
        IsTrue (lists_uppers layout settle.pages settle.missing) →
        next_after layout journal (Some frame) ≡ Next.Nothing →
        IsFalse (is_some (last_settle frame later)) →
        All (λ page. IsTrue (is_among settle.missing page)
        × IsFalse (is_resident (state_of layout journal) page)) missing →
        IsSettled layout (journal ++ later) frame (length journal + 1) missing }
    ensures full { (layout : Layout) (journal later : List Entry) (frame : ℕ) (settle : LastSettle)
        (missing : List ℕ) → last_settle frame journal ≡ Some settle →
        IsFalse (is_some (last_settle frame later)) → IsTrue (has_full frame settle.after) →
        IsSettled layout (journal ++ later) frame (length journal + 1) missing }
{}
