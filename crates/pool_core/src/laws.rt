//! The laws of every run. The functions do nothing; their contracts say the laws, over every list of events.
ghost use Rattle.std.specs.Prelude.{◌≡◌, ℕ, ◌≤◌, List, length, slice_get, Some};
ghost use Rattle.pool_core.specs.declared.state.CorePage.{CorePage};
ghost use Rattle.pool_core.specs.declared.event.Event.{Event};
ghost use Rattle.pool_core.specs.State.{State, OnPage};
ghost use Rattle.pool_core.specs.Enabled.{Enabled};
ghost use Rattle.pool_core.specs.Effects.{Acts};
ghost use Rattle.pool_core.specs.Run.{IsRun, Opened};
ghost use Rattle.pool_core.specs.Sound.{TurnsLie, PagesLie, MarksHold, Sound};
ghost use Rattle.pool_core.specs.Laws.{FramesApart, frames_in_use, WritersAlone, IsSamePage, KeepsRead, RanRead, BodiesStand, TextsStand};

/// What holds of a core's state holds when it is opened, and after each event that a state enables.
pub fn the_state_stays_sound()
    ensures opened { (bytes frames count : ℕ) (s : State) → Opened bytes frames count s → Sound s }
    ensures step { (old new : State) (event : Event) → Sound old → Enabled old event → Acts old event new → Sound new }
    ensures run { (bytes frames count : ℕ) (events : List Event) (s : State) → IsRun bytes frames count events s → Sound s }
{}

/// Each frame is in one place: the spare of its turn, or the body of the page that owns its turn. So two pages never have
/// one frame, and at most as many frames are in use as there are.
pub fn each_frame_is_in_one_place()
    ensures count { (bytes frames count : ℕ) (events : List Event) (s : State) → IsRun bytes frames count events s → (s.page ≡ bytes) × (length s.turns ≡ frames) }
    ensures turns { (bytes frames count : ℕ) (events : List Event) (s : State) → IsRun bytes frames count events s → TurnsLie bytes s.turns s.pages }
    ensures pages { (bytes frames count : ℕ) (events : List Event) (s : State) → IsRun bytes frames count events s → PagesLie bytes s.turns s.pages }
    ensures apart { (bytes frames count : ℕ) (events : List Event) (s : State) → IsRun bytes frames count events s → FramesApart s.pages }
    ensures few { (bytes frames count : ℕ) (events : List Event) (s : State) → IsRun bytes frames count events s → length (frames_in_use s.pages) ≤ frames }
{}

/// A page with a writer has no reader, and a page that is read keeps its body, its frame and its image: over each event, and
/// over every run on the way of which it is read.
pub fn read_pages_stay()
    ensures alone { (bytes frames count : ℕ) (events : List Event) (s : State) → IsRun bytes frames count events s → WritersAlone s.pages }
    ensures step { (bytes frames count : ℕ) (events : List Event) (old new : State) (event : Event) → IsRun bytes frames count events old → Enabled old event → Acts old event new → KeepsRead old.pages new.pages }
    ensures run { (bytes frames count : ℕ) (before after : List Event) (old new : State) (page : ℕ) (p : CorePage) → IsRun bytes frames count before old → RanRead page old after new
        → slice_get old.pages page ≡ Some p → OnPage new.pages page (λ q. IsSamePage p q) }
{}

/// Every body stands for the content with which its page was sealed.
pub fn bodies_stand()
    ensures { (bytes frames count : ℕ) (events : List Event) (s : State) → IsRun bytes frames count events s → BodiesStand s.pages }
{}

/// Where an actor has looked at a row page, it reads that page and its heap pages, all are resident, and each part's base is its
/// heap page's frame times the page. So each long cell's address leads to its text.
pub fn looked_texts_are_the_stored_ones()
    ensures looked { (bytes frames count : ℕ) (events : List Event) (s : State) → IsRun bytes frames count events s → MarksHold bytes s.pages s.marks }
    ensures texts { (bytes frames count : ℕ) (events : List Event) (s : State) → IsRun bytes frames count events s → TextsStand s }
{}
