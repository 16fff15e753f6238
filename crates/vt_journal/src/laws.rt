//! Laws of the versions and of look-ups, for code that keeps a page table beside a journal: each is the contract of a
//! function that does nothing.

ghost use Rattle.std.specs.Prelude.{◌≡◌, ◌≢◌, ◌↔◌, ◌⊎◌, ℕ, ◌+◌, ◌-◌, ◌<◌, ◌≤◌, List, [], ◌∷◌, ◌++◌, length, Some, None, slice_get};
ghost use Rattle.vt_pages.specs.Shape.{Shape};
ghost use Rattle.vt_pages.specs.Pages.{pages_of, root_of, level_of, levels_of, ancestors_of};
ghost use Rattle.vt_pages.specs.Laws.{ReachesRoot};
ghost use Rattle.vt_pages.specs.Lookups.{lookup};
ghost use Rattle.vt_journal.specs.declared.changes.Change.{Change};
ghost use Rattle.vt_journal.specs.declared.changes.Change.TheVariants.{Map, Unmap};
ghost use Rattle.vt_journal.specs.Changes.{Table, at, newest, changed, IsFree, IsNext, IsLegalNext, AreInTurn, AreLegal, Pinned, IsOneToOne};
ghost use Rattle.vt_journal.specs.Lookups.{is_mapped, IsFinest, IsAway, change_page};

/// Version 0 maps nothing, each change makes the next version, and no version changes as the journal grows.
pub fn changes_make_versions()
    ensures first { (p : ℕ) → newest [] p ≡ None }
    ensures next { (js : List Change) (v : ℕ) (c : Change) → slice_get js v ≡ Some c → at js (v + 1) ≡ changed (at js v) c }
    ensures newest { (js : List Change) (c : Change) → newest (js ++ c ∷ []) ≡ changed (newest js) c }
    ensures stay { (js ks : List Change) (v : ℕ) → v ≤ length js → at (js ++ ks) v ≡ at js v }
{}

/// What a change does to the entries of a page table: the page has the frame, or none, and all others stay.
pub fn change_sets_one_entry()
    ensures map { (m : Table) (page frame : ℕ) → changed m (Map page frame) page ≡ Some frame }
    ensures unmap { (m : Table) (page frame : ℕ) → changed m (Unmap page frame) page ≡ None }
    ensures other { (m : Table) (c : Change) (p : ℕ) → p ≢ change_page c → changed m c p ≡ m p }
{}

/// What a change does to the free frames.
pub fn change_frees_or_takes_one_frame()
    ensures map { (m : Table) (page frame g : ℕ) → IsNext m (Map page frame)
        → IsFree (changed m (Map page frame)) g ↔ ((g ≢ frame) × IsFree m g) }
    ensures unmap { (m : Table) (page frame g : ℕ) → IsOneToOne m → IsNext m (Unmap page frame)
        → IsFree (changed m (Unmap page frame)) g ↔ ((g ≡ frame) ⊎ IsFree m g) }
{}

/// No version maps two pages to one frame.
pub fn frames_hold_one_page()
    ensures { (js : List Change) (v : ℕ) → AreInTurn js → v ≤ length js → IsOneToOne (at js v) }
{}

/// A journal that grows by a change that may come next stays in turn, legal, and pinned.
pub fn journal_grows()
    ensures in_turn { (js : List Change) (c : Change) → AreInTurn js → IsNext (newest js) c → AreInTurn (js ++ c ∷ []) }
    ensures legal { (s : Shape) (js : List Change) (c : Change) → AreLegal s js → IsLegalNext s (newest js) c
        → AreLegal s (js ++ c ∷ []) }
    ensures pinned { (s : Shape) (js : List Change) (c : Change) (n : ℕ) → Pinned s js n → n ≤ length js
        → ((page frame : ℕ) → c ≡ Unmap page frame → page + n < pages_of s) → Pinned s (js ++ c ∷ []) n }
{}

/// The empty journal is legal, the changes of a legal journal come in turn, and a journal in turn whose pinned pages are
/// kept is legal, since the root is one of them.
pub fn legal_journals()
    ensures none { (s : Shape) → AreLegal s [] }
    ensures in_turn { (s : Shape) (js : List Change) → AreLegal s js → AreInTurn js }
    ensures pinned { (s : Shape) (js : List Change) (n : ℕ) → root_of s + 1 ≡ pages_of s → 1 ≤ n → AreInTurn js → Pinned s js n
        → AreLegal s js }
{}

/// Each pinned page is mapped to its frame from its own version on (Mayer 2010).
pub fn pinned_pages_stay()
    ensures { (s : Shape) (js : List Change) (n v i : ℕ) → AreInTurn js → Pinned s js n → v ≤ length js → i < n → i < v
        → at js v (pages_of s - n + i) ≡ Some i }
{}

/// A look-up is the finest mapped page among a page and its ancestors, where there is one; so it is where the root is
/// mapped (van Waveren 2012).
pub fn lookup_is_finest()
    ensures finest { (s : Shape) (m : Table) (p a : ℕ) → (lookup s (is_mapped m) p ≡ Some a) ↔ IsFinest s m p a }
    ensures root { (s : Shape) (m : Table) (p f : ℕ) → ReachesRoot s p → level_of s p < levels_of s → m (root_of s) ≡ Some f
        → (a : ℕ) × (lookup s (is_mapped m) p ≡ Some a) }
{}

/// A change of a page that is neither the page nor one of its ancestors leaves the look-up as it was.
pub fn lookup_stays()
    ensures { (s : Shape) (m : Table) (c : Change) (p : ℕ) → IsAway (change_page c) (ancestors_of s p)
        → lookup s (is_mapped (changed m c)) p ≡ lookup s (is_mapped m) p }
{}
