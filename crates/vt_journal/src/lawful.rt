//! Laws of the texts of journals: each is the contract of a function that does nothing.

ghost use Rattle.std.specs.Prelude.{◌≡◌, ◌↔◌, ◌≤◌, ◌++◌, ◌∷◌, [], ℕ, List, length};
ghost use Rattle.vt_pages.specs.Shape.{Shape};
ghost use Rattle.vt_journal.specs.declared.parse.JournalError.{JournalError};
ghost use Rattle.vt_journal.specs.Changes.{AreInTurn, Pinned};
ghost use Rattle.vt_journal.specs.JournalText.{Pass, Content, changes_of, head_lines, pinned_changes, journal_text, content_lines, content_changes, pass_lines};
ghost use Rattle.vt_journal.specs.Following.{IsPassAfter, MayBePinned, IsLawfulByParts};
ghost use Rattle.vt_journal.specs.JournalFlaws.{Reading, pinned_by, nothing_read, AreAdmitted, after_all, IsComplete, IsLawfulJournal, IsJournalFlaw};

/// Two lawful contents have two texts.
pub fn journal_text_is_unique()
    ensures { (s : Shape) (height : ℕ) (c d : Content) → 1 ≤ s.tile → IsLawfulJournal s height c → IsLawfulJournal s height d
        → journal_text s c ≡ journal_text s d → c ≡ d }
{}

/// The text of a lawful content has no flaw.
pub fn lawful_text_has_no_flaw()
    ensures { (s : Shape) (height : ℕ) (text : List ℕ) (c : Content) (e : JournalError) → 1 ≤ s.tile → IsLawfulJournal s height c
        → text ≡ journal_text s c → ¬ IsJournalFlaw s height text e }
{}

/// A text has one first flaw.
pub fn journal_flaw_is_unique()
    ensures { (s : Shape) (height : ℕ) (text : List ℕ) (e f : JournalError) → 1 ≤ s.tile → IsJournalFlaw s height text e
        → IsJournalFlaw s height text f → e ≡ f }
{}

/// The changes of a lawful content come in turn.
pub fn lawful_journal_is_in_turn()
    ensures { (s : Shape) (height : ℕ) (c : Content) → IsLawfulJournal s height c → AreInTurn (content_changes s c) }
{}

/// A lawful content with one pass more is lawful, where the lines of the pass may come next and leave none missing; what
/// the lines before it told is the journal of their content.
pub fn lawful_content_grows()
    ensures lawful { (s : Shape) (height : ℕ) (c : Content) (p : Pass) → IsLawfulJournal s height c
        → AreAdmitted s height (after_all nothing_read (content_lines s c)) (pass_lines p)
        → IsComplete s height (after_all (after_all nothing_read (content_lines s c)) (pass_lines p))
        → IsLawfulJournal s height (record { pinned = c.pinned; passes = c.passes ++ p ∷ [] }) }
    ensures spelled { (s : Shape) (c : Content) → (after_all nothing_read (content_lines s c)).changes ≡ content_changes s c }
{}

/// A pass that may come next by its parts may come next by its lines: its number and its picture follow those before it,
/// it starts at the newest version, each event may come after those before it, and it has all rows of a picture, each with
/// a version of the pass, where those of one sampler never fall. After it the text may end.
pub fn pass_may_follow()
    ensures admitted { (s : Shape) (height pinned : ℕ) (r : Reading) (p : Pass) → IsComplete s height r
        → pinned_by s r.changes ≡ pinned → 1 ≤ length r.changes
        → IsPassAfter s height pinned r.changes r.passes r.picture p
        → AreAdmitted s height r (pass_lines p) }
    ensures complete { (s : Shape) (height pinned : ℕ) (r : Reading) (p : Pass)
        → IsPassAfter s height pinned r.changes r.passes r.picture p
        → IsComplete s height (after_all r (pass_lines p)) }
    ensures spelled { (r : Reading) (p : Pass) → after_all r (pass_lines p)
        ≡ record {
          changes = r.changes ++ changes_of p.events;
          passes = p.pass;
          picture = p.picture;
          start = p.start;
          rows = p.rows;
        } }
{}

/// The pinned pages alone are a lawful content, where there is one at least, there are no more than pages, and each has a
/// frame that a text may name.
pub fn head_is_lawful()
    ensures lawful { (s : Shape) (height pinned : ℕ) → MayBePinned s pinned
        → IsLawfulJournal s height (record { pinned = pinned; passes = [] }) }
    ensures spelled { (s : Shape) (pinned : ℕ) → after_all nothing_read (head_lines s pinned)
        ≡ record { changes = pinned_changes s pinned; passes = 0; picture = 0; start = 0; rows = [] } }
{}

/// What is true of a pass that was read: it may come next by its parts.
pub fn pass_was_next()
    ensures { (s : Shape) (height pinned : ℕ) (r : Reading) (p : Pass) → AreAdmitted s height r (pass_lines p)
        → IsComplete s height (after_all r (pass_lines p)) → pinned_by s r.changes ≡ pinned → 1 ≤ length r.changes
        → IsPassAfter s height pinned r.changes r.passes r.picture p }
{}

/// A content is lawful exactly where it is by its parts: its pages may be pinned, and its passes follow one another.
pub fn lawful_by_parts()
    ensures { (s : Shape) (height : ℕ) (c : Content) → IsLawfulJournal s height c ↔ IsLawfulByParts s height c }
{}

/// The pinned pages of a lawful content are pinned: their maps come first, and no later change unmaps one (Mayer 2010).
pub fn lawful_pages_are_pinned()
    ensures { (s : Shape) (height : ℕ) (c : Content) → IsLawfulJournal s height c → Pinned s (content_changes s c) c.pinned }
{}
