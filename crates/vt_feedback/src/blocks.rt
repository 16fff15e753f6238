//! Counts by blocks of pages. A picture wants few pages of a large texture, so most blocks have none, and a mark says which.

ghost use Rattle.std.specs.Prelude.{◌≡◌, ℕ, ◌+◌, ◌*◌, ◌^◌, ◌<◌, ◌≤◌, Bool, false, length, slice_index};
ghost use Rattle.std.specs.Bool.{MatchBool};
ghost use Rattle.vt_feedback.specs.Blocks.{AreMarked};

/// How many pages a block has.
pub(crate) const BLOCK: usize = 64;

/// Where the block ends whose first page this is, of so many pages.
pub(crate) fn block_end(first: usize, pages: usize) -> usize
    requires { first ≤ pages }
    ensures order { first ≤ result }
    ensures inside { result ≤ pages }
    ensures few { result ≤ first + 64 }
    ensures all { result < pages → result ≡ first + 64 }
{
    first + BLOCK.min(pages - first)
}

// Whether no pixel wants a page from one on up to another.
fn are_unwanted(counts: &[u32], first: usize, end: usize) -> bool
    requires { end ≤ length counts.now }
    ensures { MatchBool result ((p : ℕ) → first ≤ p → p < end → slice_index counts.now p ≡ 0) (Unit {0}) }
{
    let mut pixels = 0;
    for i in first..end {
        pixels |= counts[i];
    }
    pixels == 0
}

// Adds the counts of the pages from one on up to another to their sums.
fn add_counts(sums: &mut [u32], counts: &[u32], first: usize, end: usize)
    requires order { first ≤ end }
    requires lengths { length counts.now ≡ length sums.old }
    requires inside { end ≤ length counts.now }
    requires room { (p : ℕ) → first ≤ p → p < end → slice_index sums.old p + slice_index counts.now p < 2 ^ 32 }
    ensures added { (p : ℕ) → first ≤ p → p < end
        → slice_index sums.new p ≡ slice_index sums.old p + slice_index counts.now p }
    ensures below { (p : ℕ) → p < first → slice_index sums.new p ≡ slice_index sums.old p }
    ensures above { (p : ℕ) → end ≤ p → slice_index sums.new p ≡ slice_index sums.old p }
{
    for i in first..end {
        sums[i] += counts[i];
    }
}

// Adds the counts of a block to its sums, and tells whether a pixel wants one of its pages.
fn add_block(sums: &mut [u32], counts: &[u32], first: usize, end: usize) -> bool
    requires order { first ≤ end }
    requires lengths { length counts.now ≡ length sums.old }
    requires inside { end ≤ length counts.now }
    requires room { (p : ℕ) → first ≤ p → p < end → slice_index sums.old p + slice_index counts.now p < 2 ^ 32 }
    ensures added { (p : ℕ) → first ≤ p → p < end
        → slice_index sums.new p ≡ slice_index sums.old p + slice_index counts.now p }
    ensures below { (p : ℕ) → p < first → slice_index sums.new p ≡ slice_index sums.old p }
    ensures above { (p : ℕ) → end ≤ p → slice_index sums.new p ≡ slice_index sums.old p }
    ensures none { result ≡ false → (p : ℕ) → first ≤ p → p < end → slice_index counts.now p ≡ 0 }
{
    if are_unwanted(counts, first, end) {
        return false;
    }
    add_counts(sums, counts, first, end);
    true
}

/// Adds counts to sums, and marks the blocks in which a pixel wants a page. It only reads the counts of the others.
pub(crate) fn add_blocks(sums: &mut [u32], marks: &mut [bool], counts: &[u32])
    requires marked { AreMarked sums.old marks.old }
    requires lengths { length counts.now ≡ length sums.old }
    requires room { (p : ℕ) → p < length sums.old → slice_index sums.old p + slice_index counts.now p < 2 ^ 32 }
    ensures marked { AreMarked sums.new marks.new }
    ensures sums { (p : ℕ) → slice_index sums.new p ≡ slice_index sums.old p + slice_index counts.now p }
{
    for block in 0..marks.len() {
        let first = block * BLOCK;
        let is_wanted = add_block(sums, counts, first, block_end(first, counts.len()));
        marks[block] = marks[block] | is_wanted;
    }
}

// Sets the counts of the pages of a block to 0, where it is marked.
fn clear_block(counts: &mut [u32], is_marked: bool, first: usize, end: usize)
    requires order { first ≤ end }
    requires inside { end ≤ length counts.old }
    requires low { is_marked ≡ false → (p : ℕ) → first ≤ p → p < end → slice_index counts.old p ≡ 0 }
    ensures none { (p : ℕ) → first ≤ p → p < end → slice_index counts.new p ≡ 0 }
    ensures below { (p : ℕ) → p < first → slice_index counts.new p ≡ slice_index counts.old p }
    ensures above { (p : ℕ) → end ≤ p → slice_index counts.new p ≡ slice_index counts.old p }
{
    if !is_marked {
        return;
    }
    for i in first..end {
        counts[i] = 0;
    }
}

/// Sets all counts to 0, of which those of blocks without a mark are 0 already, and takes the marks away.
pub(crate) fn clear_blocks(counts: &mut [u32], marks: &mut [bool])
    requires { AreMarked counts.old marks.old }
    ensures marked { AreMarked counts.new marks.new }
    ensures none { (p : ℕ) → slice_index counts.new p ≡ 0 }
{
    let pages = counts.len();
    for block in 0..marks.len() {
        let first = block * BLOCK;
        clear_block(counts, marks[block], first, block_end(first, pages));
    }
    marks.fill(false);
}
