//! How many texels of a page the pixels of a row want, run by run.

ghost use Rattle.std.specs.Prelude.{◌≡◌, ℕ, ◌+◌, ◌<◌, ◌^◌, length, slice_index};
ghost use Rattle.vt_draw.specs.Shots.{run_of};
ghost use Rattle.vt_blend.specs.Counting.{times_among};

/// The pages of the four texels of a pixel, in the order of their weights.
#[derive(Clone, Copy)]
pub struct Pages {
    pub first: u32,
    pub second: u32,
    pub third: u32,
    pub fourth: u32,
}

/// Adds so many texels of a page to the page's count.
#[inline(always)]
pub fn add_texels(counts: &mut [u32], page: u32, many: u32)
    requires page { page < length counts.old }
    requires room { slice_index counts.old page + many < 2 ^ 32 }
    ensures added { (p : ℕ) → slice_index counts.new p ≡ slice_index counts.old p + run_of page many p }
{
    counts[page as usize] += many;
}

/// Counts the four texels of a pixel that are in one page: one that wants the page of the pixel before it makes that page's run longer,
/// and any other begins a run. The result is the length of the run of `page` that is not counted yet.
#[inline(always)]
pub fn count_together(counts: &mut [u32], before: u32, run: u32, page: u32) -> u32
    requires before { before < length counts.old }
    requires room { slice_index counts.old before + run + 4 < 2 ^ 32 }
    ensures counted { (p : ℕ) → slice_index counts.new p + run_of page result p
        ≡ slice_index counts.old p + run_of before run p + run_of page 4 p }
{
    if page == before {
        return run + 4;
    }
    add_texels(counts, before, run);
    4
}

/// Counts the four texels of a pixel one by one, each for its page.
pub fn count_apart(counts: &mut [u32], pages: &Pages)
    requires first { pages.now.first < length counts.old }
    requires second { pages.now.second < length counts.old }
    requires third { pages.now.third < length counts.old }
    requires fourth { pages.now.fourth < length counts.old }
    requires room { (p : ℕ) → p < length counts.old → slice_index counts.old p + 4 < 2 ^ 32 }
    ensures counted { (p : ℕ) → slice_index counts.new p ≡ slice_index counts.old p + times_among pages.now p }
{
    add_texels(counts, pages.first, 1);
    add_texels(counts, pages.second, 1);
    add_texels(counts, pages.third, 1);
    add_texels(counts, pages.fourth, 1);
}
