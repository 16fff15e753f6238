//! The pages that rows were drawn with, or missed. Nothing rests on which these are.

// How many pages of a row are noted at a time.
const MOST_NOTED: usize = 64;

// How many pages of the rows of a part are noted at a time.
const MOST_GATHERED: usize = 256;

/// Pages that were found for a row, as far as there is room for them.
#[derive(Clone, Copy)]
pub(crate) struct Noted {
    pages: [u32; MOST_NOTED],
    count: usize,
}

impl Noted {
    /// No pages.
    pub(crate) fn new() -> Noted {
        Noted {
            pages: [0; MOST_NOTED],
            count: 0,
        }
    }

    /// Adds a page while there is room.
    #[inline]
    pub(crate) fn add(&mut self, page: u32) {
        if self.count < MOST_NOTED {
            self.pages[self.count] = page;
            self.count += 1;
        }
    }

    /// The pages.
    pub(crate) fn pages(&self) -> &[u32] {
        match self.pages.get(..self.count) {
            Some(pages) => pages,
            None => &[],
        }
    }
}

/// Pages that were found for several rows, as far as there is room for them. Those of a row are left out where the row before it had
/// the same.
#[derive(Clone, Copy)]
pub(crate) struct Gathered {
    pages: [u32; MOST_GATHERED],
    count: usize,
    last: Noted,
}

impl Gathered {
    /// No pages.
    pub(crate) fn new() -> Gathered {
        Gathered {
            pages: [0; MOST_GATHERED],
            count: 0,
            last: Noted::new(),
        }
    }

    /// Adds the pages of a row.
    pub(crate) fn add(&mut self, row: &Noted) {
        if row.pages() == self.last.pages() {
            return;
        }
        for page in row.pages() {
            self.add_page(*page);
        }
        self.last = *row;
    }

    // Adds a page while there is room.
    fn add_page(&mut self, page: u32) {
        if self.count < MOST_GATHERED {
            self.pages[self.count] = page;
            self.count += 1;
        }
    }

    /// The pages.
    pub(crate) fn pages(&self) -> &[u32] {
        match self.pages.get(..self.count) {
            Some(pages) => pages,
            None => &[],
        }
    }
}
