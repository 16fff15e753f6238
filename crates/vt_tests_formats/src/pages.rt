use crate::fixtures::no_row_is_wrong;
use vt_pages::*;

// The levels and the pages of a shape, or why it is refused.
fn counts_of(width: u32, height: u32, tile: u32) -> Result<(u32, u32), PagesError> {
    let geometry = Geometry::new(width, height, tile)?;
    Ok((geometry.levels(), geometry.page_count()))
}

// The first of these shapes that has other levels and pages.
fn other_counts(rows: &[(u32, u32, u32, Result<(u32, u32), PagesError>)]) -> Option<usize> {
    for i in 0..rows.len() {
        let (width, height, tile, want) = rows[i];
        if counts_of(width, height, tile) != want {
            return Some(i);
        }
    }
    None
}

#[test]
fn the_first_limit_that_a_shape_breaks_is_named(rt: HostRuntime) {
    const ROWS: [(u32, u32, u32, Result<(u32, u32), PagesError>); 20] = [
        (4, 4, 2, Ok((2, 5))),
        (5, 3, 2, Ok((3, 9))),
        (1, 1, 2, Ok((1, 1))),
        (8192, 8192, 32, Ok((9, 87381))),
        (8192, 8192, 128, Ok((7, 5461))),
        (4270, 184, 2, Ok((13, 262144))),
        (
            2076,
            378,
            2,
            Err(PagesError::TooManyPages { pages: 262145 }),
        ),
        (
            8192,
            8192,
            2,
            Err(PagesError::TooManyPages { pages: 22369621 }),
        ),
        (
            8192,
            8192,
            16,
            Err(PagesError::TooManyPages { pages: 349525 }),
        ),
        (
            16384,
            16384,
            32,
            Err(PagesError::TooManyPages { pages: 349525 }),
        ),
        (16384, 16384, 64, Ok((9, 87381))),
        (16384, 2, 2, Ok((14, 16383))),
        (0, 4, 2, Err(PagesError::BadSide)),
        (4, 0, 2, Err(PagesError::BadSide)),
        (16385, 4, 2, Err(PagesError::BadSide)),
        (4, 16385, 128, Err(PagesError::BadSide)),
        (4, 4, 1, Err(PagesError::BadTile)),
        (4, 4, 3, Err(PagesError::BadTile)),
        (4, 4, 256, Err(PagesError::BadTile)),
        (0, 16385, 0, Err(PagesError::BadTile)),
    ];
    no_row_is_wrong(&rt, other_counts(&ROWS));
}

// Whether a level has these sides.
fn has_size(geometry: &Geometry, level: u32, want: (u32, u32)) -> bool {
    level < geometry.levels() && geometry.level_size(level) == want
}

// Whether a texel is of this page.
fn is_of_page(geometry: &Geometry, level: u32, x: u32, y: u32, page: u32) -> bool {
    if level >= geometry.levels() {
        return false;
    }
    let (width, height) = geometry.level_size(level);
    x < width && y < height && geometry.page_of_texel(level, x, y) == page
}

// The first of these texels, each told by its level and its place, that is of another page.
fn other_page(geometry: &Geometry, rows: &[(u32, u32, u32, u32)]) -> Option<usize> {
    for i in 0..rows.len() {
        let (level, x, y, page) = rows[i];
        if !is_of_page(geometry, level, x, y, page) {
            return Some(i);
        }
    }
    None
}

// Whether the sides of a texture of 5 by 3 texels are halved so.
fn is_halved(geometry: &Geometry) -> bool {
    geometry.width() == 5
        && geometry.height() == 3
        && geometry.tile() == 2
        && geometry.levels() == 3
        && geometry.page_count() == 9
        && has_size(geometry, 0, (5, 3))
        && has_size(geometry, 1, (3, 2))
        && has_size(geometry, 2, (2, 1))
}

// Whether so many pages are pinned by the coarsest levels, of which there are three.
fn is_pinned(geometry: &Geometry) -> bool {
    geometry.pinned_count(0) == 0
        && geometry.pinned_count(1) == 1
        && geometry.pinned_count(2) == 3
        && geometry.pinned_count(3) == 9
        && geometry.pinned_count(4) == 9
}

// A texture of 5 by 3 texels has levels of 5x3, 3x2 and 2x1 texels, of 6, 2 and 1 pages.
#[test]
fn odd_sides_are_rounded_up(rt: HostRuntime) {
    const TEXELS: [(u32, u32, u32, u32); 6] = [
        (0, 4, 2, 5),
        (0, 1, 1, 0),
        (0, 2, 0, 1),
        (0, 0, 2, 3),
        (1, 2, 1, 7),
        (2, 1, 0, 8),
    ];
    let geometry = Geometry::new(5, 3, 2).expect(&rt, "a shape");
    assert!(rt; is_halved(&geometry) && is_pinned(&geometry));
    no_row_is_wrong(&rt, other_page(&geometry, &TEXELS));
}

// Whether a page has this name and this parent, and the page 8 as its ancestor at level 2.
fn is_page(geometry: &Geometry, page: u32, want: &PageName, parent: Option<u32>) -> bool {
    if page >= geometry.page_count() {
        return false;
    }
    let name = geometry.page_at(page);
    name == *want
        && geometry.index_of(&name) == page
        && geometry.parent(page) == parent
        && name.level <= 2
        && 2 < geometry.levels()
        && geometry.ancestor_at(page, 2) == 8
}

// The first of these pages, each told by its level, its column and its row, that has another name or another parent.
fn misnamed(geometry: &Geometry, rows: &[(u32, (u32, u32, u32), Option<u32>)]) -> Option<usize> {
    for i in 0..rows.len() {
        let (page, (level, col, row), parent) = rows[i];
        if !is_page(geometry, page, &PageName { level, col, row }, parent) {
            return Some(i);
        }
    }
    None
}

#[test]
fn each_page_has_its_name_and_its_parent(rt: HostRuntime) {
    const PAGES: [(u32, (u32, u32, u32), Option<u32>); 9] = [
        (0, (0, 0, 0), Some(6)),
        (1, (0, 1, 0), Some(6)),
        (2, (0, 2, 0), Some(7)),
        (3, (0, 0, 1), Some(6)),
        (4, (0, 1, 1), Some(6)),
        (5, (0, 2, 1), Some(7)),
        (6, (1, 0, 0), Some(8)),
        (7, (1, 1, 0), Some(8)),
        (8, (2, 0, 0), None),
    ];
    let geometry = Geometry::new(5, 3, 2).expect(&rt, "a shape");
    let copy = geometry.clone().expect(&rt, "a copy");
    no_row_is_wrong(&rt, misnamed(&copy, &PAGES));
}
