//! Journals and their texts, by hand.

mod reading;
mod versions;
mod writing;

// The journal of four pictures over three frames, of which the fourth loses a tile.
const LOST_TILE: &str = "map 1 1 0 0 0
pass 1 picture 0 start 1
row 0 0 1
pass 2 picture 1 start 1
map 2 0 0 0 1
map 3 0 0 1 2
row 0 0 1
pass 3 picture 2 start 3
row 0 0 3
pass 4 picture 3 start 3
lost 0 1 0
unmap 4 0 0 0 1
map 5 0 1 1 1
row 0 0 3
";

// The journal of one picture that is drawn until nothing that it wants is missing.
const SETTLED: &str = "map 1 1 0 0 0
pass 1 picture 0 start 1
row 0 0 1
pass 2 picture 0 start 1
map 2 0 0 0 1
row 0 0 2
pass 3 picture 0 start 2
map 3 0 0 1 2
row 0 0 3
pass 4 picture 0 start 3
row 0 0 3
";
