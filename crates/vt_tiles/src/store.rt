//! A store that is read tile by tile.
ghost use Rattle.std.specs.Prelude.{◌≡◌, ◌+◌, ◌*◌, ◌<◌, ◌≤◌, length, is_err, Some, IsErr, IsErrOf, IfOk, IfErr, IfSome, OnOk, OnErr};
ghost use Rattle.std.specs.Result.{result_err};
ghost use Rattle.vt_pages.specs.Depths.{IsDepth};
ghost use Rattle.vt_outside.specs.Counts.{Rose};
ghost use Rattle.vt_outside.specs.Files.{IsPiece};
ghost use Rattle.vt_pages.specs.Pages.{pages_of};
ghost use Rattle.vt_tiles.specs.Format.{store_flaw, tile_start, tile_length};
ghost use Rattle.vt_tiles.specs.Places.{OpenerAsks, TilesAsked, TileAsked};
ghost use Rattle.vt_tiles.specs.StoreViews.{IsStoreIfKnown, file_after, refusal_in};
ghost use Rattle.vt_tiles.specs.Refusals.{IsOutsideRefusal};

use crate::StoreError;
use crate::header::{HEADER_LENGTH, parse_header, tile_start};
use std::marker::Model;
use vt_outside::{Failed, File, Items, NoMemory};
use vt_pages::Geometry;

/// A file that holds the tiles of all pages of a mip chain. Contracts see the file, the shape of the pages and the depth.
pub struct Store<F: File> {
    file: F,
    geometry: Geometry,
    depth: u32,
}

/// A list of stores.
pub type Stores<F> = Items<Store<F>>;

impl<F: File> Model for Store<F> {
    ghost use Rattle.vt_tiles.specs.StoreViews.{StoreView, IsOpened};

    ghost Value = { StoreView F };

    ghost view = { λ s. record { file = s.file; shape = s.geometry; depth = s.depth } };

    ghost invariant = { λ s. IsOpened (F.bytes s.file) s.geometry s.depth };
}

// Reads the header of a file, by one read of its first 16 bytes, or of all where there are fewer.
fn read_header<F: File>(file: &mut F) -> Result<(Geometry, u32), StoreError>
    ensures store { IfOk result (λ h. IsStoreIfKnown (F.bytes file.old) h.0 h.1) }
    ensures lawful { IfOk result (λ h. IsDepth h.1) }
    ensures flaw { IfErr result (λ e. (IsOutsideRefusal e → ⊥) → IfSome (F.bytes file.old) (λ b. store_flaw b ≡ Some e)) }
    ensures failed { IsErrOf result StoreError.Failed → Rose (F.faults file.old) (F.faults file.new) }
    ensures asked { OpenerAsks (F.bytes file.old) (result_err result) (F.asked file.old) (F.asked file.new) }
    ensures bytes { F.bytes file.new ≡ F.bytes file.old }
    ensures name { F.name file.new ≡ F.name file.old }
    ensures faults { F.faults file.old ≤ F.faults file.new }
{
    let have = file.length()?;
    file.reserve(1)?;
    let mut buffer = [0; HEADER_LENGTH];
    let head = &mut buffer[..have.min(HEADER_LENGTH as u64) as usize];
    file.read_at(0, head)?;
    parse_header(head, have)
}

impl<F: File> Store<F> {
    /// Opens the store of a file: asks its length, and reads its first 16 bytes, or all where there are fewer.
    /// A refusal hands the file back.
    ///
    /// Where the file tells its bytes, `BadMagic`, `BadGeometry` and `WrongLength` come exactly as the first flaw of those
    /// bytes, after that one read. `Failed` comes only where the file's count of faults rose, before the read or by it, and
    /// `NoMemory` where memory was refused, before the read.
    pub fn open(mut file: F) -> Result<Store<F>, (F, StoreError)>
        ensures store { IfOk result (λ s. IsStoreIfKnown (F.bytes file) s.shape s.depth) }
        ensures depth { IfOk result (λ s. IsDepth s.depth) }
        ensures flaw { IfErr result (λ e. (IsOutsideRefusal e.1 → ⊥) → IfSome (F.bytes file) (λ b. store_flaw b ≡ Some e.1)) }
        ensures failed { IfErr result (λ e. e.1 ≡ StoreError.Failed → Rose (F.faults file) (F.faults e.0)) }
        ensures asked { OpenerAsks (F.bytes file) (refusal_in result) (F.asked file) (F.asked (file_after result)) }
        ensures bytes { F.bytes (file_after result) ≡ F.bytes file }
        ensures name { F.name (file_after result) ≡ F.name file }
        ensures faults { F.faults file ≤ F.faults (file_after result) }
    {
        match read_header(&mut file) {
            Ok((geometry, depth)) => Ok(Store {
                file,
                geometry,
                depth,
            }),
            Err(refusal) => Err((file, refusal)),
        }
    }

    /// A reader of a file without a read, where the file's bytes are known to be a store of this geometry and of samples
    /// of `depth` bytes, 1 or 2, as those of a file that was opened before.
    pub fn same(file: F, geometry: &Geometry, depth: u32) -> Store<F>
        requires depth { IsDepth depth }
        requires store { IsStoreIfKnown (F.bytes file) geometry.now depth }
        ensures { result ≡ record { file = file; shape = geometry.now; depth = depth } }
    {
        Store {
            file,
            geometry: *geometry,
            depth,
        }
    }

    /// Makes room to note so many more reads. After a refusal nothing changed.
    pub fn reserve(&mut self, reads: u64) -> Result<(), NoMemory>
        ensures room { OnOk result (reads ≤ F.spare self.new.file) }
        ensures refused { OnErr result (F.spare self.new.file ≡ F.spare self.old.file) }
        ensures bytes { F.bytes self.new.file ≡ F.bytes self.old.file }
        ensures asked { F.asked self.new.file ≡ F.asked self.old.file }
        ensures name { F.name self.new.file ≡ F.name self.old.file }
        ensures faults { F.faults self.new.file ≡ F.faults self.old.file }
        ensures shape { self.new.shape ≡ self.old.shape }
        ensures depth { self.new.depth ≡ self.old.depth }
    {
        self.file.reserve(reads)
    }

    /// Fills the buffer, which has the length of so many tiles, with those of the pages from `first` on, by one read. The
    /// place is noted whatever the answer. `Failed` comes only where the file's count of faults rose.
    pub fn read_tiles(&mut self, first: u32, count: u32, buf: &mut [u8]) -> Result<(), Failed>
        requires size { length buf.old ≡ count * tile_length self.old.shape self.old.depth }
        requires spare { 1 ≤ F.spare self.old.file }
        requires pages { first + count ≤ pages_of self.old.shape }
        ensures tiles { OnOk result (IfSome (F.bytes self.old.file) (λ b. IsPiece b (tile_start self.old.shape self.old.depth first) buf.new)) }
        ensures failed { IsErr result → Rose (F.faults self.old.file) (F.faults self.new.file) }
        ensures asked { TilesAsked self.old.shape self.old.depth first count (is_err result) (F.asked self.old.file) (F.asked self.new.file) }
        ensures spare { F.spare self.old.file ≤ F.spare self.new.file + 1 }
        ensures bytes { F.bytes self.new.file ≡ F.bytes self.old.file }
        ensures name { F.name self.new.file ≡ F.name self.old.file }
        ensures faults { F.faults self.old.file ≤ F.faults self.new.file }
        ensures shape { self.new.shape ≡ self.old.shape }
        ensures depth { self.new.depth ≡ self.old.depth }
    {
        self.file
            .read_at(tile_start(&self.geometry, self.depth, first), buf)
    }

    /// Fills the buffer, which has the length of a tile, with the tile of a page, by one read. The place is noted whatever
    /// the answer. `Failed` comes only where the file's count of faults rose.
    pub fn read_tile(&mut self, page: u32, buf: &mut [u8]) -> Result<(), Failed>
        requires size { length buf.old ≡ tile_length self.old.shape self.old.depth }
        requires spare { 1 ≤ F.spare self.old.file }
        requires page { page < pages_of self.old.shape }
        ensures tile { OnOk result (IfSome (F.bytes self.old.file) (λ b. IsPiece b (tile_start self.old.shape self.old.depth page) buf.new)) }
        ensures failed { IsErr result → Rose (F.faults self.old.file) (F.faults self.new.file) }
        ensures asked { TileAsked self.old.shape self.old.depth page (is_err result) (F.asked self.old.file) (F.asked self.new.file) }
        ensures spare { F.spare self.old.file ≤ F.spare self.new.file + 1 }
        ensures bytes { F.bytes self.new.file ≡ F.bytes self.old.file }
        ensures name { F.name self.new.file ≡ F.name self.old.file }
        ensures faults { F.faults self.old.file ≤ F.faults self.new.file }
        ensures shape { self.new.shape ≡ self.old.shape }
        ensures depth { self.new.depth ≡ self.old.depth }
    {
        self.read_tiles(page, 1, buf)
    }

    /// How the store is cut into pages.
    pub fn geometry(&self) -> Geometry
        ensures shape { result ≡ self.now.shape }
        ensures store { IsStoreIfKnown (F.bytes self.now.file) self.now.shape self.now.depth }
    {
        self.geometry
    }

    /// How many bytes a sample has, 1 or 2.
    pub fn depth(&self) -> u32
        ensures value { result ≡ self.now.depth }
        ensures lawful { IsDepth self.now.depth }
        ensures store { IsStoreIfKnown (F.bytes self.now.file) self.now.shape self.now.depth }
    {
        self.depth
    }

    /// The file, in place of the store.
    pub fn into_file(self) -> F
        ensures { result ≡ self.file }
    {
        let Store {
            file,
            geometry: _,
            depth: _,
        } = self;
        file
    }
}
