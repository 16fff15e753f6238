//! The text of a path, read.

ghost use Rattle.std.specs.Prelude.{◌≡◌, ◌≢◌, ◌≤◌, ◌+◌, ◌++◌, ◌⊎◌, ℕ, List, [], ◌∷◌, length, drop, slice_get, Some, None, MatchOption, MatchResult, IfOk, IfErr};
ghost use Rattle.std.specs.Bool.{MatchBool};
ghost use Rattle.vt_text.specs.Limits.{most_pictures};
ghost use Rattle.vt_text.specs.Lines.{fields_of, lines_of};
ghost use Rattle.vt_camera.specs.declared.paths.Camera.{Camera};
ghost use Rattle.vt_camera.specs.declared.parse.PathError.{PathError};
ghost use Rattle.vt_camera.specs.Paths.{PathView, IsCamera};
ghost use Rattle.vt_camera.specs.PathText.{Key, IsKey, To, camera_fields, way_fields, IsPathText};
ghost use Rattle.vt_camera.specs.Ways.{way};
ghost use Rattle.vt_camera.specs.PathFlaws.{IsSizeLine, IsFocalLine, IsKeyLine, count_flaw, IsLineFlaw, IsPathFlawFrom, IsPathFlaw};
ghost use Rattle.vt_camera.specs.PathReading.{IsNaturalAt, IsIntegerAt, AreNumbersAt, key_of, IsHead, IsLast, AddsKey, GivesPictures};

use crate::paths::{Camera, Path};
use crate::ways::add_way;
use std::alloc::Global;
use thiserror::Error;
use vt_text::{decimal, field, next_line};

// The largest width and height of a picture.
const MOST_PICTURE_SIDE: u32 = 2048;

// The largest focal number.
const MOST_FOCAL: u32 = 4096;

// How far from 0 a camera's place may lie on each axis, in 1/256 texel.
const MOST_PLACE: i64 = 2_147_483_648;

// The greatest height over a texture, in 1/256 texel.
const MOST_HEIGHT: i64 = 16_777_216;

// How far from 0 the cosine and the sine of a direction may lie, in 1/16384.
const MOST_DIRECTION: i64 = 16_384;

// The largest number of pictures.
const MOST_PICTURES: u32 = 9999;

/// Why a text was not read as a path. Lines count from 1.
#[derive(Clone, Copy, Debug, PartialEq, Eq, Error)]
#[error("the path was not read")]
pub enum PathError {
    /// The line has none of the forms that it may have there, or the text ends before it.
    BadLine { line: u32 },
    /// The line goes on from a key, and there is none before it.
    NoKey { line: u32 },
    /// The lines give more than 9999 pictures.
    TooManyPictures,
    /// There was no memory for the cameras.
    NoMemory,
}

// The sides of the pictures.
#[derive(Clone, Copy)]
struct Sides {
    width: u32,
    height: u32,
}

// What the first two lines of a path say, and the place after them.
#[derive(Clone, Copy)]
struct Head {
    sides: Sides,
    focal: u32,
    end: usize,
}

// What a line from the third on says: one picture, or so many on the way from the key before it.
#[derive(Clone, Copy)]
enum LineKey {
    Single(Camera),
    Steps(u32, Camera),
}

// Whether a line's first field is the word.
fn has_word(line: &[u8], word: &[u8]) -> bool
    ensures { MatchBool result (slice_get (fields_of line.now) 0 ≡ Some word.now) (slice_get (fields_of line.now) 0 ≢ Some word.now) }
{
    match field(line, 0) {
        Some(first) => first == word,
        None => false,
    }
}

// Whether a line has at most so many fields.
fn ends_before(line: &[u8], fields: usize) -> bool
    ensures { MatchBool result (slice_get (fields_of line.now) fields ≡ None) (slice_get (fields_of line.now) fields ≢ None) }
{
    field(line, fields).is_none()
}

// The integer within the bounds that is a line's field `i`, if it is one.
fn integer_at(line: &[u8], i: usize, least: i64, most: i64) -> Option<i64>
    ensures { IsIntegerAt line.now i least most result }
{
    let text = field(line, i)?;
    match decimal(text, least, most) {
        Ok(number) => Some(number),
        Err(_) => None,
    }
}

// The number from 1 to `most` that is a line's field `i`, if it is one.
fn natural_at(line: &[u8], i: usize, most: u32) -> Option<u32>
    ensures { IsNaturalAt line.now i most result }
{
    let number = integer_at(line, i, 1, i64::from(most))?;
    Some(number as u32)
}

// The sides that a path's first line gives.
fn read_sides(line: &[u8]) -> Option<Sides>
    ensures { MatchOption result ((width height : ℕ) → ¬ IsSizeLine line.now width height) (λ s. IsSizeLine line.now s.width s.height) }
{
    if !has_word(line, b"size") {
        return None;
    }
    if !ends_before(line, 3) {
        return None;
    }
    let width = natural_at(line, 1, MOST_PICTURE_SIDE)?;
    let height = natural_at(line, 2, MOST_PICTURE_SIDE)?;
    Some(Sides { width, height })
}

// The focal number that a path's second line gives.
fn read_focal(line: &[u8]) -> Option<u32>
    ensures { MatchOption result ((focal : ℕ) → ¬ IsFocalLine line.now focal) (λ focal. IsFocalLine line.now focal) }
{
    if !has_word(line, b"focal") {
        return None;
    }
    if !ends_before(line, 2) {
        return None;
    }
    natural_at(line, 1, MOST_FOCAL)
}

// The camera whose numbers are in a line from field `i` on.
fn camera_at(line: &[u8], i: usize) -> Option<Camera>
    requires { i ≤ 2 }
    ensures { MatchOption result ((camera : Camera) → IsCamera camera → ¬ AreNumbersAt line.now i camera)
        (λ camera. IsCamera camera × AreNumbersAt line.now i camera) }
{
    let u = integer_at(line, i, -MOST_PLACE, MOST_PLACE)?;
    let v = integer_at(line, i + 1, -MOST_PLACE, MOST_PLACE)?;
    let h = integer_at(line, i + 2, 1, MOST_HEIGHT)?;
    let c = integer_at(line, i + 3, -MOST_DIRECTION, MOST_DIRECTION)?;
    let s = integer_at(line, i + 4, -MOST_DIRECTION, MOST_DIRECTION)?;
    Some(Camera { u, v, h, c, s })
}

// The camera that a line of one picture gives.
fn read_camera(line: &[u8]) -> Option<Camera>
    ensures { MatchOption result ((camera : Camera) → IsCamera camera → fields_of line.now ≢ camera_fields camera)
        (λ camera. IsCamera camera × (fields_of line.now ≡ camera_fields camera)) }
{
    if !has_word(line, b"at") {
        return None;
    }
    if !ends_before(line, 6) {
        return None;
    }
    camera_at(line, 1)
}

// The key that a line of several pictures gives.
fn read_steps(line: &[u8]) -> Option<LineKey>
    ensures { MatchOption result ((pictures : ℕ) (camera : Camera) → IsKey (To pictures camera) → fields_of line.now ≢ way_fields pictures camera)
        (λ key. IsKeyLine line.now (key_of key)) }
{
    if !has_word(line, b"to") {
        return None;
    }
    if !ends_before(line, 7) {
        return None;
    }
    let pictures = natural_at(line, 1, MOST_PICTURES)?;
    let camera = camera_at(line, 2)?;
    Some(LineKey::Steps(pictures, camera))
}

// The key that a line gives.
fn read_key(line: &[u8]) -> Option<LineKey>
    ensures { MatchOption result ((key : Key) → ¬ IsKeyLine line.now key) (λ key. IsKeyLine line.now (key_of key)) }
{
    match read_camera(line) {
        Some(camera) => Some(LineKey::Single(camera)),
        None => read_steps(line),
    }
}

// What the first two lines of a path say.
fn read_head(text: &[u8]) -> Result<Head, PathError>
    ensures { MatchResult result (λ h. IsHead text.now h.sides.width h.sides.height h.focal h.end) (λ e. IsPathFlaw text.now e) }
{
    let Some(first) = next_line(text, 0) else {
        return Err(PathError::BadLine { line: 1 });
    };
    let Some(sides) = read_sides(&text[0..first]) else {
        return Err(PathError::BadLine { line: 1 });
    };
    let Some(second) = next_line(text, first + 1) else {
        return Err(PathError::BadLine { line: 2 });
    };
    let Some(focal) = read_focal(&text[first + 1..second]) else {
        return Err(PathError::BadLine { line: 2 });
    };
    let end = second + 1;
    Ok(Head { sides, focal, end })
}

// Adds one picture, and answers its camera.
fn add_single(cameras: &mut Vec<Camera>, camera: Camera) -> Result<Camera, PathError>
    requires { length cameras.old.items ≤ most_pictures }
    ensures { MatchResult result
        (λ c. (c ≡ camera) × (cameras.new.items ≡ cameras.old.items ++ camera ∷ []) × (count_flaw (length cameras.old.items + 1) ≡ None))
        (λ e. (e ≡ PathError.NoMemory) ⊎ (count_flaw (length cameras.old.items + 1) ≡ Some e)) }
{
    if cameras.len() + 1 > MOST_PICTURES as usize {
        return Err(PathError::TooManyPictures);
    }
    match cameras.push(camera) {
        Ok(()) => Ok(camera),
        Err(_) => Err(PathError::NoMemory),
    }
}

// Adds the pictures on the way from one camera to another, and answers the latter.
fn add_steps(
    cameras: &mut Vec<Camera>,
    from: Camera,
    to: Camera,
    pictures: u32,
) -> Result<Camera, PathError>
    requires room { length cameras.old.items ≤ most_pictures }
    requires few { pictures ≤ most_pictures }
    requires from_limits { IsCamera from }
    requires to_limits { IsCamera to }
    ensures { MatchResult result
        (λ c. (c ≡ to) × (cameras.new.items ≡ cameras.old.items ++ way from to pictures) × (count_flaw (length cameras.old.items + pictures) ≡ None))
        (λ e. (e ≡ PathError.NoMemory) ⊎ (count_flaw (length cameras.old.items + pictures) ≡ Some e)) }
{
    if cameras.len() + pictures as usize > MOST_PICTURES as usize {
        return Err(PathError::TooManyPictures);
    }
    match add_way(cameras, &from, &to, pictures) {
        Ok(()) => Ok(to),
        Err(_) => Err(PathError::NoMemory),
    }
}

// Adds the pictures of a line's key, where `last` is the camera of the key before it, and answers the key's camera.
fn add_key(
    cameras: &mut Vec<Camera>,
    last: Option<Camera>,
    line: &[u8],
    number: u32,
) -> Result<Camera, PathError>
    requires room { length cameras.old.items ≤ most_pictures }
    requires last { IsLast last (length cameras.old.items) }
    ensures { MatchResult result (λ c. AddsKey number line.now last cameras.old.items cameras.new.items c)
        (λ e. (e ≡ PathError.NoMemory) ⊎ IsLineFlaw number (length cameras.old.items) line.now e) }
{
    match read_key(line) {
        None => Err(PathError::BadLine { line: number }),
        Some(LineKey::Single(camera)) => add_single(cameras, camera),
        Some(LineKey::Steps(pictures, camera)) => match last {
            None => Err(PathError::NoKey { line: number }),
            Some(from) => add_steps(cameras, from, camera, pictures),
        },
    }
}

// The cameras of the keys in the lines from `start` on, of which the first is the third of the text.
fn read_keys(alloc: Global, text: &[u8], start: usize) -> Result<Vec<Camera>, PathError>
    requires { start ≤ length text.now }
    ensures { MatchResult result (λ cameras. GivesPictures (lines_of (drop start text.now)) cameras.items)
        (λ e. (e ≡ PathError.NoMemory) ⊎ IsPathFlawFrom 3 0 (lines_of (drop start text.now)) e) }
{
    let mut cameras = Vec::new(alloc);
    let mut last: Option<Camera> = None;
    let mut number: u32 = 3;
    let mut at = start;
    while at < text.len() {
        let Some(end) = next_line(text, at) else {
            return Err(PathError::BadLine { line: number });
        };
        let camera = match add_key(&mut cameras, last, &text[at..end], number) {
            Ok(camera) => camera,
            Err(error) => return Err(error),
        };
        last = Some(camera);
        at = end + 1;
        number += 1;
    }
    Ok(cameras)
}

// The path of a text, or the refusal of its first flawed line.
fn read_path(alloc: Global, text: &[u8]) -> Result<Path, PathError>
    ensures { MatchResult result (λ path. IsPathText text.now path) (λ e. (e ≡ PathError.NoMemory) ⊎ IsPathFlaw text.now e) }
{
    let head = read_head(text)?;
    let cameras = read_keys(alloc, text, head.end)?;
    Ok(Path::from_parts(head.sides.width, head.sides.height, head.focal, cameras))
}

/// Reads the text of a path: the lines `size W H` and `focal f`, and then a line for each key, each ended by a line feed,
/// with one blank between fields. W and H are from 1 to 2048, f from 1 to 4096. `at u v h c s` is a key of one picture;
/// `to n u v h c s` is a key of n pictures, from 1 to 9999, on the way from the key before it, each number of their
/// cameras rounded down. The cameras' numbers are within the limits of [`Camera`]. There may be no key.
///
/// The first flawed line is refused: with `BadLine` where it has no such form, is missing or ends without a line feed,
/// else with `NoKey` where `to` has no key before it, else with `TooManyPictures` where its pictures and those before it
/// are more than 9999. `NoMemory` comes where there is no memory for the cameras.
pub fn parse_path(alloc: Global, text: &[u8]) -> Result<Path, PathError>
    ensures ok { IfOk result (λ path. IsPathText text.now path) }
    ensures refused { IfErr result (λ e. (e ≡ PathError.NoMemory) ⊎ IsPathFlaw text.now e) }
    ensures formed { (path : PathView) → IsPathText text.now path → (result ≡ Ok path) ⊎ (result ≡ Err PathError.NoMemory) }
    ensures flawed { (e : PathError) → IsPathFlaw text.now e → (result ≡ Err e) ⊎ (result ≡ Err PathError.NoMemory) }
{
    read_path(alloc, text)
}

/// One text is that of one path.
pub fn path_is_unique()
    ensures { (text : List ℕ) (p q : PathView) → IsPathText text p → IsPathText text q → p ≡ q }
{}

/// One text has one flaw at most: that of its first flawed line.
pub fn path_flaw_is_unique()
    ensures { (text : List ℕ) (e f : PathError) → IsPathFlaw text e → IsPathFlaw text f → e ≡ f }
{}

/// The text of a path has no flaw.
pub fn path_has_no_flaw()
    ensures { (text : List ℕ) (path : PathView) (e : PathError) → IsPathText text path → ¬ IsPathFlaw text e }
{}
