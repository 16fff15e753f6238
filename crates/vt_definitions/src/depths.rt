//! Texels in bytes: three samples of one byte or of two, the most significant first.

ghost use Rattle.std.specs.Prelude.{◌≡◌, ◌≢◌, ℕ, ◌+◌, ◌<◌, ◌≤◌, ◌^◌, ◌*◌, List, length};
ghost use Rattle.vt_definitions.specs.Depths.{IsDepth, texel_length, texel_bytes, sample_at, greatest_sample, word_of, word_bytes, word_at, AreBytes, red_of, green_of, blue_of, sample_base};

/// How many bytes a texel has whose samples have `depth` bytes, 1 or 2.
#[inline]
pub fn texel_length(depth: u32) -> usize
    requires { IsDepth depth }
    ensures value { result ≡ texel_length depth }
    ensures few { result ≤ 6 }
{
    3 * depth as usize
}

/// The greatest sample of `depth` bytes, 1 or 2.
#[inline]
pub fn greatest_sample(depth: u32) -> u32
    requires { IsDepth depth }
    ensures { result ≡ greatest_sample depth }
{
    if depth == 1 { 255 } else { 65535 }
}

/// The word of texel `i` of bytes whose samples have DEPTH bytes, 1 or 2: its red, green and blue sample in one number.
#[inline]
pub fn word_at<const DEPTH: u32>(bytes: &[u8], i: usize) -> u64
    requires depth { IsDepth DEPTH }
    requires inside { texel_length DEPTH * i + texel_length DEPTH ≤ length bytes.now }
    ensures { result ≡ word_at DEPTH bytes.now i }
{
    word_in(bytes, DEPTH, i)
}

/// The word of texel `i` of bytes whose samples have `depth` bytes, 1 or 2: as `word_at` at a depth that is not known beforehand.
#[inline]
pub fn word_in(bytes: &[u8], depth: u32, i: usize) -> u64
    requires depth { IsDepth depth }
    requires inside { texel_length depth * i + texel_length depth ≤ length bytes.now }
    ensures { result ≡ word_at depth bytes.now i }
{
    if depth == 1 {
        narrow_word(bytes, i)
    } else {
        wide_word(bytes, i)
    }
}

// The word of texel i of one-byte samples.
#[inline]
fn narrow_word(bytes: &[u8], i: usize) -> u64
    requires { 3 * i + 3 ≤ length bytes.now }
    ensures { result ≡ word_at 1 bytes.now i }
{
    let at = 3 * i;
    bytes[at] as u64 * 65536 + bytes[at + 1] as u64 * 256 + bytes[at + 2] as u64
}

// The word of texel i of two-byte samples.
#[inline]
fn wide_word(bytes: &[u8], i: usize) -> u64
    requires { 6 * i + 6 ≤ length bytes.now }
    ensures { result ≡ word_at 2 bytes.now i }
{
    let at = 6 * i;
    let red = bytes[at] as u64 * 256 + bytes[at + 1] as u64;
    let green = bytes[at + 2] as u64 * 256 + bytes[at + 3] as u64;
    let blue = bytes[at + 4] as u64 * 256 + bytes[at + 5] as u64;
    red * 4_294_967_296 + green * 65536 + blue
}

/// Writes the bytes of a word as texel `i` of samples of DEPTH bytes, 1 or 2. Every other texel stays as it is.
#[inline]
pub fn put_word<const DEPTH: u32>(bytes: &mut [u8], i: usize, word: u64)
    requires depth { IsDepth DEPTH }
    requires room { texel_length DEPTH * i + texel_length DEPTH ≤ length bytes.old }
    ensures written { texel_bytes DEPTH bytes.new i ≡ word_bytes DEPTH word }
    ensures kept { (k : ℕ) → k ≢ i → texel_bytes DEPTH bytes.new k ≡ texel_bytes DEPTH bytes.old k }
{
    if DEPTH == 1 {
        put_narrow(bytes, i, word);
    } else {
        put_wide(bytes, i, word);
    }
}

// Writes a word as texel i of one-byte samples.
#[inline]
fn put_narrow(bytes: &mut [u8], i: usize, word: u64)
    requires { 3 * i + 3 ≤ length bytes.old }
    ensures written { texel_bytes 1 bytes.new i ≡ word_bytes 1 word }
    ensures kept { (k : ℕ) → k ≢ i → texel_bytes 1 bytes.new k ≡ texel_bytes 1 bytes.old k }
{
    let at = 3 * i;
    bytes[at] = (word / 65536 % 256) as u8;
    bytes[at + 1] = (word / 256 % 256) as u8;
    bytes[at + 2] = (word % 256) as u8;
}

// Writes a word as texel i of two-byte samples.
#[inline]
fn put_wide(bytes: &mut [u8], i: usize, word: u64)
    requires { 6 * i + 6 ≤ length bytes.old }
    ensures written { texel_bytes 2 bytes.new i ≡ word_bytes 2 word }
    ensures kept { (k : ℕ) → k ≢ i → texel_bytes 2 bytes.new k ≡ texel_bytes 2 bytes.old k }
{
    let at = 6 * i;
    bytes[at] = (word / 1_099_511_627_776 % 256) as u8;
    bytes[at + 1] = (word / 4_294_967_296 % 256) as u8;
    bytes[at + 2] = (word / 16_777_216 % 256) as u8;
    bytes[at + 3] = (word / 65536 % 256) as u8;
    bytes[at + 4] = (word / 256 % 256) as u8;
    bytes[at + 5] = (word % 256) as u8;
}

/// Sample `i` of samples of DEPTH bytes, 1 or 2.
#[inline(always)]
pub fn sample_at<const DEPTH: u32>(bytes: &[u8], i: usize) -> u16
    requires depth { IsDepth DEPTH }
    requires inside { DEPTH * i + DEPTH ≤ length bytes.now }
    ensures value { result ≡ sample_at DEPTH bytes.now i }
    ensures few { result < sample_base DEPTH }
{
    if DEPTH == 1 {
        narrow_sample(bytes, i)
    } else {
        wide_sample(bytes, i)
    }
}

// Sample i of one-byte samples.
#[inline(always)]
fn narrow_sample(bytes: &[u8], i: usize) -> u16
    requires { i < length bytes.now }
    ensures value { result ≡ sample_at 1 bytes.now i }
    ensures few { result < 256 }
{
    bytes[i] as u16
}

// Sample i of two-byte samples.
#[inline(always)]
fn wide_sample(bytes: &[u8], i: usize) -> u16
    requires { 2 * i + 2 ≤ length bytes.now }
    ensures value { result ≡ sample_at 2 bytes.now i }
    ensures few { result < 65536 }
{
    bytes[2 * i] as u16 * 256 + bytes[2 * i + 1] as u16
}

/// Writes sample `i` of samples of DEPTH bytes, 1 or 2. Every other sample stays as it is.
#[inline(always)]
pub fn put_sample<const DEPTH: u32>(bytes: &mut [u8], i: usize, sample: u16)
    requires depth { IsDepth DEPTH }
    requires room { DEPTH * i + DEPTH ≤ length bytes.old }
    requires few { sample < sample_base DEPTH }
    ensures written { sample_at DEPTH bytes.new i ≡ sample }
    ensures kept { (k : ℕ) → k ≢ i → sample_at DEPTH bytes.new k ≡ sample_at DEPTH bytes.old k }
{
    if DEPTH == 1 {
        put_narrow_sample(bytes, i, sample);
    } else {
        put_wide_sample(bytes, i, sample);
    }
}

// Writes sample i of one-byte samples.
#[inline(always)]
fn put_narrow_sample(bytes: &mut [u8], i: usize, sample: u16)
    requires room { i < length bytes.old }
    requires few { sample < 256 }
    ensures written { sample_at 1 bytes.new i ≡ sample }
    ensures kept { (k : ℕ) → k ≢ i → sample_at 1 bytes.new k ≡ sample_at 1 bytes.old k }
{
    bytes[i] = sample as u8;
}

// Writes sample i of two-byte samples.
#[inline(always)]
fn put_wide_sample(bytes: &mut [u8], i: usize, sample: u16)
    requires room { 2 * i + 2 ≤ length bytes.old }
    ensures written { sample_at 2 bytes.new i ≡ sample }
    ensures kept { (k : ℕ) → k ≢ i → sample_at 2 bytes.new k ≡ sample_at 2 bytes.old k }
{
    bytes[2 * i] = (sample / 256) as u8;
    bytes[2 * i + 1] = (sample % 256) as u8;
}

/// A texel word has the samples that it was made of.
pub fn words_have_their_samples()
    ensures red { (d r g b : ℕ) → IsDepth d → r < sample_base d → g < sample_base d → b < sample_base d → red_of d (word_of d r g b) ≡ r }
    ensures green { (d r g b : ℕ) → IsDepth d → r < sample_base d → g < sample_base d → b < sample_base d → green_of d (word_of d r g b) ≡ g }
    ensures blue { (d r g b : ℕ) → IsDepth d → r < sample_base d → g < sample_base d → b < sample_base d → blue_of d (word_of d r g b) ≡ b }
{}

/// The bytes of a word make the word again.
pub fn bytes_make_their_word()
    ensures { (d w : ℕ) → IsDepth d → w < 2 ^ (24 * d) → word_at d (word_bytes d w) 0 ≡ w }
{}

/// The bytes of a texel of bytes are those of its word.
pub fn texels_are_their_words()
    ensures { (d : ℕ) (bytes : List ℕ) (i : ℕ) → IsDepth d → AreBytes bytes → word_bytes d (word_at d bytes i) ≡ texel_bytes d bytes i }
{}

/// A texel with the bytes of a word has that word.
pub fn texels_with_bytes_have_words()
    ensures { (d w : ℕ) (bytes : List ℕ) (i : ℕ) → IsDepth d → w < 2 ^ (24 * d) → texel_bytes d bytes i ≡ word_bytes d w → word_at d bytes i ≡ w }
{}

/// The words of bytes are below 2^24 at one byte a sample, and below 2^48 at two.
pub fn words_of_bytes_are_small()
    ensures { (d : ℕ) (bytes : List ℕ) (i : ℕ) → IsDepth d → AreBytes bytes → word_at d bytes i < 2 ^ (24 * d) }
{}
