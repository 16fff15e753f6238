//! Journals of walks whose rows may be drawn at several versions, or by several samplers.

/// The text of a journal whose versions are below 10. Each `?` in it is the version of a row, or its sampler, which is one from the
/// first number to the second of the pair in its turn.
#[derive(Clone, Copy)]
pub struct Told<'a> {
    pub text: &'a [u8],
    pub versions: &'a [(u8, u8)],
}

// How far the version that a digit spells is above the least one, if it is one from the first number to the second.
fn above_least(versions: (u8, u8), digit: u8) -> Option<usize> {
    let (least, most) = versions;
    let version = digit.wrapping_sub(b'0');
    if least <= version && version <= most {
        Some(version.wrapping_sub(least) as usize)
    } else {
        None
    }
}

// Whether a digit spells a version of the pair in a turn.
fn may_stand(versions: &[(u8, u8)], turn: usize, digit: u8) -> bool {
    match versions.get(turn) {
        Some(pair) => above_least(*pair, digit).is_some(),
        None => false,
    }
}

// Whether bytes are those of a text, with such versions in it.
fn is_of(bytes: &[u8], text: &[u8], versions: &[(u8, u8)]) -> bool {
    if bytes.len() != text.len() {
        return false;
    }
    let mut turn: usize = 0;
    for i in 0..text.len() {
        if text[i] == b'?' {
            if !may_stand(versions, turn, bytes[i]) {
                return false;
            }
            turn = turn.wrapping_add(1);
        } else if bytes[i] != text[i] {
            return false;
        }
    }
    true
}

// The place of the version in a turn.
fn place_of(text: &[u8], turn: usize) -> Option<usize> {
    let mut left = turn;
    for i in 0..text.len() {
        if text[i] == b'?' {
            if left == 0 {
                return Some(i);
            }
            left = left.wrapping_sub(1);
        }
    }
    None
}

impl Told<'_> {
    /// Whether bytes are such a journal.
    pub fn is(&self, bytes: &[u8]) -> bool {
        is_of(bytes, self.text, self.versions)
    }

    /// Whether bytes are the first so many of such a journal.
    pub fn begins(&self, bytes: &[u8], count: usize) -> bool {
        count <= self.text.len() && is_of(bytes, &self.text[..count], self.versions)
    }

    /// How far the version in a turn of such a journal is above the least one that it may be.
    pub fn above_least(&self, bytes: &[u8], turn: usize) -> Option<usize> {
        let at = place_of(self.text, turn)?;
        let digit = bytes.get(at)?;
        let pair = self.versions.get(turn)?;
        above_least(*pair, *digit)
    }
}
