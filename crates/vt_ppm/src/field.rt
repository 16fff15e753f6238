//! A field of the header is found: its gap and its number.
ghost use Rattle.std.specs.Prelude.{◌≡◌, ◌+◌, ◌≤◌, MatchBool, length, not, drop, IfOk, IfErr};
ghost use Rattle.std.specs.Char.{is_ascii_digit};
ghost use Rattle.std.specs.List.{prefix_len};
ghost use Rattle.std.specs.Str.Parse.{digits_value, AllDigits};
ghost use Rattle.vt_ppm.specs.Format.{is_white, is_line_end, most_digits};
ghost use Rattle.vt_ppm.specs.Header.{BeginsComment, IsGapRun, IsFieldAt, IsBrokenFieldAt};

// The largest number of digits of a number.
const MOST_DIGITS: usize = 10;

const BLANK: u8 = b' ';

const TAB: u8 = b'\t';

const LINE_FEED: u8 = b'\n';

const CARRIAGE_RETURN: u8 = b'\r';

// The byte that begins a comment.
const HASH: u8 = b'#';

/// A field of the header: the place after it, and its number.
#[derive(Clone, Copy)]
pub struct Field {
    pub end: usize,
    pub value: u64,
}

/// Whether a byte is white space.
pub fn is_white_byte(byte: u8) -> bool
    ensures { result ≡ is_white byte }
{
    byte == BLANK || byte == TAB || is_line_end_byte(byte)
}

// Whether a byte ends a comment.
fn is_line_end_byte(byte: u8) -> bool
    ensures { result ≡ is_line_end byte }
{
    byte == LINE_FEED || byte == CARRIAGE_RETURN
}

// The number of white space bytes in front.
fn white_run(bytes: &[u8]) -> usize
    ensures run { result ≡ prefix_len is_white bytes.now }
    ensures within { result ≤ length bytes.now }
{
    bytes.iter().take_while(|b| is_white_byte(**b)).count()
}

// The number of bytes in front that end no line.
fn line_run(bytes: &[u8]) -> usize
    ensures run { result ≡ prefix_len (λ c. not (is_line_end c)) bytes.now }
    ensures within { result ≤ length bytes.now }
{
    bytes.iter().take_while(|b| !is_line_end_byte(**b)).count()
}

// The number of decimal digits in front.
fn digit_run(bytes: &[u8]) -> usize
    ensures run { result ≡ prefix_len is_ascii_digit bytes.now }
    ensures within { result ≤ length bytes.now }
{
    bytes.iter().take_while(|b| b.is_ascii_digit()).count()
}

// Whether a comment begins at a place.
fn begins_comment(bytes: &[u8], at: usize) -> bool
    ensures { MatchBool result (BeginsComment bytes.now at) (BeginsComment bytes.now at → ⊥) }
{
    at < bytes.len() && bytes[at] == HASH
}

// The number of bytes of the comment in front and of the white space that ends and follows it; all bytes where it is
// not ended.
fn comment_run(bytes: &[u8]) -> usize
    ensures run { let line = prefix_len (λ c. not (is_line_end c)) bytes.now in result ≡ line + prefix_len is_white (drop line bytes.now) }
    ensures within { result ≤ length bytes.now }
{
    let line = line_run(bytes);
    let (_, rest) = bytes.split_at(line);
    line + white_run(rest)
}

// The number of bytes in front with which a gap goes on, which a comment that is not ended does to the end.
fn gap_run(bytes: &[u8]) -> usize
    ensures { IsGapRun bytes.now result }
{
    let mut at = white_run(bytes);
    if at == 0 {
        return 0;
    }
    while begins_comment(bytes, at) {
        let (_, comment) = bytes.split_at(at);
        at += comment_run(comment);
    }
    at
}

// The number that at most ten digits write.
fn number_of(digits: &[u8]) -> u64
    requires few { length digits.now ≤ most_digits }
    requires numeral { AllDigits 10 digits.now }
    ensures { result ≡ digits_value 10 digits.now }
{
    let mut value: u64 = 0;
    for byte in digits {
        value = value * 10 + u64::from(*byte - b'0');
    }
    value
}

/// The field from a place on; or the first byte with which no field and white space can be there, which is the length
/// where the bytes end too soon.
pub fn field_at(bytes: &[u8], from: usize) -> Result<Field, usize>
    requires { from ≤ length bytes.now }
    ensures field { IfOk result (λ f. IsFieldAt bytes.now from f.end f.value) }
    ensures broken { IfErr result (λ at. IsBrokenFieldAt bytes.now from at) }
{
    let (_, rest) = bytes.split_at(from);
    let gap = gap_run(rest);
    let (_, after_gap) = rest.split_at(gap);
    let count = digit_run(after_gap);
    if gap == 0 || count == 0 {
        return Err(from + gap);
    }
    if count > MOST_DIGITS {
        return Err(from + gap + MOST_DIGITS);
    }
    let (digits, _) = after_gap.split_at(count);
    let value = number_of(digits);
    Ok(Field {
        end: from + gap + count,
        value,
    })
}
