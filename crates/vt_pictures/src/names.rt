//! The names of the pictures.

ghost use Rattle.std.specs.Prelude.{◌≡◌, ◌<◌, ◌+◌, ◌++◌, ◌∷◌, [], OnOk, IfOk, string_bytes};
ghost use Rattle.vt_pictures.specs.Names.{four_digit_numbers, picture_name, is_picture_name, is_picture_ending, is_digit};

use std::alloc::{AllocError, Global};

/// Whether the name is that of some picture under the prefix.
pub fn is_picture_name(prefix: &str, name: &str) -> bool
    ensures { result ≡ is_picture_name prefix.now name.now }
{
    let prefix = prefix.as_bytes();
    let name = name.as_bytes();
    name.starts_with(prefix) && is_picture_ending(&name[prefix.len()..])
}

fn is_picture_ending(ending: &[u8]) -> bool
    ensures { result ≡ is_picture_ending ending.now }
{
    match ending {
        [a, b, c, d, rest @ ..] => {
            is_digit(*a)
                && is_digit(*b)
                && is_digit(*c)
                && is_digit(*d)
                && rest == b".ppm".as_slice()
        }
        _ => false,
    }
}

fn is_digit(byte: u8) -> bool
    ensures { result ≡ is_digit byte }
{
    byte >= b'0' && byte <= b'9'
}

/// The name of a picture: the prefix, its number, which is below ten thousand, in four digits, and `.ppm`.
pub fn picture_name(alloc: Global, prefix: &str, picture: u32) -> Result<String, AllocError>
    requires { picture < four_digit_numbers }
    ensures { IfOk result (λ name. string_bytes name ≡ picture_name prefix.now picture) }
{
    let mut name = String::from_str(alloc, prefix)?;
    push_digit(&mut name, picture / 1000 % 10)?;
    push_digit(&mut name, picture / 100 % 10)?;
    push_digit(&mut name, picture / 10 % 10)?;
    push_digit(&mut name, picture % 10)?;
    name.push_str(".ppm")?;
    Ok(name)
}

fn push_digit(name: &mut String, digit: u32) -> Result<(), AllocError>
    requires { digit < 10 }
    ensures { OnOk result (string_bytes name.new ≡ string_bytes name.old ++ (48 + digit) ∷ []) }
{
    name.push(char::from(b'0' + digit as u8))
}
