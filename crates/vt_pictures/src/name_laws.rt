//! What a picture's name is.

ghost use Rattle.std.specs.Prelude.{◌≡◌, ◌<◌, ℕ, List, true};
ghost use Rattle.vt_pictures.specs.Names.{four_digit_numbers, picture_name, is_picture_name};

/// The name of each picture is known as a picture's.
pub fn picture_names_are_known()
    ensures { (prefix : List ℕ) (picture : ℕ) → is_picture_name prefix (picture_name prefix picture) ≡ true }
{}

/// A name that is known as a picture's is that of a picture whose number is below ten thousand.
pub fn known_names_are_pictures()
    ensures { (prefix name : List ℕ) → is_picture_name prefix name ≡ true
        → (picture : ℕ) × (picture < four_digit_numbers) × (name ≡ picture_name prefix picture) }
{}
