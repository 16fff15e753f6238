use vt_definitions::{greatest_sample, put_sample, put_word, sample_at, texel_length, word_at};

// Two texels of one-byte samples.
const NARROW: [u8; 6] = [0, 1, 2, 255, 16, 32];

// Two texels of two-byte samples.
const WIDE: [u8; 12] = [0, 0, 0, 0, 0, 0, 0, 1, 128, 0, 255, 255];

#[test]
fn a_texel_has_three_samples(rt: HostRuntime) {
    assert!(rt; texel_length(1) == 3 && texel_length(2) == 6);
}

// Whether the texels have these words.
fn have_red_first() -> bool {
    word_at::<1>(&NARROW, 0) == 258
        && word_at::<1>(&NARROW, 1) == 255 * 65536 + 16 * 256 + 32
        && word_at::<2>(&WIDE, 0) == 0
        && word_at::<2>(&WIDE, 1) == 6_442_516_479
}

#[test]
fn a_word_has_red_first(rt: HostRuntime) {
    assert!(rt; have_red_first());
}

#[test]
fn a_word_is_written_as_one_texel(rt: HostRuntime) {
    let mut narrow = [7; 9];
    put_word::<1>(&mut narrow, 1, 258);
    let mut wide = [7; 12];
    put_word::<2>(&mut wide, 1, 6_442_516_479);
    assert!(rt;
        narrow == [7, 7, 7, 0, 1, 2, 7, 7, 7] && wide == [7, 7, 7, 7, 7, 7, 0, 1, 128, 0, 255, 255]
    );
}

// Whether the samples of the texels are read so.
fn have_high_bytes_first() -> bool {
    greatest_sample(1) == 255
        && greatest_sample(2) == 65535
        && sample_at::<1>(&NARROW, 3) == 255
        && sample_at::<2>(&WIDE, 4) == 32768
}

#[test]
fn a_sample_has_its_high_byte_first(rt: HostRuntime) {
    let mut samples = [7; 4];
    put_sample::<1>(&mut samples, 0, 9);
    put_sample::<2>(&mut samples, 1, 258);
    assert!(rt; have_high_bytes_first() && samples == [9, 7, 1, 2]);
}
