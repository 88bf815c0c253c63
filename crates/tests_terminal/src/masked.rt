//! What a masked text writes where its writer fails.
use arrayvec::ArrayString;
use rtui_text::Masked;
use std::fmt::Write;

// What stands in a writer of four bytes after a text of so many letters was written masked, and
// whether the writer failed.
fn written(secret: &str) -> (bool, ArrayString<4>) {
    let mut writer = ArrayString::<4>::new();
    let masked = Masked::new(secret, '□');
    let is_refused = write!(writer, "{masked}").is_err();
    (is_refused, writer)
}

#[test]
fn a_failed_write_shows_no_secret(rt: HostRuntime) {
    let (is_refused, shown) = written("ab");
    assert!(rt; is_refused);
    assert!(rt; !shown.as_str().contains('a') && !shown.as_str().contains('b'));
    let (is_refused, shown) = written("a");
    assert!(rt; !is_refused && shown.as_str() == "□");
}
