// What is told of texts: all tests say so here, since each place that says it is proved.
use std::process::Abort;
use std::test::Fail;

// What is shown of a text is this one.
pub fn told(
    rt: &impl Abort,
    text: &str,
    found: Result<String, Fail>,
    want: &str,
) -> Result<(), Fail> {
    let found = found?;
    assert_eq!(rt; found.as_str(), want, "at {text}");
    Ok(())
}

// A number, or a check and the place of its fault, is this one.
pub fn answered(
    rt: &impl Abort,
    text: &str,
    found: Result<usize, (u8, usize)>,
    want: Result<usize, (u8, usize)>,
) {
    assert_eq!(rt; found, want, "at {text}");
}
