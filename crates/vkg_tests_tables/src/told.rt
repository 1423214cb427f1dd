// What is told of a text: all tests say so here, since each place that says it is proved.
use std::process::Abort;
use std::test::Fail;

// This text is found under the name.
pub fn told(
    rt: &impl Abort,
    name: &str,
    found: Result<String, Fail>,
    expected: &str,
) -> Result<(), Fail> {
    let found = found?;
    assert_eq!(rt; found.as_str(), expected, "{name}");
    Ok(())
}
