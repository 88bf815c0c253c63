//! What screens show. `tools/test --accept tests_docs` writes them anew.

pub(crate) const GREETING: &[&str] = &[" Hello, world! ", "               "];

pub(crate) const WIDE: &[&str] = &["\\ \"日本\" "];
