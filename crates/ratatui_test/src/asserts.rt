//! Assertions that print what differs.

/// Ends a test if two buffers differ, and prints where.
///
/// ```
/// assert_same!(rt; terminal.backend().buffer(), &wanted);
/// ```
#[macro_export]
macro_rules! assert_same {
    ($rt:expr; $left:expr, $right:expr $(,)?) => {
        match $crate::difference($left, $right) {
            None => {}
            Some(apart) => panic!($rt; "{apart}"),
        }
    };
}

/// Ends a test if a screen doesn't show these lines, and prints where it differs. It takes memory
/// for a buffer of the lines, and so stands in a function that answers a `Result`.
///
/// ```
/// assert_shows!(rt; terminal.backend(), [" Hello, world! "]);
/// ```
#[macro_export]
macro_rules! assert_shows {
    ($rt:expr; $backend:expr, [$($line:expr),* $(,)?] $(,)?) => {
        match $crate::Shows::difference($backend, $rt.alloc(), &[$($line),*])? {
            None => {}
            Some(apart) => panic!($rt; "{apart}"),
        }
    };
}

/// Ends a test if a screen doesn't show the lines that are stored under a name, and prints where it
/// differs: `tools/test --accept CRATE` then writes what is shown into the file that has the name.
/// The name is a constant in a file of its own, `src/screens.rt` say, and holds a list of lines; it
/// begins as an empty one, `pub(crate) const GREETING: &[&str] = &[];`. It takes memory as
/// [`assert_shows!`] does.
///
/// ```
/// assert_stored!(rt; terminal.backend(), screens::GREETING);
/// ```
#[macro_export]
macro_rules! assert_stored {
    ($rt:expr; $backend:expr, $($name:ident)::+ $(,)?) => {
        match $crate::Shows::difference($backend, $rt.alloc(), $($name)::+)? {
            None => {}
            Some(apart) => panic!($rt; "stored screen {}: {apart}", stringify!($($name)::+)),
        }
    };
}
