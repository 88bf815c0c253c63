//! Constraints and layouts.

/// One constraint: `== 5` so many columns or rows, `== 50%` so many hundredths, `== 1/3` a part of
/// the area, `>= 5` at least, `<= 5` at most, `*= 2` a share of what the others leave. A number
/// before `%` or `/` is a literal, or stands in parentheses.
///
/// ```
/// constraint!(== 50%) // Constraint::Percentage(50)
/// ```
#[macro_export]
macro_rules! constraint {
    (== $percent:tt %) => {
        $crate::Constraint::Percentage($percent)
    };
    (== $part:tt / $whole:tt) => {
        $crate::Constraint::Ratio($part, $whole)
    };
    (== $length:expr) => {
        $crate::Constraint::Length($length)
    };
    (>= $least:expr) => {
        $crate::Constraint::Min($least)
    };
    (<= $most:expr) => {
        $crate::Constraint::Max($most)
    };
    (*= $share:expr) => {
        $crate::Constraint::Fill($share)
    };
}

/// An array of constraints, each as [`constraint!`] reads it; `; n` after one repeats it.
///
/// ```
/// let parts = constraints![== 3, == 50%, *= 1]; // [Length(3), Percentage(50), Fill(1)]
/// ```
#[macro_export]
macro_rules! constraints {
    () => {
        []
    };
    (@ [$($done:expr),*] [$($now:tt)+]) => {
        [$($done,)* $crate::constraint!($($now)+)]
    };
    (@ [$($done:expr),*] [$($now:tt)+] ,) => {
        [$($done,)* $crate::constraint!($($now)+)]
    };
    (@ [] [$($now:tt)+] ; $count:expr) => {
        [$crate::constraint!($($now)+); $count]
    };
    (@ [$($done:expr),*] [$($now:tt)+] , $($rest:tt)+) => {
        $crate::constraints!(@ [$($done,)* $crate::constraint!($($now)+)] [] $($rest)+)
    };
    (@ [$($done:expr),*] [$($now:tt)*] $next:tt $($rest:tt)*) => {
        $crate::constraints!(@ [$($done),*] [$($now)* $next] $($rest)*)
    };
    ($($all:tt)+) => {
        $crate::constraints!(@ [] [] $($all)+)
    };
}

/// A layout of parts one below the other, by constraints as [`constraints!`] reads them: a
/// `Result<Layout, AllocError>`.
///
/// ```
/// let [head, body]: [Rect; 2] = vertical![in alloc; == 1, *= 1]?.areas(area);
/// ```
#[macro_export]
macro_rules! vertical {
    (in $alloc:expr; $($all:tt)*) => {
        $crate::Layout::vertical($alloc, &$crate::constraints![$($all)*])
    };
    ($($rest:tt)*) => {
        compile_error!("`vertical!` takes an allocator first: write `vertical![in alloc; == 1, *= 1]?`")
    };
}

/// A layout of parts side by side, by constraints as [`constraints!`] reads them: a
/// `Result<Layout, AllocError>`.
///
/// ```
/// let [names, text]: [Rect; 2] = horizontal![in alloc; == 20, *= 1]?.areas(area);
/// ```
#[macro_export]
macro_rules! horizontal {
    (in $alloc:expr; $($all:tt)*) => {
        $crate::Layout::horizontal($alloc, &$crate::constraints![$($all)*])
    };
    ($($rest:tt)*) => {
        compile_error!("`horizontal!` takes an allocator first: write `horizontal![in alloc; == 20, *= 1]?`")
    };
}
