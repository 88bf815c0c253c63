//! What screens show. `tools/test --accept tests_keys` writes them anew.

pub(crate) const FIRST: &[&str] = &["> Mercury  ", "  Venus    ", "  Earth    ", "  Mars     "];

pub(crate) const SIXTH: &[&str] = &["  Earth    ", "  Mars     ", "  Jupiter  ", "> Saturn   "];

pub(crate) const BACK: &[&str] = &["  Earth    ", "> Mars     ", "  Jupiter  ", "  Saturn   "];

pub(crate) const LAST_BUT_ONE: &[&str] = &[
    "  Jupiter  ",
    "  Saturn   ",
    "> Uranus   ",
    "  Neptune  ",
];

pub(crate) const SECOND: &[&str] = &["  Mercury  ", "> Venus    ", "  Earth    ", "  Mars     "];

pub(crate) const LOWER: &[&str] = &["  Earth    ", "> Mars     "];

pub(crate) const HIGHER: &[&str] = &[
    "  Earth    ",
    "> Mars     ",
    "  Jupiter  ",
    "  Saturn   ",
    "  Uranus   ",
];

pub(crate) const REMOVED: &[&str] = &[
    "tree/                                   ",
    "docs/                                   ",
    "b.txt                                  6",
    "                                        ",
    "                                        ",
    "2/2  -rw-r--r--  6  1970-01-01 00:00    ",
];

pub(crate) const NARROW: &[&str] = &[
    "tree/             ",
    "docs/             ",
    "a.txt            3",
    "b.txt            6",
    "                  ",
    "2/3  -rw-r--r--  3",
];

pub(crate) const NAMED: &[&str] = &[
    "tree/                                                       ",
    "          docs/                                             ",
    "          new/                                              ",
    "          b.txt                  6                          ",
    "          na.txt                 3                          ",
    "2/4  drwxr-xr-x  1970-01-01 00:00                           ",
];

pub(crate) const AHEAD: &[&str] = &[
    "tree/                                                                   ",
    "            docs/                         tea                           ",
    "            a.txt                       3                               ",
    "            b.txt                       6                               ",
    "                                                                        ",
    "2/3  -rw-r--r--  3  1970-01-01 00:00                                    ",
];

pub(crate) const ABOVE: &[&str] = &[
    "tree/docs                                                               ",
    "docs/                                                                   ",
    "a.txt                                                                   ",
    "b.txt                                                                   ",
    "                                                                        ",
    "0/0                                                                     ",
];

pub(crate) const CLICKED: &[&str] = &[
    "tree/                                   ",
    "docs/                                   ",
    "b.txt                                  6",
    "                                        ",
    "                                        ",
    "1/2  drwxr-xr-x  1970-01-01 00:00       ",
];

pub(crate) const DATED: &[&str] = &[
    "tree/                                           ",
    "docs/                           1970-01-01 00:00",
    "a.txt                        3  1970-01-01 00:00",
    "b.txt                        6  1970-01-01 00:00",
    "                                                ",
    "2/3  -rw-r--r--  3  1970-01-01 00:00            ",
];
