//! The border symbols by their text and by their arms.
ghost use Rattle.std.specs.Prelude.{◌≡◌, IsTrue};
ghost use Rattle.std.specs.Option.{option_copied};
ghost use Rattle.rtui_merge.specs.Shapes.{across, upright, is_mixed, is_rounded};
ghost use Rattle.rtui_merge.specs.Symbols.{arms_of, symbol_of, ReadsArms};

use crate::border_symbol::{BorderSymbol, LineStyle};
use crate::error::BorderSymbolError;
use std::str::FromStr;

macro_rules! arms {
    (@symbol) => { None };
    (@symbol $right:ident $up:ident $left:ident $down:ident) => {
        Some(BorderSymbol {
            right: LineStyle::$right,
            up: LineStyle::$up,
            left: LineStyle::$left,
            down: LineStyle::$down,
        })
    };
    ($([$($arm:ident)*]),* $(,)?) => { [$(arms!(@symbol $($arm)*)),*] };
}

macro_rules! symbols {
    (@symbol -) => { None };
    (@symbol $symbol:literal) => { Some($symbol) };
    ($($symbol:tt)*) => { [$(symbols!(@symbol $symbol)),*] };
}

macro_rules! crossings {
    ($([$([$([$($symbol:tt)*])*])*])*) => { [$([$([$(symbols!($($symbol)*)),*]),*]),*] };
}

/// The arms right, up, left and down of the characters from U+2500 on. Three of them are no border
/// symbols.
static ARMS: [Option<BorderSymbol>; 128] = arms![
    [Plain Nothing Plain Nothing], // ─
    [Thick Nothing Thick Nothing], // ━
    [Nothing Plain Nothing Plain], // │
    [Nothing Thick Nothing Thick], // ┃
    [TripleDash Nothing TripleDash Nothing], // ┄
    [TripleDashThick Nothing TripleDashThick Nothing], // ┅
    [Nothing TripleDash Nothing TripleDash], // ┆
    [Nothing TripleDashThick Nothing TripleDashThick], // ┇
    [QuadrupleDash Nothing QuadrupleDash Nothing], // ┈
    [QuadrupleDashThick Nothing QuadrupleDashThick Nothing], // ┉
    [Nothing QuadrupleDash Nothing QuadrupleDash], // ┊
    [Nothing QuadrupleDashThick Nothing QuadrupleDashThick], // ┋
    [Plain Nothing Nothing Plain], // ┌
    [Thick Nothing Nothing Plain], // ┍
    [Plain Nothing Nothing Thick], // ┎
    [Thick Nothing Nothing Thick], // ┏
    [Nothing Nothing Plain Plain], // ┐
    [Nothing Nothing Thick Plain], // ┑
    [Nothing Nothing Plain Thick], // ┒
    [Nothing Nothing Thick Thick], // ┓
    [Plain Plain Nothing Nothing], // └
    [Thick Plain Nothing Nothing], // ┕
    [Plain Thick Nothing Nothing], // ┖
    [Thick Thick Nothing Nothing], // ┗
    [Nothing Plain Plain Nothing], // ┘
    [Nothing Plain Thick Nothing], // ┙
    [Nothing Thick Plain Nothing], // ┚
    [Nothing Thick Thick Nothing], // ┛
    [Plain Plain Nothing Plain], // ├
    [Thick Plain Nothing Plain], // ┝
    [Plain Thick Nothing Plain], // ┞
    [Plain Plain Nothing Thick], // ┟
    [Plain Thick Nothing Thick], // ┠
    [Thick Thick Nothing Plain], // ┡
    [Thick Plain Nothing Thick], // ┢
    [Thick Thick Nothing Thick], // ┣
    [Nothing Plain Plain Plain], // ┤
    [Nothing Plain Thick Plain], // ┥
    [Nothing Thick Plain Plain], // ┦
    [Nothing Plain Plain Thick], // ┧
    [Nothing Thick Plain Thick], // ┨
    [Nothing Thick Thick Plain], // ┩
    [Nothing Plain Thick Thick], // ┪
    [Nothing Thick Thick Thick], // ┫
    [Plain Nothing Plain Plain], // ┬
    [Plain Nothing Thick Plain], // ┭
    [Thick Nothing Plain Plain], // ┮
    [Thick Nothing Thick Plain], // ┯
    [Plain Nothing Plain Thick], // ┰
    [Plain Nothing Thick Thick], // ┱
    [Thick Nothing Plain Thick], // ┲
    [Thick Nothing Thick Thick], // ┳
    [Plain Plain Plain Nothing], // ┴
    [Plain Plain Thick Nothing], // ┵
    [Thick Plain Plain Nothing], // ┶
    [Thick Plain Thick Nothing], // ┷
    [Plain Thick Plain Nothing], // ┸
    [Plain Thick Thick Nothing], // ┹
    [Thick Thick Plain Nothing], // ┺
    [Thick Thick Thick Nothing], // ┻
    [Plain Plain Plain Plain], // ┼
    [Plain Plain Thick Plain], // ┽
    [Thick Plain Plain Plain], // ┾
    [Thick Plain Thick Plain], // ┿
    [Plain Thick Plain Plain], // ╀
    [Plain Plain Plain Thick], // ╁
    [Plain Thick Plain Thick], // ╂
    [Plain Thick Thick Plain], // ╃
    [Thick Thick Plain Plain], // ╄
    [Plain Plain Thick Thick], // ╅
    [Thick Plain Plain Thick], // ╆
    [Thick Thick Thick Plain], // ╇
    [Thick Plain Thick Thick], // ╈
    [Plain Thick Thick Thick], // ╉
    [Thick Thick Plain Thick], // ╊
    [Thick Thick Thick Thick], // ╋
    [DoubleDash Nothing DoubleDash Nothing], // ╌
    [DoubleDashThick Nothing DoubleDashThick Nothing], // ╍
    [Nothing DoubleDash Nothing DoubleDash], // ╎
    [Nothing DoubleDashThick Nothing DoubleDashThick], // ╏
    [Double Nothing Double Nothing], // ═
    [Nothing Double Nothing Double], // ║
    [Double Nothing Nothing Plain], // ╒
    [Plain Nothing Nothing Double], // ╓
    [Double Nothing Nothing Double], // ╔
    [Nothing Nothing Double Plain], // ╕
    [Nothing Nothing Plain Double], // ╖
    [Nothing Nothing Double Double], // ╗
    [Double Plain Nothing Nothing], // ╘
    [Plain Double Nothing Nothing], // ╙
    [Double Double Nothing Nothing], // ╚
    [Nothing Plain Double Nothing], // ╛
    [Nothing Double Plain Nothing], // ╜
    [Nothing Double Double Nothing], // ╝
    [Double Plain Nothing Plain], // ╞
    [Plain Double Nothing Double], // ╟
    [Double Double Nothing Double], // ╠
    [Nothing Plain Double Plain], // ╡
    [Nothing Double Plain Double], // ╢
    [Nothing Double Double Double], // ╣
    [Double Nothing Double Plain], // ╤
    [Plain Nothing Plain Double], // ╥
    [Double Nothing Double Double], // ╦
    [Double Plain Double Nothing], // ╧
    [Plain Double Plain Nothing], // ╨
    [Double Double Double Nothing], // ╩
    [Double Plain Double Plain], // ╪
    [Plain Double Plain Double], // ╫
    [Double Double Double Double], // ╬
    [Rounded Nothing Nothing Rounded], // ╭
    [Nothing Nothing Rounded Rounded], // ╮
    [Nothing Rounded Rounded Nothing], // ╯
    [Rounded Rounded Nothing Nothing], // ╰
    [], // ╱
    [], // ╲
    [], // ╳
    [Nothing Nothing Plain Nothing], // ╴
    [Nothing Plain Nothing Nothing], // ╵
    [Plain Nothing Nothing Nothing], // ╶
    [Nothing Nothing Nothing Plain], // ╷
    [Nothing Nothing Thick Nothing], // ╸
    [Nothing Thick Nothing Nothing], // ╹
    [Thick Nothing Nothing Nothing], // ╺
    [Nothing Nothing Nothing Thick], // ╻
    [Thick Nothing Plain Nothing], // ╼
    [Nothing Plain Nothing Thick], // ╽
    [Plain Nothing Thick Nothing], // ╾
    [Nothing Thick Nothing Plain], // ╿
];

/// The symbols of none, plain, double and thick arms: by the arm to the right, then up, then to the
/// left, then down.
static CROSSINGS: [[[[Option<&str>; 4]; 4]; 4]; 4] = crossings![
    [
        [[- "╷" - "╻"] ["╴" "┐" "╖" "┒"] [- "╕" "╗" -] ["╸" "┑" - "┓"]]
        [["╵" "│" - "╽"] ["┘" "┤" - "┧"] ["╛" "╡" - -] ["┙" "┥" - "┪"]]
        [[- - "║" -] ["╜" - "╢" -] ["╝" - "╣" -] [- - - -]]
        [["╹" "╿" - "┃"] ["┚" "┦" - "┨"] [- - - -] ["┛" "┩" - "┫"]]
    ]
    [
        [["╶" "┌" "╓" "┎"] ["─" "┬" "╥" "┰"] [- - - -] ["╾" "┭" - "┱"]]
        [["└" "├" - "┟"] ["┴" "┼" - "╁"] [- - - -] ["┵" "┽" - "╅"]]
        [["╙" - "╟" -] ["╨" - "╫" -] [- - - -] [- - - -]]
        [["┖" "┞" - "┠"] ["┸" "╀" - "╂"] [- - - -] ["┹" "╃" - "╉"]]
    ]
    [
        [[- "╒" "╔" -] [- - - -] ["═" "╤" "╦" -] [- - - -]]
        [["╘" "╞" - -] [- - - -] ["╧" "╪" - -] [- - - -]]
        [["╚" - "╠" -] [- - - -] ["╩" - "╬" -] [- - - -]]
        [[- - - -] [- - - -] [- - - -] [- - - -]]
    ]
    [
        [["╺" "┍" - "┏"] ["╼" "┮" - "┲"] [- - - -] ["━" "┯" - "┳"]]
        [["┕" "┝" - "┢"] ["┶" "┾" - "╆"] [- - - -] ["┷" "┿" - "╈"]]
        [[- - - -] [- - - -] [- - - -] [- - - -]]
        [["┗" "┡" - "┣"] ["┺" "╄" - "╊"] [- - - -] ["┻" "╇" - "╋"]]
    ]
];

/// The horizontal symbols, by their style.
static HORIZONTALS: [Option<&str>; 11] = symbols![- "─" "═" "━" - "╌" "╍" "┄" "┅" "┈" "┉"];

/// The vertical symbols, by their style.
static VERTICALS: [Option<&str>; 11] = symbols![- "│" "║" "┃" - "╎" "╏" "┆" "┇" "┊" "┋"];

// The arms of a text that is a border symbol.
#[tactic(auto, using(crate::proofs::SymbolsLemmas::arms_by_bytes))]
pub(crate) fn arms_of(text: &str) -> Option<BorderSymbol>
    ensures { result ≡ arms_of text.now }
{
    // U+2500 to U+257F
    match text.as_bytes() {
        [0xE2, block @ (0x94 | 0x95), last @ 0x80..=0xBF] => {
            ARMS[(*block - 0x94) as usize * 64 + (*last - 0x80) as usize]
        }
        _ => None,
    }
}

/// Reads a border symbol as its arms.
impl FromStr for BorderSymbol {
    type Err = BorderSymbolError;

    ghost from_str_gives = { ReadsArms };

    fn from_str(text: &str) -> Result<Self, BorderSymbolError> {
        arms_of(text).ok_or(BorderSymbolError::CannotParse)
    }
}

impl BorderSymbol {
    /// Returns the text of the symbol with these arms, if there is one.
    ///
    /// ```
    /// let plain: BorderSymbol = "─".parse()?;
    /// let thick: BorderSymbol = "┃".parse()?;
    /// plain.exact(thick).to_str(); // Some("╂")
    /// ```
    #[tactic(auto, using(crate::proofs::ArmsLemmas::straight_or_unlisted))]
    pub fn to_str(self) -> Option<&'static str>
        ensures { option_copied result ≡ symbol_of self }
    {
        if self.is_mixed() {
            self.crossing()
        } else if self.is_straight() {
            if self.up.is(LineStyle::Nothing) {
                horizontal(self.right)
            } else {
                vertical(self.up)
            }
        } else if self.is_rounded() {
            Some(self.rounded())
        } else {
            None
        }
    }

    /// Returns the text of the symbol with these arms, if there is one.
    #[tactic(auto, unfolding(crate::specs::Shapes::is_mixed))]
    fn crossing(self) -> Option<&'static str>
        requires { IsTrue (is_mixed self) }
        ensures { option_copied result ≡ symbol_of self }
    {
        CROSSINGS[self.right.number()][self.up.number()][self.left.number()][self.down.number()]
    }

    /// Returns the text of this rounded corner.
    #[tactic(auto, using(crate::proofs::ArmsLemmas::symbol_of_rounded))]
    fn rounded(self) -> &'static str
        requires { IsTrue (is_rounded self) }
        ensures { symbol_of self ≡ Some result.now }
    {
        match (
            self.right.is(LineStyle::Nothing),
            self.up.is(LineStyle::Nothing),
        ) {
            (false, true) => "╭",
            (true, true) => "╮",
            (true, false) => "╯",
            (false, false) => "╰",
        }
    }
}

/// Returns the text of the horizontal symbol of a style, if there is one.
#[tactic(auto, using(crate::proofs::ArmsLemmas::symbol_of_across))]
fn horizontal(style: LineStyle) -> Option<&'static str>
    ensures { option_copied result ≡ symbol_of (across style) }
{
    HORIZONTALS[style.number()]
}

/// Returns the text of the vertical symbol of a style, if there is one.
#[tactic(auto, using(crate::proofs::ArmsLemmas::symbol_of_upright))]
fn vertical(style: LineStyle) -> Option<&'static str>
    ensures { option_copied result ≡ symbol_of (upright style) }
{
    VERTICALS[style.number()]
}
