//! Border merging: every pair of border symbols, and the table of their arms.
use rtui_merge::{BorderSymbol, BorderSymbolError, LineStyle, MergeStrategy};
use std::str::FromStr;

/// A border symbol in each line, with its arms right, up, left and down: `-` none, `p` plain, `r`
/// rounded, `d` double, `t` thick, `a` `b` `c` plain dashes of two, three and four, `A` `B` `C`
/// thick ones.
static SYMBOLS: &str = "\
─ p-p-
━ t-t-
│ -p-p
┃ -t-t
┄ b-b-
┅ B-B-
┆ -b-b
┇ -B-B
┈ c-c-
┉ C-C-
┊ -c-c
┋ -C-C
┌ p--p
┍ t--p
┎ p--t
┏ t--t
┐ --pp
┑ --tp
┒ --pt
┓ --tt
└ pp--
┕ tp--
┖ pt--
┗ tt--
┘ -pp-
┙ -pt-
┚ -tp-
┛ -tt-
├ pp-p
┝ tp-p
┞ pt-p
┟ pp-t
┠ pt-t
┡ tt-p
┢ tp-t
┣ tt-t
┤ -ppp
┥ -ptp
┦ -tpp
┧ -ppt
┨ -tpt
┩ -ttp
┪ -ptt
┫ -ttt
┬ p-pp
┭ p-tp
┮ t-pp
┯ t-tp
┰ p-pt
┱ p-tt
┲ t-pt
┳ t-tt
┴ ppp-
┵ ppt-
┶ tpp-
┷ tpt-
┸ ptp-
┹ ptt-
┺ ttp-
┻ ttt-
┼ pppp
┽ pptp
┾ tppp
┿ tptp
╀ ptpp
╁ pppt
╂ ptpt
╃ pttp
╄ ttpp
╅ pptt
╆ tppt
╇ tttp
╈ tptt
╉ pttt
╊ ttpt
╋ tttt
╌ a-a-
╍ A-A-
╎ -a-a
╏ -A-A
═ d-d-
║ -d-d
╒ d--p
╓ p--d
╔ d--d
╕ --dp
╖ --pd
╗ --dd
╘ dp--
╙ pd--
╚ dd--
╛ -pd-
╜ -dp-
╝ -dd-
╞ dp-p
╟ pd-d
╠ dd-d
╡ -pdp
╢ -dpd
╣ -ddd
╤ d-dp
╥ p-pd
╦ d-dd
╧ dpd-
╨ pdp-
╩ ddd-
╪ dpdp
╫ pdpd
╬ dddd
╭ r--r
╮ --rr
╯ -rr-
╰ rr--
╴ --p-
╵ -p--
╶ p---
╷ ---p
╸ --t-
╹ -t--
╺ t---
╻ ---t
╼ t-p-
╽ -p-t
╾ p-t-
╿ -t-p";

/// Returns the arms of a text by the table above, if it is a border symbol.
fn arms_of(text: &str) -> Option<&'static str> {
    let (_, line) = SYMBOLS.split_once(text)?;
    line.strip_prefix(' ')?.lines().next()
}

/// Returns whether there is an arm just if one of the other two has one.
fn has_arms_of_both(joined: &str, prev: &str, next: &str) -> bool {
    let both = prev.bytes().zip(next.bytes());
    joined.bytes().zip(both).all(|(arm, (prev, next))| (arm != b'-')
        == (prev != b'-' || next != b'-'))
}

/// Returns the half of a line in this style, of a plain and a thick one, and no text if there is no
/// arm.
fn half(style: u8, plain: &'static str, thick: &'static str) -> Option<&'static str> {
    match style {
        b'-' => Some(""),
        b'p' => Some(plain),
        b't' => Some(thick),
        _ => None,
    }
}

fn join(prev: &'static str, next: &'static str) -> &'static str {
    if prev.is_empty() {
        next
    } else if next.is_empty() {
        prev
    } else {
        MergeStrategy::Exact.merge(prev, next)
    }
}

/// Returns the join of two texts, if both are there.
fn joined(prev: Option<&'static str>, next: Option<&'static str>) -> Option<&'static str> {
    match (prev, next) {
        (Some(prev), Some(next)) => Some(join(prev, next)),
        _ => None,
    }
}

/// Returns the join of the halves of lines that have these arms, if there are such halves.
fn joined_halves(arms: &str) -> Option<&'static str> {
    match arms.as_bytes() {
        [right, up, left, down] => {
            let horizontal = joined(half(*right, "╶", "╺"), half(*left, "╴", "╸"));
            let vertical = joined(half(*up, "╵", "╹"), half(*down, "╷", "╻"));
            joined(horizontal, vertical)
        }
        _ => None,
    }
}

/// Returns the symbol and the arms of a line of the table above, or no texts if there aren't four
/// arms.
fn symbol_and_arms(line: &'static str) -> (&'static str, &'static str) {
    match line.split_once(' ') {
        Some((symbol, arms)) if arms.len() == 4 => (symbol, arms),
        _ => ("", ""),
    }
}

/// Returns whether of two symbols Fuzzy gives one with an arm just if one of them has one, and
/// Replace the second.
fn gives_arms_of_both(prev_line: &'static str, next_line: &'static str) -> bool {
    let (prev, prev_arms) = symbol_and_arms(prev_line);
    let (next, next_arms) = symbol_and_arms(next_line);
    match arms_of(MergeStrategy::Fuzzy.merge(prev, next)) {
        Some(arms) => {
            has_arms_of_both(arms, prev_arms, next_arms)
                && MergeStrategy::Replace.merge(prev, next) == next
        }
        None => false,
    }
}

#[test]
fn all_pairs(rt: HostRuntime) {
    let mut pairs = 0u32;
    for prev_line in SYMBOLS.lines() {
        for next_line in SYMBOLS.lines() {
            assert!(rt;
                gives_arms_of_both(prev_line, next_line),
                "{prev_line} with {next_line}"
            );
            pairs = pairs.wrapping_add(1);
        }
    }
    assert!(rt; pairs == 15625);
}

/// Returns whether a symbol over itself stays.
fn stays(line: &'static str) -> bool {
    let (symbol, arms) = symbol_and_arms(line);
    arms_of(symbol) == Some(arms)
        && MergeStrategy::Exact.merge(symbol, symbol) == symbol
        && MergeStrategy::Fuzzy.merge(symbol, symbol) == symbol
}

/// Returns whether the halves of a symbol join to it, if it has some.
fn is_joined_of_halves(line: &'static str) -> Option<bool> {
    let (symbol, arms) = symbol_and_arms(line);
    match joined_halves(arms) {
        Some(joined) => Some(joined == symbol),
        None => None,
    }
}

/// A symbol over itself stays, and one of plain and thick arms is the join of its halves.
#[test]
fn all_symbols(rt: HostRuntime) {
    let mut rebuilt = 0u32;
    for line in SYMBOLS.lines() {
        assert!(rt; stays(line), "{line}");
        if let Some(is_joined) = is_joined_of_halves(line) {
            assert!(rt; is_joined, "{line}");
            rebuilt = rebuilt.wrapping_add(1);
        }
    }
    assert!(rt; rebuilt == 80);
}

/// Returns the style of an arm by its letter in the table above.
fn style(letter: u8) -> LineStyle {
    match letter {
        b'p' => LineStyle::Plain,
        b'r' => LineStyle::Rounded,
        b'd' => LineStyle::Double,
        b't' => LineStyle::Thick,
        b'a' => LineStyle::DoubleDash,
        b'b' => LineStyle::TripleDash,
        b'c' => LineStyle::QuadrupleDash,
        b'A' => LineStyle::DoubleDashThick,
        b'B' => LineStyle::TripleDashThick,
        b'C' => LineStyle::QuadrupleDashThick,
        _ => LineStyle::Nothing,
    }
}

/// Returns whether a border symbol has these arms.
fn has_arms(symbol: BorderSymbol, arms: &str) -> bool {
    match arms.as_bytes() {
        [right, up, left, down] => {
            symbol.right == style(*right)
                && symbol.up == style(*up)
                && symbol.left == style(*left)
                && symbol.down == style(*down)
        }
        _ => false,
    }
}

/// Returns whether a symbol is read as its arms, and found by them.
fn is_read(line: &'static str) -> bool {
    let (text, arms) = symbol_and_arms(line);
    match BorderSymbol::from_str(text) {
        Ok(symbol) => has_arms(symbol, arms) && symbol.to_str() == Some(text),
        Err(_) => false,
    }
}

/// Each symbol is read as its arms, and any other text is refused.
#[test]
fn symbols_by_their_arms(rt: HostRuntime) {
    for line in SYMBOLS.lines() {
        assert!(rt; is_read(line), "{line}");
    }
    assert!(rt; BorderSymbol::from_str("╱") == Err(BorderSymbolError::CannotParse));
    assert!(rt; BorderSymbol::from_str("──") == Err(BorderSymbolError::CannotParse));
}
