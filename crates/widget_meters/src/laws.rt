//! Laws of gauges that are no single call's clause.

ghost use Rattle.std.specs.Prelude.{◌≡◌, ℕ, List, map, true, codes, encode_utf8_all, IfSome};
ghost use Rattle.ratatui_core.specs.Layout.{EdgesFit, HasPosition, Position, Rect};
ghost use Rattle.ratatui_core.specs.Buffer.{BufferData, Cell, IsPlainFrom, IsSettledBuffer};
ghost use Rattle.widget_boxes.specs.Boxes.{IsNarrowBox};
ghost use Rattle.widget_meters.specs.declared.gauge.Gauge.{Gauge};
ghost use Rattle.widget_meters.specs.Gauges.{IsFillOf, RendersAreaGauge};
ghost use Rattle.widget_meters.specs.Gauges.{filled_cell, full_cell, full_columns, tip_codes};
ghost use Rattle.widget_meters.specs.Shares.{is_full};
ghost use Rattle.widget_meters.specs.declared.gauge.Fill.{Fill};
ghost use Rattle.widget_meters.specs.declared.gauge.TheConstants.{FULL_BLOCK, TIPS};
ghost use Rattle.widget_meters.specs.declared.line_gauge.TheConstants.{PLAIN_LINE};
ghost use Rattle.widget_meters.specs.declared.line_gauge.LineGauge.{LineGauge};
ghost use Rattle.widget_meters.specs.LineGauges.{HasNarrowLine, RendersLineGauge};

/// A gauge on a buffer of plain cells leaves one that a screen can show, if it has no box or a
/// narrow one.
pub fn gauges_on_plain_cells_are_settled()
    ensures { (g : Gauge) (area : Rect) (old new : BufferData) → EdgesFit old.area
        → IsPlainFrom 0 old
        → IfSome g.block IsNarrowBox → RendersAreaGauge g area old new → IsSettledBuffer new }
{}

/// A line gauge of symbols of one column on a buffer of plain cells leaves one that a screen can
/// show, if it has no box or a narrow one.
pub fn line_gauges_on_plain_cells_are_settled()
    ensures { (g : LineGauge) (area : Rect) (old new : BufferData) → EdgesFit old.area
        → IsPlainFrom 0 old → IfSome g.block IsNarrowBox → HasNarrowLine g
        → RendersLineGauge g area old new → IsSettledBuffer new }
{}

/// At 100 per cent each cell of a gauge's bar is filled.
pub fn full_gauges_are_filled()
    ensures columns { (g : Gauge) (width : ℕ) → is_full g.share ≡ true
        → full_columns g width ≡ width }
    ensures cells { (g : Gauge) (text : List ℕ) (r : Rect) (f : Fill) (p : Position) (c : Cell)
        → is_full g.share ≡ true → IsFillOf g text r f → HasPosition r p
        → filled_cell f p c ≡ full_cell f p c }
{}

/// The symbols that gauges are made of have these characters.
pub fn gauges_have_these_symbols()
    ensures line { PLAIN_LINE.now ≡ encode_utf8_all (codes "─") }
    ensures block { FULL_BLOCK.now ≡ encode_utf8_all (codes "█") }
    ensures tips { map (λ tip. tip.now) TIPS ≡ map encode_utf8_all tip_codes }
{}
