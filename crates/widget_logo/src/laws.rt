//! Laws of logos and mascots that are no single call's clause.

ghost use Rattle.std.specs.Prelude.{◌≡◌};
ghost use Rattle.ratatui_core.specs.Layout.{Rect};
ghost use Rattle.ratatui_core.specs.Buffer.{BufferData, IsPlainFrom};
ghost use Rattle.widget_logo.specs.declared.logo.Size.{Size as LogoSize};
ghost use Rattle.widget_logo.specs.declared.logo.Size.TheVariants.{Tiny};
ghost use Rattle.widget_logo.specs.declared.logo.RatatuiLogo.{RatatuiLogo as LogoData};
ghost use Rattle.widget_logo.specs.Logos.{RendersLogo};
ghost use Rattle.widget_logo.specs.declared.mascot.MascotEyeColor.{MascotEyeColor as EyeColor};
ghost use Rattle.widget_logo.specs.declared.mascot.MascotEyeColor.TheVariants.{Default as DefaultEye};
ghost use Rattle.widget_logo.specs.declared.mascot.RatatuiMascot.{RatatuiMascot as MascotData};
ghost use Rattle.widget_logo.specs.Mascots.{RendersMascot};

use crate::logo::{RatatuiLogo, Size};
use crate::mascot::{MascotEyeColor, RatatuiMascot};

/// A logo leaves a buffer of plain cells one of plain cells; so a screen can show it.
pub fn logos_keep_cells_plain()
    ensures { (size : LogoSize) (area : Rect) (old new : BufferData) → IsPlainFrom 0 old
        → RendersLogo size area old new → IsPlainFrom 0 new }
{}

/// A logo is tiny, unless it is told otherwise.
pub fn logos_have_this_default()
    ensures size { (s : LogoSize) → ⟦<Size as Default>⟧.is_default s → s ≡ Tiny }
    ensures logo { (l : LogoData) → ⟦<RatatuiLogo as Default>⟧.is_default l → l.size ≡ Tiny }
{}

/// A mascot leaves a buffer of plain cells one of plain cells; so a screen can show it.
pub fn mascots_keep_cells_plain()
    ensures { (eye : EyeColor) (area : Rect) (old new : BufferData) → IsPlainFrom 0 old
        → RendersMascot eye area old new → IsPlainFrom 0 new }
{}

/// A mascot's eye is dark grey, unless it is told otherwise.
pub fn mascots_have_this_default()
    ensures eye { (e : EyeColor) → ⟦<MascotEyeColor as Default>⟧.is_default e → e ≡ DefaultEye }
    ensures mascot { (m : MascotData) → ⟦<RatatuiMascot as Default>⟧.is_default m → m.eye ≡ DefaultEye }
{}
