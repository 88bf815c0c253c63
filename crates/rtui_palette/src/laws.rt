//! What the constants are made of, each law over a whole table at once.

ghost use Rattle.std.specs.Prelude.{◌≡◌, map};
ghost use Rattle.rtui_style.specs.Color.{color_of_number};
ghost use Rattle.rtui_palette.specs.Material.{accented_of, accented_numbers, accented_palettes};
ghost use Rattle.rtui_palette.specs.Material.{non_accented_of, non_accented_numbers, non_accented_palettes};
ghost use Rattle.rtui_palette.specs.Tailwind as tailwind;
ghost use Rattle.rtui_palette.specs.declared.material.TheConstants as material_constant;
ghost use Rattle.rtui_palette.specs.declared.tailwind.TheConstants as tailwind_constant;

/// Each shade of each palette of Tailwind CSS is the colour of its number.
pub fn tailwind_shades_are_their_numbers()
    ensures { map tailwind.shades tailwind.palettes
        ≡ map (map color_of_number) tailwind.shade_numbers }
{}

/// Each palette of Material Design is made of its numbers.
pub fn material_palettes_are_their_variants()
    ensures accented { accented_palettes ≡ map accented_of accented_numbers }
    ensures non_accented { non_accented_palettes ≡ map non_accented_of non_accented_numbers }
{}

/// Black and white are the colours of the least and of the greatest number, in both.
pub fn black_and_white()
    ensures tailwind_black { tailwind_constant.BLACK ≡ color_of_number 0 }
    ensures tailwind_white { tailwind_constant.WHITE ≡ color_of_number 0xffffff }
    ensures material_black { material_constant.BLACK ≡ color_of_number 0 }
    ensures material_white { material_constant.WHITE ≡ color_of_number 0xffffff }
{}
