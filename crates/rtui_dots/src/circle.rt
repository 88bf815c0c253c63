//! Circles.

ghost use Rattle.std.specs.Prelude.{◌≡◌, ◌<◌, ◌≤◌, ◌+◌, ◌-◌, ◌^◌, pos, ◌+ℤ◌, ◌*ℤ◌, unsigned_abs, IsTrue, []};
ghost use Rattle.std.specs.Prelude.{◌∷◌};
ghost use Rattle.rtui_dots.specs.Grids.{is_open, SetsDots};
ghost use Rattle.rtui_dots.specs.Circles.{cosine_of, fine, circle_dot, degrees_from};

use crate::painter::Painter;
use crate::scale::in_billionths;
use crate::shape::Shape;
use rtui_style::Color;

/// A circle, as 360 points around its centre, a degree from each to the next one.
#[derive(Debug, Clone, Copy)]
pub struct Circle {
    /// The centre, from the left.
    pub x: i64,
    /// The centre, from below.
    pub y: i64,
    /// How far each point is from the centre.
    pub radius: u64,
    /// Its colour.
    pub color: Color,
}

impl Circle {
    /// Makes a circle around this centre.
    pub fn new(x: i64, y: i64, radius: u64, color: Color) -> Circle
        ensures { result ≡ record { x = x; y = y; radius = radius; color = color } }
    {
        Circle {
            x,
            y,
            radius,
            color,
        }
    }
}

// The cosines of 0 to 90 degrees in billionths.
static COSINES: [u32; 91] = [
    1_000_000_000,
    999_847_695,
    999_390_827,
    998_629_535,
    997_564_050,
    996_194_698,
    994_521_895,
    992_546_152,
    990_268_069,
    987_688_341,
    984_807_753,
    981_627_183,
    978_147_601,
    974_370_065,
    970_295_726,
    965_925_826,
    961_261_696,
    956_304_756,
    951_056_516,
    945_518_576,
    939_692_621,
    933_580_426,
    927_183_855,
    920_504_853,
    913_545_458,
    906_307_787,
    898_794_046,
    891_006_524,
    882_947_593,
    874_619_707,
    866_025_404,
    857_167_301,
    848_048_096,
    838_670_568,
    829_037_573,
    819_152_044,
    809_016_994,
    798_635_510,
    788_010_754,
    777_145_961,
    766_044_443,
    754_709_580,
    743_144_825,
    731_353_702,
    719_339_800,
    707_106_781,
    694_658_370,
    681_998_360,
    669_130_606,
    656_059_029,
    642_787_610,
    629_320_391,
    615_661_475,
    601_815_023,
    587_785_252,
    573_576_436,
    559_192_903,
    544_639_035,
    529_919_264,
    515_038_075,
    500_000_000,
    484_809_620,
    469_471_563,
    453_990_500,
    438_371_147,
    422_618_262,
    406_736_643,
    390_731_128,
    374_606_593,
    358_367_950,
    342_020_143,
    325_568_154,
    309_016_994,
    292_371_705,
    275_637_356,
    258_819_045,
    241_921_896,
    224_951_054,
    207_911_691,
    190_808_995,
    173_648_178,
    156_434_465,
    139_173_101,
    121_869_343,
    104_528_463,
    87_155_743,
    69_756_474,
    52_335_956,
    34_899_497,
    17_452_406,
    0,
];

// The cosine of so many degrees in billionths.
fn cosine_of(degrees: u32) -> i128
    requires { degrees < 720 }
    ensures value { result ≡ cosine_of degrees }
    ensures within { unsigned_abs result < 2 ^ 32 }
{
    let degrees = degrees as usize % 360;
    if degrees < 90 {
        i128::from(COSINES[degrees])
    } else if degrees < 180 {
        -i128::from(COSINES[180 - degrees])
    } else if degrees < 270 {
        -i128::from(COSINES[degrees - 180])
    } else {
        i128::from(COSINES[360 - degrees])
    }
}

// How far a circle's point is from the centre along one axis, in billionths.
fn spread(radius: u64, cosine: i128) -> i128
    requires { unsigned_abs cosine < 2 ^ 32 }
    ensures value { result ≡ pos radius *ℤ cosine }
    ensures within { unsigned_abs result < 2 ^ 96 }
{
    i128::from(radius) * cosine
}

// A coordinate of a circle's point in billionths.
fn fine(center: i64, radius: u64, cosine: i128) -> i128
    requires { unsigned_abs cosine < 2 ^ 32 }
    ensures value { result ≡ fine center radius cosine }
    ensures within { unsigned_abs result < 2 ^ 98 }
{
    in_billionths(center) + spread(radius, cosine)
}

impl Painter {
    // Sets the dot of a circle's point.
    fn set_degree(&mut self, circle: &Circle, degrees: u32)
        requires open { IsTrue (is_open self.old.scale) }
        requires below { degrees < 360 }
        ensures { SetsDots (circle_dot self.old.scale circle.now degrees ∷ []) self.old self.new }
    {
        let x = fine(circle.x, circle.radius, cosine_of(degrees));
        let y = fine(circle.y, circle.radius, cosine_of(degrees + 270));
        let (column, row) = (self.scale.fine_column(x), self.scale.fine_row(y));
        self.set_dot(column, row, circle.color);
    }

    // Sets the dots of a circle.
    fn set_circle(&mut self, circle: &Circle)
        requires { IsTrue (is_open self.old.scale) }
        ensures { SetsDots (degrees_from self.old.scale circle.now 0 360) self.old self.new }
    {
        for degrees in 0..360 {
            self.set_degree(circle, degrees);
        }
    }
}

impl Shape for Circle {
    ghost use Rattle.rtui_dots.specs.Circles.{dots_of_circle};

    ghost dots = { dots_of_circle };

    fn draw(&self, painter: &mut Painter) {
        if painter.scale.is_open() {
            painter.set_circle(self);
        }
    }
}
