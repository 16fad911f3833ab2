//! The constants of P-256 (SP 800-186): b, p and the base point, which is on the curve.

ghost use Rattle.std.specs.Prelude.{◌≡◌};
ghost use Rattle.p256_field.specs.Field.{prime};
ghost use Rattle.p256_curve.specs.Points.{base_x, base_y, curve_b, IsOnCurve};

use p256_field::Element;
use wide_words::U256;

/// The base point is on the curve.
pub fn constants_hold()
    ensures { IsOnCurve base_x base_y }
{}

// b.
pub(crate) fn b_of_curve() -> Element
    ensures { result ≡ curve_b }
{
    Element::from_montgomery(&U256 {
        w0: 0xd89c_df62_29c4_bddf,
        w1: 0xacf0_05cd_7884_3090,
        w2: 0xe5a2_20ab_f721_2ed6,
        w3: 0xdc30_061d_0487_4834,
    })
}

// x of the base point.
pub(crate) fn x_of_base() -> Element
    ensures { result ≡ base_x }
{
    Element::from_montgomery(&U256 {
        w0: 0x79e7_30d4_18a9_143c,
        w1: 0x75ba_95fc_5fed_b601,
        w2: 0x79fb_732b_7762_2510,
        w3: 0x1890_5f76_a537_55c6,
    })
}

// y of the base point.
pub(crate) fn y_of_base() -> Element
    ensures { result ≡ base_y }
{
    Element::from_montgomery(&U256 {
        w0: 0xddf2_5357_ce95_560a,
        w1: 0x8b4a_b8e4_ba19_e45c,
        w2: 0xd2e8_8688_dd21_f325,
        w3: 0x8571_ff18_2588_5d85,
    })
}

// 3.
pub(crate) fn three() -> Element
    ensures { result ≡ 3 }
{
    Element::from_montgomery(&U256 {
        w0: 0x3,
        w1: 0xffff_fffd_0000_0000,
        w2: 0xffff_ffff_ffff_ffff,
        w3: 0x2_ffff_fffc,
    })
}

// p.
pub(crate) fn prime() -> U256
    ensures { result ≡ prime }
{
    U256 {
        w0: 0xffff_ffff_ffff_ffff,
        w1: 0xffff_ffff,
        w2: 0x0,
        w3: 0xffff_ffff_0000_0001,
    }
}
