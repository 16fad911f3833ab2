//! The constants of the curve, of RFC 8032, section 5.1, as elements of the field.

ghost use Rattle.std.specs.Prelude.{◌≡◌, ◌%◌};
ghost use Rattle.field25519.specs.Field.{field_mul, field_sub};
ghost use Rattle.curve25519.specs.Points.{base_x, base_y, curve_d, twice_d, IsOnCurve};
ghost use Rattle.curve25519.specs.Encoding.{root_of_minus_one};

use field25519::Element;
use words64::Words;

/// The constants are those that RFC 8032, section 5.1, describes: d is -121665/121666, 2 d its
/// double, y of the base point 4/5, x even and on the curve with it, and the root of -1 is one.
pub fn constants_hold()
    ensures d { field_mul curve_d 121666 ≡ field_sub 0 121665 }
    ensures twice { field_mul 2 curve_d ≡ twice_d }
    ensures y { field_mul 5 base_y ≡ 4 }
    ensures x { base_x % 2 ≡ 0 }
    ensures on_curve { IsOnCurve base_x base_y }
    ensures root { field_mul root_of_minus_one root_of_minus_one ≡ field_sub 0 1 }
{}

// d.
pub(crate) fn curve_constant() -> Element
    ensures { result ≡ curve_d }
{
    Element::from_words(&Words {
        w0: 0x75eb_4dca_1359_78a3,
        w1: 0x0070_0a4d_4141_d8ab,
        w2: 0x8cc7_4079_7779_e898,
        w3: 0x5203_6cee_2b6f_fe73,
    })
}

// 2 d.
pub(crate) fn twice_curve_constant() -> Element
    ensures { result ≡ twice_d }
{
    Element::from_words(&Words {
        w0: 0xebd6_9b94_26b2_f159,
        w1: 0x00e0_149a_8283_b156,
        w2: 0x198e_80f2_eef3_d130,
        w3: 0x2406_d9dc_56df_fce7,
    })
}

// A square root of -1.
pub(crate) fn root_of_minus_1() -> Element
    ensures { result ≡ root_of_minus_one }
{
    Element::from_words(&Words {
        w0: 0xc4ee_1b27_4a0e_a0b0,
        w1: 0x2f43_1806_ad2f_e478,
        w2: 0x2b4d_0099_3dfb_d7a7,
        w3: 0x2b83_2480_4fc1_df0b,
    })
}

// x of the base point.
pub(crate) fn x_of_base() -> Element
    ensures { result ≡ base_x }
{
    Element::from_words(&Words {
        w0: 0xc956_2d60_8f25_d51a,
        w1: 0x692c_c760_9525_a7b2,
        w2: 0xc0a4_e231_fdd6_dc5c,
        w3: 0x2169_36d3_cd6e_53fe,
    })
}

// y of the base point.
pub(crate) fn y_of_base() -> Element
    ensures { result ≡ base_y }
{
    Element::from_words(&Words {
        w0: 0x6666_6666_6666_6658,
        w1: 0x6666_6666_6666_6666,
        w2: 0x6666_6666_6666_6666,
        w3: 0x6666_6666_6666_6666,
    })
}
