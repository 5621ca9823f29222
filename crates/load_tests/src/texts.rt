// Texts that are malformed, or whose first forms are wrong.
use crate::lending::answer;
use terms::refusal::Refusal;

#[test]
fn malformed_texts(rt: HostRuntime) {
    let cases: [(&[u8], Refusal); 34] = [
        (b"x", Refusal::Malformed(0)),
        (b"\n", Refusal::Malformed(0)),
        (b" (grid (half 1))\n", Refusal::Malformed(0)),
        (b"(foo)\n(bar)\nx", Refusal::Malformed(12)),
        (b"()\n", Refusal::Malformed(1)),
        (b"(grid ())\n", Refusal::Malformed(7)),
        (b"(grid 1)\n", Refusal::Malformed(6)),
        (b"(grid (half (x 1)))\n", Refusal::Malformed(12)),
        (b"(Grid (half 1))\n", Refusal::Malformed(1)),
        (b"(gr1d (half 1))\n", Refusal::Malformed(3)),
        (b"(gr\xE9d (half 1))\n", Refusal::Malformed(3)),
        (b"(grid(half 1))\n", Refusal::Malformed(5)),
        (b"(grid  (half 1))\n", Refusal::Malformed(6)),
        (b"(grid )\n", Refusal::Malformed(6)),
        (b"(grid (half 1) )\n", Refusal::Malformed(15)),
        (b"(grid (half ))\n", Refusal::Malformed(12)),
        (b"(grid (half 1 ))\n", Refusal::Malformed(14)),
        (b"(grid (half  1))\n", Refusal::Malformed(12)),
        (b"(grid (half\t1))\n", Refusal::Malformed(11)),
        (b"(grid (half 1)(half 1))\n", Refusal::Malformed(14)),
        (b"(grid (half 1)) \n", Refusal::Malformed(15)),
        (b"(grid (half 1))\r\n", Refusal::Malformed(15)),
        (b"(grid (half 1))\n\n", Refusal::Malformed(16)),
        (b"(grid (half 1)", Refusal::Malformed(14)),
        (b"(grid (half 1))", Refusal::Malformed(15)),
        (b"(grid (half -0))\n", Refusal::Malformed(13)),
        (b"(grid (half 01))\n", Refusal::Malformed(13)),
        (b"(grid (half -))\n", Refusal::Malformed(13)),
        (b"(grid (half --1))\n", Refusal::Malformed(13)),
        (b"(grid (half +1))\n", Refusal::Malformed(12)),
        (b"(grid (half 1.5))\n", Refusal::Malformed(13)),
        (b"(grid (half 1234567890123456))\n", Refusal::Malformed(27)),
        (b"(grid (half -1234567890123456))\n", Refusal::Malformed(28)),
        (b"(grid (half 3))\n(grid\n", Refusal::Malformed(21)),
    ];
    for (text, why) in cases {
        assert_eq!(rt; answer(text), Err(why));
    }
}

#[test]
fn wrong_forms_and_numbers(rt: HostRuntime) {
    let cases: [(&[u8], Refusal); 28] = [
        (b"", Refusal::WrongForm(0)),
        (
            b"(grid (half 999999999999999))\n",
            Refusal::OutsideField(12),
        ),
        (b"(grid (half 3))\n", Refusal::OutsideField(12)),
        (b"(grid (half -1))\n", Refusal::OutsideField(12)),
        (b"(grid (half 3))\n(foo)\n", Refusal::OutsideField(12)),
        (b"(foo)\n(grid (half 3))\n", Refusal::WrongForm(0)),
        (b"(foo)\n", Refusal::WrongForm(0)),
        (b"(gri (half 1))\n", Refusal::WrongForm(0)),
        (b"(grids (half 1))\n", Refusal::WrongForm(0)),
        (b"(family (rule 1) (window 0))\n", Refusal::WrongForm(0)),
        (b"(grid)\n", Refusal::WrongForm(5)),
        (b"(grid (half))\n", Refusal::WrongForm(6)),
        (b"(grid (half 1 2))\n", Refusal::WrongForm(6)),
        (b"(grid (half 3 3))\n", Refusal::WrongForm(6)),
        (b"(grid (size 1))\n", Refusal::WrongForm(6)),
        (b"(grid (grid 1))\n", Refusal::WrongForm(6)),
        (b"(grid (foo) (half 3))\n", Refusal::WrongForm(6)),
        (b"(grid (half 1) (half 1))\n", Refusal::WrongForm(15)),
        (b"(grid (half 3) (half 1))\n", Refusal::OutsideField(12)),
        (b"(grid (half 1))\n", Refusal::WrongForm(16)),
        (
            b"(grid (half 1))\n(grid (half 1))\n",
            Refusal::WrongForm(16),
        ),
        (
            b"(grid (half 1))\n(basket (family 0) (rule 1))\n",
            Refusal::WrongForm(16),
        ),
        (
            b"(grid (half 1))\n(family (window 0) (rule 1))\n",
            Refusal::WrongForm(24),
        ),
        (
            b"(grid (half 1))\n(family (rule 1))\n",
            Refusal::WrongForm(32),
        ),
        (
            b"(grid (half 1))\n(family (rule 2))\n",
            Refusal::OutsideField(30),
        ),
        (
            b"(grid (half 1))\n(family (rule 1) (window 17))\n",
            Refusal::OutsideField(41),
        ),
        (
            b"(grid (half 1))\n(family (rule 1 1) (window 17))\n",
            Refusal::WrongForm(24),
        ),
        (
            b"(grid (half 1))\n(family (rule 1) (window 16) (rule 1))\n",
            Refusal::WrongForm(45),
        ),
    ];
    for (text, why) in cases {
        assert_eq!(rt; answer(text), Err(why));
    }
}
