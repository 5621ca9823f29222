// Which texts are well formed, and where the others are not.
use text::shape::malformed;

#[test]
fn well_formed_texts(rt: HostRuntime) {
    let cases: [&[u8]; 8] = [
        b"",
        b"(grid)\n",
        b"(grid (half))\n",
        b"(grid (half 1))\n",
        b"(foo)\n(bar)\n",
        b"(held (line 0) (net -2) (price 100000))\n",
        b"(row (line 1) (column 3) (prices 0 -1 999999999999999))\n",
        b"(z (z) (z -999999999999999))\n",
    ];
    for text in cases {
        assert_eq!(rt; malformed(text), None);
    }
}

#[test]
fn malformed_texts(rt: HostRuntime) {
    let cases: [(&[u8], usize); 26] = [
        (b"()", 1),
        (b"(grid ())", 7),
        (b"(grid 1)", 6),
        (b"(grid (half (x 1)))", 12),
        (b"(foo)\n(bar)\nx", 12),
        (b"(foo)", 5),
        (b"(foo", 4),
        (b"\n", 0),
        (b"(foo)\n\n", 6),
        (b" (foo)\n", 0),
        (b"(Foo)\n", 1),
        (b"(fo\to)\n", 3),
        (b"(foo)\r\n", 5),
        (b"(foo) \n", 5),
        (b"(foo )\n", 5),
        (b"(foo  (bar))\n", 5),
        (b"(foo (bar ))\n", 10),
        (b"(foo (bar 1 ))\n", 12),
        (b"(foo (bar)(baz))\n", 10),
        (b"(fo\xe9)\n", 3),
        (b"(a (b -0))\n", 7),
        (b"(a (b 01))\n", 7),
        (b"(a (b -))\n", 7),
        (b"(a (b --1))\n", 7),
        (b"(a (b 1234567890123456))\n", 21),
        (b"(a (b 1c))\n", 7),
    ];
    for (text, place) in cases {
        assert_eq!(rt; malformed(text), Some(place));
    }
}
