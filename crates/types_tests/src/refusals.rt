// Declarations that are refused, each with the code and the column.
use spark_messages::Code;

/// What the declarations may name, on the lines 1 to 6.
pub const HEAD: &str = "package P is
type T is range 0 .. 9;
subtype S is T range 2 .. 5;
type M is mod 8;
type Color is (Red, Green, Blue);
V : Integer := 0;
";

pub const REFUSED: [(&str, Code, u32); 35] = [
    ("type A1 is range 5 .. 4;", Code::Y05, 18),
    ("type A2 is range V .. 4;", Code::Y02, 18),
    ("type A3 is range 1 .. V;", Code::Y02, 23),
    ("type A4 is range 1 / 0 .. V;", Code::Y03, 20),
    ("type A5 is range 0 .. 2 ** 127;", Code::Y01, 25),
    ("type A6 is range -2 ** 127 .. 0;", Code::Y01, 21),
    (
        "type A7 is range 0 .. 340282366920938463463374607431768211455;",
        Code::Y01,
        23,
    ),
    ("type A8 is range V / 0 .. 2 ** 127;", Code::Y02, 18),
    ("type B1 is mod 1;", Code::Y05, 16),
    ("type B2 is mod 2 ** 64 + 1;", Code::Y05, 16),
    ("type B3 is mod V;", Code::Y02, 16),
    ("type B4 is mod 2 ** 127;", Code::Y01, 18),
    ("type B5 is mod 8 / (4 - 4);", Code::Y03, 18),
    ("type B6 is mod (-8);", Code::Y05, 16),
    ("subtype C1 is T range -1 .. 3;", Code::Y05, 23),
    ("subtype C2 is T range 3 .. 10;", Code::Y05, 28),
    ("subtype C3 is T range 9 .. -5;", Code::Y05, 28),
    ("subtype C4 is T range 10 .. 12;", Code::Y05, 23),
    ("subtype C5 is S range 4 .. 8;", Code::Y05, 28),
    ("subtype C6 is M range 0 .. 8;", Code::Y05, 28),
    ("subtype C7 is Positive range 0 .. 3;", Code::Y05, 30),
    (
        "subtype C8 is Color range Red .. Color'Val (9);",
        Code::Y02,
        34,
    ),
    ("subtype C9 is T range V .. 1 / 0;", Code::Y02, 23),
    (
        "subtype D1 is T range 1 .. (if True then 2 else 3 / 0);",
        Code::Y03,
        51,
    ),
    (
        "subtype D2 is Boolean range False .. (False and then 1 / 0 = 0);",
        Code::Y03,
        56,
    ),
    (
        "subtype D3 is Natural range 0 .. Natural (-1);",
        Code::Y02,
        34,
    ),
    ("type E1 is array (0 .. 2 ** 31) of T;", Code::Y05, 24),
    ("type E2 is array (V .. 3) of T;", Code::Y02, 19),
    (
        "type E3 is array (S'First .. T'Last + 1) of T;",
        Code::Y05,
        30,
    ),
    (
        "type E4 is array (T range 1 .. 2 ** (-1)) of T;",
        Code::Y02,
        32,
    ),
    ("type E5 is array (1 .. 2 ** 127) of T;", Code::Y01, 26),
    ("X1 : Integer range 0 .. 2 ** 31 := 0;", Code::Y05, 25),
    ("X2 : T range 2 ** (-1) .. 3 := 3;", Code::Y02, 14),
    ("Empty : constant T range 5 / 0 .. 3 := 3;", Code::Y03, 28),
    (
        "type F1 is record L : T range 0 .. 10; end record;",
        Code::Y05,
        36,
    ),
];
