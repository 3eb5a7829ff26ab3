// Expressions, what each is worth, or the column at which it is refused.
use crate::tests::Answer::{self, Refused, Value};
use spark_messages::Code;

pub const FIRST: [(&str, Answer); 15] = [
    (
        "((((((((((((((((((((((((((((((((((((((((((((((((((((((((((((((((((((((((((((((((((((((((((((((((((((((((((((((((((((((((((((((((1))))))))))))))))))))))))))))))))))))))))))))))))))))))))))))))))))))))))))))))))))))))))))))))))))))))))))))))))))))))))))))))))",
        Value(1),
    ),
    (
        "170141183460469231731687303715884105727",
        Value(170141183460469231731687303715884105727),
    ),
    (
        "170141183460469231731687303715884105728",
        Refused(Code::Y01, 1),
    ),
    (
        "340282366920938463463374607431768211455",
        Refused(Code::Y01, 1),
    ),
    (
        "2 ** 126 + (2 ** 126 - 1)",
        Value(170141183460469231731687303715884105727),
    ),
    ("2 ** 127", Refused(Code::Y01, 3)),
    ("-2 ** 127", Refused(Code::Y01, 4)),
    ("-2 ** 126 - 2 ** 126", Value(i128::MIN)),
    ("Cb - 1", Refused(Code::Y01, 4)),
    ("-Cb", Refused(Code::Y01, 1)),
    ("abs Cb", Refused(Code::Y01, 1)),
    ("Cb / (-1)", Refused(Code::Y01, 4)),
    ("Cb * (-1)", Refused(Code::Y01, 4)),
    ("Cb mod (-1)", Value(0)),
    ("Cb rem (-1)", Value(0)),
];

pub const SECOND: [(&str, Answer); 15] = [
    ("(2 ** 126 + 2 ** 126) - 1", Refused(Code::Y01, 11)),
    ("(-1) ** (2 ** 64)", Value(1)),
    ("(-1) ** (2 ** 64 + 1)", Value(-1)),
    ("0 ** (2 ** 64)", Value(0)),
    ("3 ** (2 ** 64)", Refused(Code::Y01, 3)),
    ("(-2) ** 127", Value(i128::MIN)),
    ("(-2) ** 128", Refused(Code::Y01, 6)),
    ("0 ** 0", Value(1)),
    ("1 ** (2 ** 126)", Value(1)),
    ("2 ** (-1)", Refused(Code::Y02, 1)),
    ("7 / 2", Value(3)),
    ("(-7) / 2", Value(-3)),
    ("(-7) rem 2", Value(-1)),
    ("(-7) mod 2", Value(1)),
    ("7 mod (-2)", Value(-1)),
];

pub const THIRD: [(&str, Answer); 15] = [
    ("(-7) mod (-2)", Value(-1)),
    ("6 mod (-3)", Value(0)),
    ("1 / 0", Refused(Code::Y03, 3)),
    ("1 mod 0", Refused(Code::Y03, 3)),
    ("1 rem 0", Refused(Code::Y03, 3)),
    ("1 / 0 + 2 ** 127", Refused(Code::Y03, 3)),
    ("T'Last + 1", Value(1001)),
    ("T'First", Value(-100)),
    ("S'First", Value(0)),
    ("S'Last", Value(50)),
    ("S'Succ (S'Last)", Value(51)),
    ("T'Succ (T'Last)", Refused(Code::Y02, 1)),
    ("T'Pred (T'First)", Refused(Code::Y02, 1)),
    ("T'Val (12)", Value(12)),
    ("T'Val (2000)", Refused(Code::Y02, 1)),
];

pub const FOURTH: [(&str, Answer); 15] = [
    ("T'Min (Ct, 7)", Value(7)),
    ("T'Max (Ct, N7)", Value(12)),
    ("S (Ct)", Value(12)),
    ("S (60)", Refused(Code::Y02, 1)),
    ("S'(60)", Refused(Code::Y02, 1)),
    ("T (V)", Refused(Code::Y02, 1)),
    ("V + 1", Refused(Code::Y02, 1)),
    ("V / 0", Refused(Code::Y02, 1)),
    ("Va (1)", Refused(Code::Y02, 1)),
    ("Va'First", Value(1)),
    ("Va'Length", Value(10)),
    ("Arr'Last", Value(10)),
    ("Vg (Green)'Last", Value(10)),
    ("Grid'First", Value(1)),
    ("Natural (-1)", Refused(Code::Y02, 1)),
];

pub const FIFTH: [(&str, Answer); 15] = [
    ("Natural (7)", Value(7)),
    ("Integer'Last + 1", Value(2147483648)),
    ("Integer (1 / 0)", Refused(Code::Y03, 12)),
    ("Big'Pos (Cb)", Value(i128::MIN)),
    ("M8'Last + 1", Value(0)),
    ("C8 - 6", Value(7)),
    ("C8 * 5", Value(1)),
    ("C8 ** 3", Value(5)),
    ("C10 ** (2 ** 64)", Value(1)),
    ("-C8", Value(3)),
    ("not C8", Value(2)),
    ("C8 and 3", Value(1)),
    ("C8 or 10", Value(7)),
    ("C8 xor 15", Value(2)),
    ("C10 and (-1)", Value(9)),
];

pub const SIXTH: [(&str, Answer); 15] = [
    ("M10'Succ (9)", Value(0)),
    ("M10'Pred (0)", Value(9)),
    ("Ms (C10)", Refused(Code::Y02, 1)),
    ("300 / C8", Value(4)),
    ("C8 mod 3", Value(2)),
    ("W'Last + W'Last", Value(18446744073709551614)),
    ("W'Last * W'Last", Value(1)),
    ("W'Last ** 3", Value(18446744073709551615)),
    ("Blue", Value(2)),
    ("Color'Pos (Blue)", Value(2)),
    ("Color'Val (2)", Value(2)),
    ("Color'Val (9)", Refused(Code::Y02, 1)),
    ("Color'Succ (Pink)", Refused(Code::Y02, 1)),
    ("Few'Succ (Blue)", Value(3)),
    ("Few'Last", Value(2)),
];

pub const SEVENTH: [(&str, Answer); 15] = [
    ("Few'(Red)", Refused(Code::Y02, 1)),
    ("True and False", Value(0)),
    ("False and then 1 / 0 = 0", Refused(Code::Y03, 18)),
    ("True or else V = 0", Refused(Code::Y02, 1)),
    ("not True", Value(0)),
    ("True xor True", Value(0)),
    ("Ct in S", Value(1)),
    ("60 not in S", Value(1)),
    ("Ct in 1 .. 11", Value(0)),
    ("C10 in 2 .. 9", Value(1)),
    ("Red < Blue", Value(1)),
    ("2 ** 127 = 0", Refused(Code::Y01, 3)),
    ("(if True then 3 else 4)", Value(3)),
    ("(if False then 3 elsif True then 5 else 4)", Value(5)),
    ("(if False then 2 ** (-1) else 3)", Value(3)),
];

pub const EIGHTH: [(&str, Answer); 8] = [
    ("(if False then 1 / 0 else 2)", Refused(Code::Y03, 18)),
    ("(if V = 0 then 1 else 2)", Refused(Code::Y02, 1)),
    ("Seconds (2)", Value(2000000000)),
    ("Ada.Real_Time.Minutes (2) + Cd", Value(120003000000)),
    ("Minutes (2 ** 126)", Refused(Code::Y01, 1)),
    ("Time_Span_Zero", Value(0)),
    ("Integer'Min (2 ** 127, 1 / 0)", Refused(Code::Y01, 16)),
    ("((1) + (2)) * 3", Value(9)),
];
