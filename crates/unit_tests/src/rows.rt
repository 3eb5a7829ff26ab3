// Sets of files, and what is told of their units: the order by the places of units among all, from 0, and the main; or the refusal, by its
// file from 0, its line and column, its code and its text.
pub const ROWS: [(&[&str], &str); 23] = [
    (&["package P is\nend P;\n"], "0"),
    (
        &[
            "package P is\nend P;\npackage Q is\nend Q;\n",
            "package body Q is\nend Q;\npackage body P is\nend P;\n",
        ],
        "0 3 1 2",
    ),
    (
        &[
            "with A;\nprocedure Main is\nbegin\n   null;\nend Main;\nwith B;\npackage A is\nend A;\n",
            "with A;\npackage body B is\nend B;\npackage B is\nend B;\n",
        ],
        "3 1 2 main 0",
    ),
    (
        &[
            "with Q;\npackage body P is\nend P;\nwith P;\npackage body Q is\nend Q;\n",
            "package P is\nend P;\npackage Q is\nend Q;\nprocedure Run is\nbegin\n   null;\nend Run;\n",
        ],
        "2 3 0 1 main 4",
    ),
    (
        &["with Ada.Real_Time, B;\nuse B;\npackage A is\nend A;\npackage B is\nend B;\n"],
        "1 0",
    ),
    (
        &["with ADA.real_time;\nwith b;\npackage A is\nend A;\npackage B is\nend B;\n"],
        "1 0",
    ),
    (
        &[
            "package P is\nend P;\n",
            "package Q is\nend Q;\npackage p is\nend p;\n",
        ],
        "1:3:9 N02 \"p\" is declared twice",
    ),
    (
        &[
            "package P is\nend P;\npackage body P is\nend P;\n",
            "package body P is\nend P;\n",
        ],
        "1:1:14 N02 \"P\" is declared twice",
    ),
    (
        &["package P is\nend P;\nprocedure P is\nbegin\n   null;\nend P;\n"],
        "0:3:11 N02 \"P\" is declared twice",
    ),
    (
        &["procedure P is\nbegin\n   null;\nend P;\npackage body P is\nend P;\n"],
        "0:5:14 N02 \"P\" is declared twice",
    ),
    (
        &[
            "procedure M is\nbegin\n   null;\nend M;\n",
            "package P is\nend P;\nprocedure Other is\nbegin\n   null;\nend Other;\n",
        ],
        "1:3:11 N11 second main \"Other\"",
    ),
    (
        &["procedure M is\nbegin\n   null;\nend M;\nprocedure M is\nbegin\n   null;\nend M;\n"],
        "0:5:11 N11 second main \"M\"",
    ),
    (
        &[
            "with Nowhere;\nprocedure M is\nbegin\n   null;\nend M;\nprocedure N is\nbegin\n   null;\nend N;\n",
            "package body P is\nend P;\npackage body P is\nend P;\n",
        ],
        "1:3:14 N02 \"P\" is declared twice",
    ),
    (
        &[
            "with Nowhere;\nprocedure M is\nbegin\n   null;\nend M;\nprocedure N is\nbegin\n   null;\nend N;\n",
            "package body P is\nend P;\n",
        ],
        "0:6:11 N11 second main \"N\"",
    ),
    (
        &[
            "package body P is\nend P;\n",
            "with M, Nowhere;\npackage Q is\nend Q;\n",
        ],
        "1:1:6 N01 \"M\" is not visible",
    ),
    (
        &["with P.Child;\npackage Q is\nend Q;\npackage P is\nend P;\n"],
        "0:1:6 N01 \"P.Child\" is not visible",
    ),
    (
        &[
            "package P is\nend P;\nwith P, Ada.Real_Time,\n  Ada.Real_Time.Clocks.Deep;\npackage Q is\nend Q;\n",
        ],
        "0:4:3 N01 \"Ada.Real_Time.Clocks.Deep\" is not visible",
    ),
    (
        &["with Ada;\npackage Q is\nend Q;\n"],
        "0:1:6 N01 \"Ada\" is not visible",
    ),
    (
        &["package M is\nend M;\nwith M;\npackage body P is\nend P;\n"],
        "0:4:14 N05 \"P\" differs from its declaration",
    ),
    (
        &["with M;\npackage P is\nend P;\nprocedure M is\nbegin\n   null;\nend M;\n"],
        "0:1:6 N01 \"M\" is not visible",
    ),
    (
        &["with P;\npackage P is\nend P;\n"],
        "0:2:9 N03 specs with each other in a circle",
    ),
    (
        &[
            "with A;\npackage Z is\nend Z;\nwith B;\npackage A is\nend A;\n",
            "with C;\npackage B is\nend B;\nwith A;\npackage C is\nend C;\n",
        ],
        "0:5:9 N03 specs with each other in a circle",
    ),
    (
        &[
            "with A;\npackage body B is\nend B;\nwith B;\npackage A is\nend A;\npackage B is\nend B;\n",
        ],
        "2 1 0",
    ),
];

/// Four packages that have an order.
pub const ORDERED: [&str; 4] = [
    "package A is\nend A;\nwith B;\npackage body A is\nend A;\n",
    "with A;\npackage B is\nend B;\nwith C;\npackage body B is\nend B;\n",
    "package C is\nend C;\nwith D, B;\npackage body C is\nend C;\n",
    "with C;\npackage D is\nend D;\n",
];

/// Four packages, of which two are in a circle.
pub const REFUSED: [&str; 4] = [
    "with B;\npackage A is\nend A;\n",
    "-- the second\nwith A;\npackage B is\nend B;\n",
    "with A, D;\npackage C is\nend C;\n",
    "package D is\nend D;\n",
];

/// What is told of the four in each order of the files.
pub const ARRANGED: [([usize; 4], &str, &str); 24] = [
    (
        [0, 1, 2, 3],
        "0 4 2 1 3 6 5",
        "0:2:9 N03 specs with each other in a circle",
    ),
    (
        [0, 1, 3, 2],
        "0 5 2 1 3 4 6",
        "0:2:9 N03 specs with each other in a circle",
    ),
    (
        [0, 2, 1, 3],
        "0 2 4 1 5 6 3",
        "0:2:9 N03 specs with each other in a circle",
    ),
    (
        [0, 2, 3, 1],
        "0 2 4 5 1 3 6",
        "0:2:9 N03 specs with each other in a circle",
    ),
    (
        [0, 3, 1, 2],
        "0 5 2 3 1 4 6",
        "0:2:9 N03 specs with each other in a circle",
    ),
    (
        [0, 3, 2, 1],
        "0 3 2 5 1 4 6",
        "0:2:9 N03 specs with each other in a circle",
    ),
    (
        [1, 0, 2, 3],
        "2 4 0 1 3 6 5",
        "0:3:9 N03 specs with each other in a circle",
    ),
    (
        [1, 0, 3, 2],
        "2 5 0 1 3 4 6",
        "0:3:9 N03 specs with each other in a circle",
    ),
    (
        [1, 2, 0, 3],
        "2 4 0 1 5 6 3",
        "0:3:9 N03 specs with each other in a circle",
    ),
    (
        [1, 2, 3, 0],
        "2 5 0 1 6 4 3",
        "0:3:9 N03 specs with each other in a circle",
    ),
    (
        [1, 3, 0, 2],
        "3 5 0 1 4 2 6",
        "0:3:9 N03 specs with each other in a circle",
    ),
    (
        [1, 3, 2, 0],
        "3 5 0 1 6 2 4",
        "0:3:9 N03 specs with each other in a circle",
    ),
    (
        [2, 0, 1, 3],
        "0 2 4 3 5 6 1",
        "1:2:9 N03 specs with each other in a circle",
    ),
    (
        [2, 0, 3, 1],
        "0 2 4 5 1 3 6",
        "1:2:9 N03 specs with each other in a circle",
    ),
    (
        [2, 1, 0, 3],
        "0 4 2 3 5 6 1",
        "1:3:9 N03 specs with each other in a circle",
    ),
    (
        [2, 1, 3, 0],
        "0 5 2 3 6 4 1",
        "1:3:9 N03 specs with each other in a circle",
    ),
    (
        [2, 3, 0, 1],
        "0 3 2 5 1 4 6",
        "2:2:9 N03 specs with each other in a circle",
    ),
    (
        [2, 3, 1, 0],
        "0 5 2 3 1 4 6",
        "2:3:9 N03 specs with each other in a circle",
    ),
    (
        [3, 0, 1, 2],
        "1 5 0 3 2 4 6",
        "1:2:9 N03 specs with each other in a circle",
    ),
    (
        [3, 0, 2, 1],
        "1 3 0 5 2 4 6",
        "1:2:9 N03 specs with each other in a circle",
    ),
    (
        [3, 1, 0, 2],
        "3 5 0 1 2 4 6",
        "1:3:9 N03 specs with each other in a circle",
    ),
    (
        [3, 1, 2, 0],
        "3 5 0 1 2 4 6",
        "1:3:9 N03 specs with each other in a circle",
    ),
    (
        [3, 2, 0, 1],
        "1 3 0 5 2 4 6",
        "2:2:9 N03 specs with each other in a circle",
    ),
    (
        [3, 2, 1, 0],
        "1 5 0 3 2 4 6",
        "2:3:9 N03 specs with each other in a circle",
    ),
];
