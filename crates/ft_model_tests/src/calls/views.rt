//! Calls of views of dicts, of reversed cursors and of whole worlds, and of dicts that start split, with
//! replies and contents as CPython 3 gives them. What the manual leaves open is by hand: the order of
//! keys, and what a reversed cursor of a dict gives whose keys changed.
use super::Case;

pub const VIEWS: [Case; 31] = [
    Case {
        calls: "set d 1 1 / set d 2 2 / set e 2 3 / keysand d e / keysxor d e / riter d c / next c / del d 2 / next c / dump",
        replies: "ok / ok / ok / {2} / {1} / ok / 2: 2 / ok / RuntimeError size / world d {1: 1}; e {2: 3}; l []; m []; s set(); t set(); q []; r []; p []",
        contents: "{1: 1} {2: 3}",
    },
    Case {
        calls: "append l 1 / append l 2 / append l 3 / riter l c / next c / pop l / pop l / next c",
        replies: "ok / ok / ok / ok / 3 / 3 / 2 / StopIteration",
        contents: "[1]",
    },
    Case {
        calls: "set d 3 0 / set d 1 0 / set d 2 0 / set e 2 0 / set e 4 0 / set e 3 0 / set e 5 0 / keysand d e / keyssub d e / keysor d e / keysxor d e",
        replies: "ok / ok / ok / ok / ok / ok / ok / {3, 2} / {1} / {3, 1, 2, 4, 5} / {1, 4, 5}",
        contents: "{3: 0, 1: 0, 2: 0} {2: 0, 4: 0, 3: 0, 5: 0}",
    },
    Case {
        calls: "set d 3 0 / set d 1 0 / set d 2 0 / set e 2 0 / set e 4 0 / set e 3 0 / set e 5 0 / keysand e d / keyssub e d / keysor e d / keysxor e d",
        replies: "ok / ok / ok / ok / ok / ok / ok / {2, 3} / {4, 5} / {2, 4, 3, 5, 1} / {4, 5, 1}",
        contents: "{3: 0, 1: 0, 2: 0} {2: 0, 4: 0, 3: 0, 5: 0}",
    },
    Case {
        calls: "keysand d e / keyssub d e / keysor d e / keysxor d e / set d 1 1 / keysand d e / keyssub d e / keysor d e / keysxor d e",
        replies: "set() / set() / set() / set() / ok / set() / {1} / {1} / {1}",
        contents: "{1: 1}",
    },
    Case {
        calls: "set e 'b' 1 / set e 0 1 / keysand d e / keyssub d e / keysor d e / keysxor d e",
        replies: "ok / ok / set() / set() / {'b', 0} / {'b', 0}",
        contents: "{'b': 1, 0: 1}",
    },
    Case {
        calls: "set d 2 2 / set d 1 1 / keysand d d / keyssub d d / keysor d d / keysxor d d",
        replies: "ok / ok / {2, 1} / set() / {2, 1} / set()",
        contents: "{2: 2, 1: 1}",
    },
    Case {
        calls: "set d 1 1 / set d 2 2 / del d 1 / set d 1 3 / set e 1 0 / set e 2 0 / keysand d e / keysor d e",
        replies: "ok / ok / ok / ok / ok / ok / {2, 1} / {2, 1}",
        contents: "{2: 2, 1: 3} {1: 0, 2: 0}",
    },
    Case {
        calls: "set d 9223372036854775807 1 / set d -9223372036854775808 2 / set e -9223372036854775808 3 / keysand d e / keyssub d e / keysxor d e",
        replies: "ok / ok / ok / {-9223372036854775808} / {9223372036854775807} / {9223372036854775807}",
        contents: "{9223372036854775807: 1, -9223372036854775808: 2} {-9223372036854775808: 3}",
    },
    Case {
        calls: "set d 1 2 / set d 2 None / itemshas d 1 2 / itemshas d 1 1 / itemshas d 2 None / itemshas d 2 2 / itemshas d 3 None",
        replies: "ok / ok / True / False / True / False / False",
        contents: "{1: 2, 2: None}",
    },
    Case {
        calls: "itemshas d 1 1 / set d 1 'a' / itemshas d 1 'a' / itemshas d 1 'b' / set d 1 'b' / itemshas d 1 'b' / itemshas d 'b' 1",
        replies: "False / ok / True / False / ok / True / False",
        contents: "{1: 'b'}",
    },
    Case {
        calls: "riter d c / next c / next c / set d 1 1 / next c",
        replies: "ok / StopIteration / StopIteration / ok / StopIteration",
        contents: "{1: 1}",
    },
    Case {
        calls: "set d 1 1 / set d 2 2 / set d 3 3 / riter d c / next c / next c / next c / next c / next c",
        replies: "ok / ok / ok / ok / 3: 3 / 2: 2 / 1: 1 / StopIteration / StopIteration",
        contents: "{1: 1, 2: 2, 3: 3}",
    },
    Case {
        calls: "set d 1 1 / set d 2 2 / riter d c / set d 3 3 / next c / del d 3 / next c",
        replies: "ok / ok / ok / ok / RuntimeError size / ok / RuntimeError size",
        contents: "{1: 1, 2: 2}",
    },
    Case {
        calls: "set d 1 1 / set d 2 2 / riter d c / next c / set d 1 7 / next c / next c / set d 3 3 / next c",
        replies: "ok / ok / ok / 2: 2 / ok / 1: 7 / StopIteration / ok / StopIteration",
        contents: "{1: 7, 2: 2, 3: 3}",
    },
    Case {
        calls: "set d 1 1 / set d 2 2 / riter d c / clear d / next c / set d 1 1 / set d 2 2 / next c",
        replies: "ok / ok / ok / ok / RuntimeError size / ok / ok / RuntimeError size",
        contents: "{1: 1, 2: 2}",
    },
    Case {
        calls: "set d 1 1 / set d 2 2 / set d 3 3 / riter d c / next c / del d 3 / set d 4 4 / next c / next c / next c",
        replies: "ok / ok / ok / ok / 3: 3 / ok / ok / 2: 2 / 1: 1 / StopIteration",
        contents: "{1: 1, 2: 2, 4: 4}",
    },
    Case {
        calls: "set d 1 1 / set d 2 2 / riter d c / del d 2 / set d 3 3 / next c / next c / next c",
        replies: "ok / ok / ok / ok / ok / 3: 3 / 1: 1 / StopIteration",
        contents: "{1: 1, 3: 3}",
    },
    Case {
        calls: "set d 1 1 / set d 2 2 / set d 3 3 / riter d c / next c / del d 1 / set d 1 5 / next c / next c",
        replies: "ok / ok / ok / ok / 3: 3 / ok / ok / 2: 2 / StopIteration",
        contents: "{2: 2, 3: 3, 1: 5}",
    },
    Case {
        calls: "set d 1 1 / set d 2 2 / riter d a / iter d b / next a / next b / next a / next b / next a / next b",
        replies: "ok / ok / ok / ok / 2: 2 / 1: 1 / 1: 1 / 2: 2 / StopIteration / StopIteration",
        contents: "{1: 1, 2: 2}",
    },
    Case {
        calls: "set d 1 1 / set e 5 5 / riter d c / riter e c / next c / next c",
        replies: "ok / ok / ok / ok / 5: 5 / StopIteration",
        contents: "{1: 1} {5: 5}",
    },
    Case {
        calls: "riter l c / next c / append l 1 / next c",
        replies: "ok / StopIteration / ok / StopIteration",
        contents: "[1]",
    },
    Case {
        calls: "append l 1 / append l 2 / riter l c / next c / next c / next c / append l 3 / next c",
        replies: "ok / ok / ok / 2 / 1 / StopIteration / ok / StopIteration",
        contents: "[1, 2, 3]",
    },
    Case {
        calls: "append l 1 / append l 2 / riter l c / append l 3 / next c / next c / next c",
        replies: "ok / ok / ok / ok / 2 / 1 / StopIteration",
        contents: "[1, 2, 3]",
    },
    Case {
        calls: "append l 1 / append l 2 / append l 3 / riter l c / next c / insert l 0 9 / next c / next c / next c / next c",
        replies: "ok / ok / ok / ok / 3 / ok / 1 / 9 / StopIteration / StopIteration",
        contents: "[9, 1, 2, 3]",
    },
    Case {
        calls: "append l 1 / append l 2 / append l 3 / riter l c / clear l / next c / append l 4 / append l 5 / append l 6 / next c",
        replies: "ok / ok / ok / ok / ok / StopIteration / ok / ok / ok / StopIteration",
        contents: "[4, 5, 6]",
    },
    Case {
        calls: "append l 1 / append l 2 / append l 3 / riter l c / pop l / next c / append l 4 / next c",
        replies: "ok / ok / ok / ok / 3 / StopIteration / ok / StopIteration",
        contents: "[1, 2, 4]",
    },
    Case {
        calls: "append l 1 / append l 2 / append l 3 / riter l c / next c / del l 0 / next c / next c",
        replies: "ok / ok / ok / ok / 3 / ok / 3 / 2",
        contents: "[2, 3]",
    },
    Case {
        calls: "append l 1 / append l 2 / riter l a / iter l b / next a / next b / riter l a / next a / next a / next a / next b",
        replies: "ok / ok / ok / ok / 2 / 1 / ok / 2 / 1 / StopIteration / 2",
        contents: "[1, 2]",
    },
    Case {
        calls: "dump",
        replies: "world d {}; e {}; l []; m []; s set(); t set(); q []; r []; p []",
        contents: "",
    },
    Case {
        calls: "set d 'a' None / set e 2 1 / append l 'b' / append m 5 / append m 6 / add s 1 / add s 'c' / add t 0 / append q 7 / append r None / append p 1 / append p 2 / append p 3 / append p 4 / dump / clear l / dump",
        replies: "ok / ok / ok / ok / ok / ok / ok / ok / ok / ok / ok / ok / ok / ok / world d {'a': None}; e {2: 1}; l ['b']; m [5, 6]; s {1, 'c'}; t {0}; q [7]; r [None]; p [2, 3, 4] / ok / world d {'a': None}; e {2: 1}; l []; m [5, 6]; s {1, 'c'}; t {0}; q [7]; r [None]; p [2, 3, 4]",
        contents: "{'a': None} {2: 1} [5, 6] {1, 'c'} {0} [7] [None] [2, 3, 4]",
    },
];

/// Calls of dicts that start split, over the keys 1 and 2: they answer as any other dict.
pub const SPLITS: [Case; 4] = [
    Case {
        calls: "set d 1 10 / set d 2 20 / set e 2 20 / del d 1 / items d",
        replies: "ok / ok / ok / ok / {2: 20}",
        contents: "{2: 20} {2: 20}",
    },
    Case {
        calls: "set d 2 1 / set d 1 2 / setdefault d 3 3 / popitem d / items d",
        replies: "ok / ok / 3 / 3: 3 / {2: 1, 1: 2}",
        contents: "{2: 1, 1: 2}",
    },
    Case {
        calls: "set e 1 1 / set e 2 2 / update d e / set d 7 7 / pop d 1 / items d",
        replies: "ok / ok / ok / ok / 1 / {2: 2, 7: 7}",
        contents: "{2: 2, 7: 7} {1: 1, 2: 2}",
    },
    Case {
        calls: "set d 1 1 / iter d c / next c / clear d / set d 2 2 / set d 1 1 / items d / next c",
        replies: "ok / ok / 1: 1 / ok / ok / ok / {2: 2, 1: 1} / RuntimeError size",
        contents: "{2: 2, 1: 1}",
    },
];
