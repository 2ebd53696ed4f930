//! Replies and contents as CPython 3 gives them. What the manual leaves open is by hand: the order of
//! a set and its cursors, and which calls change a container and take locks.
use super::Case;

pub const DICTS: [Case; 37] = [
    Case {
        calls: "set d 'a' 1 / set d 'b' 2 / del d 'a' / set d 'a' 3 / items d",
        replies: "ok / ok / ok / ok / {'b': 2, 'a': 3}",
        contents: "{'b': 2, 'a': 3}",
    },
    Case {
        calls: "del d 7",
        replies: "KeyError",
        contents: "",
    },
    Case {
        calls: "set d 9223372036854775807 1 / set d -9223372036854775808 2 / get d 9223372036854775807 / get d -9223372036854775808",
        replies: "ok / ok / 1 / 2",
        contents: "{9223372036854775807: 1, -9223372036854775808: 2}",
    },
    Case {
        calls: "set d -1 10 / set d -2 20 / del d -1 / get d -2 / get d -1",
        replies: "ok / ok / ok / 20 / KeyError",
        contents: "{-2: 20}",
    },
    Case {
        calls: "set d 1 1 / set d 2 2 / set d 3 3 / iter d c / next c / set d 4 4 / next c / del d 4 / next c",
        replies: "ok / ok / ok / ok / 1: 1 / ok / RuntimeError size / ok / RuntimeError size",
        contents: "{1: 1, 2: 2, 3: 3}",
    },
    Case {
        calls: "set d 1 1 / set d 2 2 / iter d c / next c / del d 1 / set d 3 3 / next c / next c / next c",
        replies: "ok / ok / ok / 1: 1 / ok / ok / 2: 2 / RuntimeError keys / StopIteration",
        contents: "{2: 2, 3: 3}",
    },
    Case {
        calls: "set d 1 1 / update d d / copyto d d / eq d d / items d",
        replies: "ok / ok / ok / True / {1: 1}",
        contents: "{1: 1}",
    },
    Case {
        calls: "set d 1 1 / set d 2 2 / set d 1 3 / items d / len d",
        replies: "ok / ok / ok / {1: 3, 2: 2} / 2",
        contents: "{1: 3, 2: 2}",
    },
    Case {
        calls: "set d 1 None / get d 1 / has d 1 / has d 2 / get d 2",
        replies: "ok / None / True / False / KeyError",
        contents: "{1: None}",
    },
    Case {
        calls: "set d 1 'a' / getd d 1 'b' / getd d 2 'b' / getd d 2 None / len d",
        replies: "ok / 'a' / 'b' / None / 1",
        contents: "{1: 'a'}",
    },
    Case {
        calls: "set d 1 5 / pop d 1 / pop d 1 / len d",
        replies: "ok / 5 / KeyError / 0",
        contents: "",
    },
    Case {
        calls: "set d 1 5 / set d 2 6 / popd d 1 7 / popd d 1 7 / popd d 1 None",
        replies: "ok / ok / 5 / 7 / None",
        contents: "{2: 6}",
    },
    Case {
        calls: "popitem d / set d 1 1 / set d 2 2 / set d 1 3 / popitem d / popitem d / popitem d",
        replies: "KeyError / ok / ok / ok / 2: 2 / 1: 3 / KeyError",
        contents: "",
    },
    Case {
        calls: "setdefault d 1 2 / setdefault d 1 3 / setdefault d 2 None / get d 1",
        replies: "2 / 2 / None / 2",
        contents: "{1: 2, 2: None}",
    },
    Case {
        calls: "set d 1 1 / setdefault d 1 2 / del d 1 / setdefault d 1 4 / setdefault d 0 0 / items d",
        replies: "ok / 1 / ok / 4 / 0 / {1: 4, 0: 0}",
        contents: "{1: 4, 0: 0}",
    },
    Case {
        calls: "set d 1 1 / set e 2 2 / set e 1 5 / set e 0 7 / update d e / items d / items e",
        replies: "ok / ok / ok / ok / ok / {1: 5, 2: 2, 0: 7} / {2: 2, 1: 5, 0: 7}",
        contents: "{1: 5, 2: 2, 0: 7} {2: 2, 1: 5, 0: 7}",
    },
    Case {
        calls: "update d e / set e 1 1 / update d e / update e d / eq d e",
        replies: "ok / ok / ok / ok / True",
        contents: "{1: 1} {1: 1}",
    },
    Case {
        calls: "set d 1 1 / set d 2 2 / set e 2 2 / eq d e / set e 1 1 / eq d e / eq e d / set e 1 2 / eq d e",
        replies: "ok / ok / ok / False / ok / True / True / ok / False",
        contents: "{1: 1, 2: 2} {2: 2, 1: 2}",
    },
    Case {
        calls: "eq d e / set d 1 None / eq d e / set e 1 0 / eq d e",
        replies: "True / ok / False / ok / False",
        contents: "{1: None} {1: 0}",
    },
    Case {
        calls: "set d 3 3 / set d 1 1 / set e 9 9 / copyto d e / items e / eq d e",
        replies: "ok / ok / ok / ok / {3: 3, 1: 1} / True",
        contents: "{3: 3, 1: 1} {3: 3, 1: 1}",
    },
    Case {
        calls: "set e 1 1 / copyto d e / len e / copyto e d",
        replies: "ok / ok / 0 / ok",
        contents: "",
    },
    Case {
        calls: "set d 1 1 / set d 2 2 / clear d / len d / items d / get d 1 / set d 2 3",
        replies: "ok / ok / ok / 0 / {} / KeyError / ok",
        contents: "{2: 3}",
    },
    Case {
        calls: "clear d / items d / len d / popitem d",
        replies: "ok / {} / 0 / KeyError",
        contents: "",
    },
    Case {
        calls: "iter d c / next c / next c / set d 1 1 / next c",
        replies: "ok / StopIteration / StopIteration / ok / StopIteration",
        contents: "{1: 1}",
    },
    Case {
        calls: "iter d c / set d 1 1 / next c / del d 1 / next c",
        replies: "ok / ok / RuntimeError size / ok / RuntimeError size",
        contents: "",
    },
    Case {
        calls: "set d 1 1 / set d 2 2 / iter d c / set d 2 5 / next c / set d 2 6 / next c / next c",
        replies: "ok / ok / ok / ok / 1: 1 / ok / 2: 6 / StopIteration",
        contents: "{1: 1, 2: 6}",
    },
    Case {
        calls: "set d 1 1 / set d 2 2 / iter d c / clear d / next c / set d 1 1 / set d 2 2 / next c",
        replies: "ok / ok / ok / ok / RuntimeError size / ok / ok / RuntimeError size",
        contents: "{1: 1, 2: 2}",
    },
    Case {
        calls: "set d 1 1 / set d 2 2 / iter d c / next c / next c / next c / set d 3 3 / next c",
        replies: "ok / ok / ok / 1: 1 / 2: 2 / StopIteration / ok / StopIteration",
        contents: "{1: 1, 2: 2, 3: 3}",
    },
    Case {
        calls: "set d 1 1 / set d 2 2 / iter d c / next c / iter d c / next c / next c / next c",
        replies: "ok / ok / ok / 1: 1 / ok / 1: 1 / 2: 2 / StopIteration",
        contents: "{1: 1, 2: 2}",
    },
    Case {
        calls: "set d 1 1 / set d 2 2 / iter d a / iter d b / next a / next b / next a / next a / next b",
        replies: "ok / ok / ok / ok / 1: 1 / 1: 1 / 2: 2 / StopIteration / 2: 2",
        contents: "{1: 1, 2: 2}",
    },
    Case {
        calls: "set d 1 1 / iter d c / del d 1 / set d 1 2 / next c / next c",
        replies: "ok / ok / ok / ok / 1: 2 / StopIteration",
        contents: "{1: 2}",
    },
    Case {
        calls: "set d 1 1 / set d 2 2 / set d 3 3 / iter d c / del d 1 / set d 4 4 / next c / next c / next c / next c",
        replies: "ok / ok / ok / ok / ok / ok / 2: 2 / 3: 3 / 4: 4 / StopIteration",
        contents: "{2: 2, 3: 3, 4: 4}",
    },
    Case {
        calls: "set d 1 1 / set e 5 5 / iter d c / iter e c / next c / next c",
        replies: "ok / ok / ok / ok / 5: 5 / StopIteration",
        contents: "{1: 1} {5: 5}",
    },
    Case {
        calls: "set d 'a' 'b' / get d 'a' / get d 'b' / get d 0 / set d 0 'a' / get d 0",
        replies: "ok / 'b' / KeyError / KeyError / ok / 'a'",
        contents: "{'a': 'b', 0: 'a'}",
    },
    Case {
        calls: "set d 0 9223372036854775807 / set d 1 -9223372036854775808 / get d 0 / get d 1 / has d 9223372036854775807",
        replies: "ok / ok / 9223372036854775807 / -9223372036854775808 / False",
        contents: "{0: 9223372036854775807, 1: -9223372036854775808}",
    },
    Case {
        calls: "set d 1 1 / set d 2 2 / set d 3 3 / del d 2 / set d 2 4 / popitem d / items d",
        replies: "ok / ok / ok / ok / ok / 2: 4 / {1: 1, 3: 3}",
        contents: "{1: 1, 3: 3}",
    },
    Case {
        calls: "set d 1 1 / del d 2 / pop d 2 / get d 2 / items d",
        replies: "ok / KeyError / KeyError / KeyError / {1: 1}",
        contents: "{1: 1}",
    },
];

pub const LISTS: [Case; 30] = [
    Case {
        calls: "append l 5 / append l 6 / get l -1 / get l 2 / insert l 99 7 / slice l 1 9 / remove l 8 / clear l / pop l",
        replies: "ok / ok / 6 / IndexError / ok / [6, 7] / ValueError / ok / IndexError",
        contents: "",
    },
    Case {
        calls: "append l 1 / append l 2 / extend l l / items l",
        replies: "ok / ok / ok / [1, 2, 1, 2]",
        contents: "[1, 2, 1, 2]",
    },
    Case {
        calls: "insert l 0 1 / insert l 0 2 / insert l 1 3 / insert l -1 4 / items l",
        replies: "ok / ok / ok / ok / [2, 3, 4, 1]",
        contents: "[2, 3, 4, 1]",
    },
    Case {
        calls: "insert l -9223372036854775808 1 / insert l 9223372036854775807 2 / insert l -99 3 / insert l 99 4 / items l",
        replies: "ok / ok / ok / ok / [3, 1, 2, 4]",
        contents: "[3, 1, 2, 4]",
    },
    Case {
        calls: "append l 1 / append l 2 / append l 3 / get l 0 / get l 2 / get l 3 / get l -3 / get l -4 / get l -9223372036854775808 / get l 9223372036854775807",
        replies: "ok / ok / ok / 1 / 3 / IndexError / 1 / IndexError / IndexError / IndexError",
        contents: "[1, 2, 3]",
    },
    Case {
        calls: "append l 1 / append l 2 / set l 0 3 / set l -1 4 / set l 2 5 / set l -3 5 / set l -9223372036854775808 5 / set l 9223372036854775807 5 / items l",
        replies: "ok / ok / ok / ok / IndexError / IndexError / IndexError / IndexError / [3, 4]",
        contents: "[3, 4]",
    },
    Case {
        calls: "append l 1 / append l 2 / append l 3 / del l 1 / del l -1 / del l 1 / del l -2 / del l -9223372036854775808 / del l 9223372036854775807",
        replies: "ok / ok / ok / ok / ok / IndexError / IndexError / IndexError / IndexError",
        contents: "[1]",
    },
    Case {
        calls: "append l 1 / append l 2 / append l 3 / pop l / pop l 0 / pop l -2 / pop l 1 / pop l -1 / pop l",
        replies: "ok / ok / ok / 3 / 1 / IndexError / IndexError / 2 / IndexError",
        contents: "",
    },
    Case {
        calls: "pop l 0 / pop l / pop l -1 / pop l 9223372036854775807 / pop l -9223372036854775808",
        replies: "IndexError / IndexError / IndexError / IndexError / IndexError",
        contents: "",
    },
    Case {
        calls: "append l 1 / append l 2 / append l 1 / remove l 1 / items l / remove l 1 / remove l 1",
        replies: "ok / ok / ok / ok / [2, 1] / ok / ValueError",
        contents: "[2]",
    },
    Case {
        calls: "append l 1 / append l 2 / append l 1 / index l 1 / index l 2 / index l 3 / index l None",
        replies: "ok / ok / ok / 0 / 1 / ValueError / ValueError",
        contents: "[1, 2, 1]",
    },
    Case {
        calls: "append l 1 / append l None / append l 1 / count l 1 / count l None / count l 'a' / has l None / has l 2",
        replies: "ok / ok / ok / 2 / 1 / 0 / True / False",
        contents: "[1, None, 1]",
    },
    Case {
        calls: "append l 'a' / append l 0 / index l 0 / index l 'a' / has l 'b' / count l 'a'",
        replies: "ok / ok / 1 / 0 / False / 1",
        contents: "['a', 0]",
    },
    Case {
        calls: "append l 1 / append l 2 / append l 3 / reverse l / items l / reverse m / items m",
        replies: "ok / ok / ok / ok / [3, 2, 1] / ok / []",
        contents: "[3, 2, 1]",
    },
    Case {
        calls: "append l 1 / append m 2 / append m 3 / extend l m / items l / items m / extend m l",
        replies: "ok / ok / ok / ok / [1, 2, 3] / [2, 3] / ok",
        contents: "[1, 2, 3] [2, 3, 1, 2, 3]",
    },
    Case {
        calls: "extend l m / extend l l / len l / items l",
        replies: "ok / ok / 0 / []",
        contents: "",
    },
    Case {
        calls: "append l 1 / append l 2 / append l 3 / append l 4 / slice l 1 3 / slice l -3 -1 / slice l 3 1 / slice l 0 99",
        replies: "ok / ok / ok / ok / [2, 3] / [2, 3] / [] / [1, 2, 3, 4]",
        contents: "[1, 2, 3, 4]",
    },
    Case {
        calls: "append l 1 / append l 2 / append l 3 / slice l -9223372036854775808 9223372036854775807 / slice l 9223372036854775807 -9223372036854775808 / slice l -99 2 / slice l 2 -99 / slice l 1 1",
        replies: "ok / ok / ok / [1, 2, 3] / [] / [1, 2] / [] / []",
        contents: "[1, 2, 3]",
    },
    Case {
        calls: "slice l 0 0 / slice l -1 1 / slice l -9223372036854775808 9223372036854775807",
        replies: "[] / [] / []",
        contents: "",
    },
    Case {
        calls: "append l 1 / append m 1 / eq l m / append l 2 / eq l m / append m 3 / eq l m / eq l l / eq m l",
        replies: "ok / ok / True / ok / False / ok / False / True / False",
        contents: "[1, 2] [1, 3]",
    },
    Case {
        calls: "eq l m / append l None / eq l m / append m 0 / eq l m / append l 1 / clear l / len l / eq l m",
        replies: "True / ok / False / ok / False / ok / ok / 0 / False",
        contents: "[0]",
    },
    Case {
        calls: "iter l c / next c / append l 1 / next c",
        replies: "ok / StopIteration / ok / StopIteration",
        contents: "[1]",
    },
    Case {
        calls: "append l 1 / append l 2 / iter l c / next c / append l 3 / next c / next c / next c / append l 4 / next c",
        replies: "ok / ok / ok / 1 / ok / 2 / 3 / StopIteration / ok / StopIteration",
        contents: "[1, 2, 3, 4]",
    },
    Case {
        calls: "append l 1 / append l 2 / append l 3 / iter l c / next c / del l 0 / next c / next c",
        replies: "ok / ok / ok / ok / 1 / ok / 3 / StopIteration",
        contents: "[2, 3]",
    },
    Case {
        calls: "append l 1 / append l 2 / iter l c / next c / clear l / next c / append l 5 / append l 6 / next c",
        replies: "ok / ok / ok / 1 / ok / StopIteration / ok / ok / StopIteration",
        contents: "[5, 6]",
    },
    Case {
        calls: "append l 1 / iter l c / next c / insert l 0 9 / next c / next c",
        replies: "ok / ok / 1 / ok / 1 / StopIteration",
        contents: "[9, 1]",
    },
    Case {
        calls: "append l 1 / iter l a / iter l b / next a / next b / iter l a / next a / next a / next b",
        replies: "ok / ok / ok / 1 / 1 / ok / 1 / StopIteration / StopIteration",
        contents: "[1]",
    },
    Case {
        calls: "append l 9223372036854775807 / append l -9223372036854775808 / index l -9223372036854775808 / count l 9223372036854775807 / items l",
        replies: "ok / ok / 1 / 1 / [9223372036854775807, -9223372036854775808]",
        contents: "[9223372036854775807, -9223372036854775808]",
    },
    Case {
        calls: "append l 1 / append l 2 / insert l -1 9 / insert l -2 8 / insert l 4 7 / items l / len l",
        replies: "ok / ok / ok / ok / ok / [1, 8, 9, 2, 7] / 5",
        contents: "[1, 8, 9, 2, 7]",
    },
    Case {
        calls: "append l 1 / append l 1 / append l 1 / remove l 1 / count l 1 / remove l 2 / index l 2",
        replies: "ok / ok / ok / ok / 2 / ValueError / ValueError",
        contents: "[1, 1]",
    },
];

pub const SETS: [Case; 31] = [
    Case {
        calls: "set d 1 1 / update d d / append l 1 / append l 2 / extend l l / add s 1 / sub s s",
        replies: "ok / ok / ok / ok / ok / ok / ok",
        contents: "{1: 1} [1, 2, 1, 2]",
    },
    Case {
        calls: "add s 3 / add s 1 / add s 2 / add s 1 / items s / len s",
        replies: "ok / ok / ok / ok / {3, 1, 2} / 3",
        contents: "{3, 1, 2}",
    },
    Case {
        calls: "pop s / add s 2 / add s 1 / pop s / pop s / pop s",
        replies: "KeyError / ok / ok / 2 / 1 / KeyError",
        contents: "",
    },
    Case {
        calls: "add s 1 / discard s 1 / discard s 1 / remove s 1 / len s",
        replies: "ok / ok / ok / KeyError / 0",
        contents: "",
    },
    Case {
        calls: "add s 1 / add s 2 / remove s 1 / remove s 1 / has s 1 / has s 2",
        replies: "ok / ok / ok / KeyError / False / True",
        contents: "{2}",
    },
    Case {
        calls: "add s 'a' / add s 0 / has s 'a' / has s 'b' / has s 0 / pop s / items s",
        replies: "ok / ok / True / False / True / 'a' / {0}",
        contents: "{0}",
    },
    Case {
        calls: "add s 9223372036854775807 / add s -9223372036854775808 / has s 9223372036854775807 / has s -9223372036854775808 / has s -1 / items s",
        replies: "ok / ok / True / True / False / {9223372036854775807, -9223372036854775808}",
        contents: "{9223372036854775807, -9223372036854775808}",
    },
    Case {
        calls: "eq s t / add s 1 / eq s t / add s 2 / add t 2 / add t 1 / eq s t / eq t s / eq s s",
        replies: "True / ok / False / ok / ok / ok / True / True / True",
        contents: "{1, 2} {2, 1}",
    },
    Case {
        calls: "add s 1 / add t 2 / add t 1 / add t 3 / or s t / items s / items t",
        replies: "ok / ok / ok / ok / ok / {1, 2, 3} / {2, 1, 3}",
        contents: "{1, 2, 3} {2, 1, 3}",
    },
    Case {
        calls: "add s 1 / add s 2 / or s s / items s / or t s / items t",
        replies: "ok / ok / ok / {1, 2} / ok / {1, 2}",
        contents: "{1, 2} {1, 2}",
    },
    Case {
        calls: "add s 1 / add s 2 / add s 3 / add t 3 / add t 1 / and s t / items s / items t",
        replies: "ok / ok / ok / ok / ok / ok / {1, 3} / {3, 1}",
        contents: "{1, 3} {3, 1}",
    },
    Case {
        calls: "add s 1 / and s t / items s / and t t",
        replies: "ok / ok / set() / ok",
        contents: "",
    },
    Case {
        calls: "add s 1 / add s 2 / add s 3 / add t 2 / sub s t / items s / sub t s",
        replies: "ok / ok / ok / ok / ok / {1, 3} / ok",
        contents: "{1, 3} {2}",
    },
    Case {
        calls: "add s 1 / add s 2 / and s s / items s / sub s s / items s",
        replies: "ok / ok / ok / {1, 2} / ok / set()",
        contents: "",
    },
    Case {
        calls: "add s 1 / add s 2 / add t 3 / add t 2 / add t 4 / xor s t / items s / items t",
        replies: "ok / ok / ok / ok / ok / ok / {1, 3, 4} / {3, 2, 4}",
        contents: "{1, 3, 4} {3, 2, 4}",
    },
    Case {
        calls: "add s 1 / add s 2 / xor s s / items s / xor s t / len s",
        replies: "ok / ok / ok / set() / ok / 0",
        contents: "",
    },
    Case {
        calls: "add t 2 / add t 1 / xor s t / items s / xor s t / items s",
        replies: "ok / ok / ok / {2, 1} / ok / set()",
        contents: "{2, 1}",
    },
    Case {
        calls: "subset s t / add s 1 / subset s t / add t 2 / add t 1 / subset s t / subset t s / subset s s",
        replies: "True / ok / False / ok / ok / True / False / True",
        contents: "{1} {2, 1}",
    },
    Case {
        calls: "disjoint s t / disjoint s s / add s 1 / disjoint s s / add t 2 / disjoint s t / add t 1 / disjoint s t",
        replies: "True / True / ok / False / ok / True / ok / False",
        contents: "{1} {2, 1}",
    },
    Case {
        calls: "add s 1 / add s 2 / clear s / len s / items s / add s 2",
        replies: "ok / ok / ok / 0 / set() / ok",
        contents: "{2}",
    },
    Case {
        calls: "iter s c / next c / add s 1 / next c",
        replies: "ok / StopIteration / ok / StopIteration",
        contents: "{1}",
    },
    Case {
        calls: "add s 3 / add s 1 / iter s c / next c / next c / next c / next c",
        replies: "ok / ok / ok / 3 / 1 / StopIteration / StopIteration",
        contents: "{3, 1}",
    },
    Case {
        calls: "add s 1 / add s 2 / iter s c / next c / add s 3 / next c / discard s 3 / next c",
        replies: "ok / ok / ok / 1 / ok / RuntimeError size / ok / RuntimeError size",
        contents: "{1, 2}",
    },
    Case {
        calls: "add s 1 / add s 2 / iter s c / clear s / next c / add s 1 / add s 2 / next c",
        replies: "ok / ok / ok / ok / RuntimeError size / ok / ok / RuntimeError size",
        contents: "{1, 2}",
    },
    Case {
        calls: "add s 1 / add s 2 / iter s c / next c / discard s 1 / add s 3 / next c / next c / next c",
        replies: "ok / ok / ok / 1 / ok / ok / 2 / 3 / StopIteration",
        contents: "{2, 3}",
    },
    Case {
        calls: "add s 1 / add s 2 / iter s c / discard s 1 / add s 1 / next c / next c / next c",
        replies: "ok / ok / ok / ok / ok / 2 / 1 / StopIteration",
        contents: "{2, 1}",
    },
    Case {
        calls: "add s 1 / iter s c / next c / discard s 1 / add s 4 / next c / next c",
        replies: "ok / ok / 1 / ok / ok / 4 / StopIteration",
        contents: "{4}",
    },
    Case {
        calls: "add s 1 / add s 2 / iter s a / iter s b / next a / next b / iter s a / next a / next a / next a / next b",
        replies: "ok / ok / ok / ok / 1 / 1 / ok / 1 / 2 / StopIteration / 2",
        contents: "{1, 2}",
    },
    Case {
        calls: "add s 1 / add t 1 / iter s c / xor s t / next c / next c",
        replies: "ok / ok / ok / ok / RuntimeError size / RuntimeError size",
        contents: "{1}",
    },
    Case {
        calls: "add s 1 / add s 2 / add t 1 / add t 5 / iter s c / and s t / add s 6 / next c / next c / next c",
        replies: "ok / ok / ok / ok / ok / ok / ok / 1 / 6 / StopIteration",
        contents: "{1, 6} {1, 5}",
    },
    Case {
        calls: "add s 1 / add s 2 / pop s / add s 1 / items s / pop s / pop s / pop s",
        replies: "ok / ok / 1 / ok / {2, 1} / 2 / 1 / KeyError",
        contents: "",
    },
];

// Whether each kind of call changes a container, and how many locks it takes from the start.
pub const KINDS: [(&str, bool, u32); 82] = [
    ("get d 1", false, 0),
    ("getd d 1 2", false, 0),
    ("set d 1 2", true, 1),
    ("del d 1", true, 1),
    ("pop d 1", true, 1),
    ("popd d 1 2", true, 1),
    ("popitem d", true, 1),
    ("setdefault d 1 2", true, 1),
    ("has d 1", false, 0),
    ("len d", false, 0),
    ("items d", false, 0),
    ("update d e", true, 2),
    ("update d d", true, 1),
    ("clear d", true, 1),
    ("copyto d e", true, 2),
    ("copyto e e", true, 1),
    ("eq d e", false, 0),
    ("iter d c", false, 1),
    ("next c", false, 1),
    ("append l 1", true, 1),
    ("insert l 0 1", true, 1),
    ("get l 0", false, 0),
    ("set l 0 1", true, 1),
    ("del l 0", true, 1),
    ("pop l", true, 1),
    ("pop l 0", true, 1),
    ("remove l 1", true, 1),
    ("index l 1", false, 1),
    ("count l 1", false, 1),
    ("has l 1", false, 0),
    ("reverse l", true, 1),
    ("extend l m", true, 2),
    ("extend l l", true, 1),
    ("slice l 0 1", false, 1),
    ("clear l", true, 1),
    ("len l", false, 0),
    ("items l", false, 0),
    ("eq l m", false, 0),
    ("iter l c", false, 1),
    ("add s 1", true, 1),
    ("discard s 1", true, 1),
    ("remove s 1", true, 1),
    ("pop s", true, 1),
    ("has s 1", false, 0),
    ("len s", false, 0),
    ("items s", false, 0),
    ("eq s t", false, 0),
    ("or s t", true, 2),
    ("or s s", true, 1),
    ("and s t", true, 2),
    ("sub s t", true, 2),
    ("xor s t", true, 2),
    ("subset s t", false, 2),
    ("subset s s", false, 1),
    ("disjoint s t", false, 2),
    ("clear s", true, 1),
    ("iter s c", false, 1),
    ("keysand d e", false, 2),
    ("keysand d d", false, 1),
    ("keyssub d e", false, 2),
    ("keysor d e", false, 2),
    ("keysxor d e", false, 2),
    ("itemshas d 1 2", false, 0),
    ("riter d c", false, 1),
    ("riter l c", false, 1),
    ("append q 1", true, 1),
    ("appendleft q 1", true, 1),
    ("pop q", true, 1),
    ("popleft q", true, 1),
    ("extend q r", true, 2),
    ("extend q q", true, 1),
    ("extendleft q r", true, 2),
    ("extendleft q q", true, 1),
    ("rotate q 1", true, 1),
    ("clear q", true, 1),
    ("get q 0", false, 0),
    ("len q", false, 0),
    ("items q", false, 0),
    ("has q 1", false, 1),
    ("iter q c", false, 1),
    ("dump", false, 0),
    ("await", false, 0),
];

/// Whether a call puts a value in a box where d has the key 1, l an item and nothing else is there: an integer
/// below -5 or above 256, or a string, that is newly stored. Keys and elements are never boxed.
pub const BOXED: [(&str, bool); 20] = [
    ("append l 256", false),
    ("append l 257", true),
    ("append l -5", false),
    ("append l -6", true),
    ("append l None", false),
    ("append l 'a'", true),
    ("insert l 0 1000", true),
    ("set l 0 1000", true),
    ("has l 1000", false),
    ("set d 1 1000", true),
    ("set d 1000 1", false),
    ("setdefault d 1 1000", false),
    ("setdefault d 2 1000", true),
    ("getd d 2 1000", false),
    ("copyto d e", false),
    ("add s 1000", false),
    ("append q 1000", true),
    ("appendleft q 'a'", true),
    ("extend q r", false),
    ("has q 1000", false),
];

/// Whether the thread of the first number may await that call of the thread of the second: one that is declared
/// before it and has so many calls. There are two threads, with two calls and one.
pub const AWAITED: [(u32, u32, u32, bool); 9] = [
    (1, 0, 1, true),
    (1, 0, 2, true),
    (1, 0, 3, false),
    (1, 0, 0, false),
    (2, 1, 1, true),
    (0, 0, 1, false),
    (1, 1, 1, false),
    (0, 1, 1, false),
    (3, 2, 1, false),
];

/// A number of pairs, elements or items, and the classes of tables that a dict, a set and a list
/// take for so much: for a dict the least power of two from 3 * (n - 1) on, for a set the least one
/// above 4 * (n - 1), for a list the least one from n on; 8 slots at least, 65,536 at most.
pub const CLASSES: [(u64, u32, u32, u32); 6] = [
    (1, 3, 3, 3),
    (5, 4, 5, 3),
    (9, 5, 6, 4),
    (1366, 12, 13, 11),
    (4097, 14, 15, 13),
    (39_321, 16, 16, 16),
];
