//! Calls of deques, with replies and contents as CPython 3 gives them: q and r have no bound, p has
//! three items at most.
use super::Case;

pub const DEQUES: [Case; 36] = [
    Case {
        calls: "append p 1 / append p 2 / append p 3 / iter p c / next c / append p 4 / next c / appendleft p 9 / popleft p / items p",
        replies: "ok / ok / ok / ok / 1 / ok / RuntimeError moved / ok / 9 / [2, 3]",
        contents: "[2, 3]",
    },
    Case {
        calls: "append q 1 / append q 2 / append q 3 / rotate q 1 / rotate q -2 / extendleft q q / pop q",
        replies: "ok / ok / ok / ok / ok / ok / 1",
        contents: "[1, 3, 2, 2, 3]",
    },
    Case {
        calls: "append q 1 / append q 2 / appendleft q 0 / items q / len q / has q 2 / has q 3",
        replies: "ok / ok / ok / [0, 1, 2] / 3 / True / False",
        contents: "[0, 1, 2]",
    },
    Case {
        calls: "pop q / popleft q / append q 1 / pop q / pop q / append q 2 / popleft q / popleft q",
        replies: "IndexError / IndexError / ok / 1 / IndexError / ok / 2 / IndexError",
        contents: "",
    },
    Case {
        calls: "append q 1 / append q 2 / append q 3 / pop q / popleft q / items q",
        replies: "ok / ok / ok / 3 / 1 / [2]",
        contents: "[2]",
    },
    Case {
        calls: "append q 1 / append q 2 / append q 3 / get q 0 / get q 2 / get q 3 / get q -1 / get q -3 / get q -4",
        replies: "ok / ok / ok / 1 / 3 / IndexError / 3 / 1 / IndexError",
        contents: "[1, 2, 3]",
    },
    Case {
        calls: "get q 0 / get q -1 / get q 9223372036854775807 / get q -9223372036854775808 / append q None / get q 0",
        replies: "IndexError / IndexError / IndexError / IndexError / ok / None",
        contents: "[None]",
    },
    Case {
        calls: "append q 1 / append q None / append q 'a' / has q None / has q 'a' / has q 'b' / has q 0",
        replies: "ok / ok / ok / True / True / False / False",
        contents: "[1, None, 'a']",
    },
    Case {
        calls: "append q 1 / append q 2 / append q 3 / append q 4 / rotate q 1 / items q / rotate q -1 / items q / rotate q 3 / items q",
        replies: "ok / ok / ok / ok / ok / [4, 1, 2, 3] / ok / [1, 2, 3, 4] / ok / [2, 3, 4, 1]",
        contents: "[2, 3, 4, 1]",
    },
    Case {
        calls: "append q 1 / append q 2 / append q 3 / rotate q 4 / items q / rotate q -7 / items q / rotate q 3 / items q / rotate q 0 / items q",
        replies: "ok / ok / ok / ok / [3, 1, 2] / ok / [1, 2, 3] / ok / [1, 2, 3] / ok / [1, 2, 3]",
        contents: "[1, 2, 3]",
    },
    Case {
        calls: "append q 1 / append q 2 / append q 3 / rotate q 9223372036854775807 / items q / rotate q -9223372036854775808 / items q",
        replies: "ok / ok / ok / ok / [3, 1, 2] / ok / [2, 3, 1]",
        contents: "[2, 3, 1]",
    },
    Case {
        calls: "rotate q 1 / rotate q -9223372036854775808 / append q 1 / rotate q 5 / rotate q -5 / items q",
        replies: "ok / ok / ok / ok / ok / [1]",
        contents: "[1]",
    },
    Case {
        calls: "append q 1 / append q 2 / append r 3 / append r 4 / extend q r / items q / extendleft q r / items q / items r",
        replies: "ok / ok / ok / ok / ok / [1, 2, 3, 4] / ok / [4, 3, 1, 2, 3, 4] / [3, 4]",
        contents: "[4, 3, 1, 2, 3, 4] [3, 4]",
    },
    Case {
        calls: "append q 1 / append q 2 / extend q q / items q / extend r q / items r",
        replies: "ok / ok / ok / [1, 2, 1, 2] / ok / [1, 2, 1, 2]",
        contents: "[1, 2, 1, 2] [1, 2, 1, 2]",
    },
    Case {
        calls: "append q 1 / append q 2 / extendleft q q / items q",
        replies: "ok / ok / ok / [2, 1, 1, 2]",
        contents: "[2, 1, 1, 2]",
    },
    Case {
        calls: "extend q r / extendleft q r / extend q q / items q / clear q / len q",
        replies: "ok / ok / ok / [] / ok / 0",
        contents: "",
    },
    Case {
        calls: "append q 1 / append q 2 / clear q / items q / len q / pop q / append q 3",
        replies: "ok / ok / ok / [] / 0 / IndexError / ok",
        contents: "[3]",
    },
    Case {
        calls: "append p 1 / append p 2 / append p 3 / append p 4 / append p 5 / items p / len p",
        replies: "ok / ok / ok / ok / ok / [3, 4, 5] / 3",
        contents: "[3, 4, 5]",
    },
    Case {
        calls: "appendleft p 1 / appendleft p 2 / appendleft p 3 / appendleft p 4 / items p / pop p / appendleft p 5 / items p",
        replies: "ok / ok / ok / ok / [4, 3, 2] / 2 / ok / [5, 4, 3]",
        contents: "[5, 4, 3]",
    },
    Case {
        calls: "append q 1 / append q 2 / append q 3 / append q 4 / append q 5 / extend p q / items p / extendleft p q / items p",
        replies: "ok / ok / ok / ok / ok / ok / [3, 4, 5] / ok / [5, 4, 3]",
        contents: "[1, 2, 3, 4, 5] [5, 4, 3]",
    },
    Case {
        calls: "append q 4 / append q 5 / append p 1 / append p 2 / extend p q / items p / extendleft p q / items p / extend q p / items q",
        replies: "ok / ok / ok / ok / ok / [2, 4, 5] / ok / [5, 4, 2] / ok / [4, 5, 5, 4, 2]",
        contents: "[4, 5, 5, 4, 2] [5, 4, 2]",
    },
    Case {
        calls: "append p 1 / append p 2 / extend p p / items p / extendleft p p / items p",
        replies: "ok / ok / ok / [2, 1, 2] / ok / [2, 1, 2]",
        contents: "[2, 1, 2]",
    },
    Case {
        calls: "append p 1 / append p 2 / append p 3 / extendleft p p / items p / extend p p / items p",
        replies: "ok / ok / ok / ok / [3, 2, 1] / ok / [3, 2, 1]",
        contents: "[3, 2, 1]",
    },
    Case {
        calls: "append p 1 / append p 2 / append p 3 / rotate p 1 / append p 4 / items p / rotate p -1 / appendleft p 5 / items p",
        replies: "ok / ok / ok / ok / ok / [1, 2, 4] / ok / ok / [5, 2, 4]",
        contents: "[5, 2, 4]",
    },
    Case {
        calls: "iter q c / next c / next c / append q 1 / next c / iter q c / next c / next c / next c",
        replies: "ok / StopIteration / StopIteration / ok / RuntimeError moved / ok / 1 / StopIteration / StopIteration",
        contents: "[1]",
    },
    Case {
        calls: "append q 1 / append q 2 / iter q c / next c / next c / next c / next c / pop q / next c / append q 2 / next c",
        replies: "ok / ok / ok / 1 / 2 / StopIteration / StopIteration / 2 / RuntimeError moved / ok / RuntimeError moved",
        contents: "[1, 2]",
    },
    Case {
        calls: "append q 1 / append q 2 / iter q c / next c / rotate q 2 / next c / next c",
        replies: "ok / ok / ok / 1 / ok / RuntimeError moved / RuntimeError moved",
        contents: "[1, 2]",
    },
    Case {
        calls: "append q 1 / append q 2 / iter q c / rotate q 0 / next c",
        replies: "ok / ok / ok / ok / RuntimeError moved",
        contents: "[1, 2]",
    },
    Case {
        calls: "append q 1 / iter q c / rotate q 1 / next c / next c",
        replies: "ok / ok / ok / 1 / StopIteration",
        contents: "[1]",
    },
    Case {
        calls: "iter q c / clear q / extend q r / extendleft q r / rotate q 5 / next c",
        replies: "ok / ok / ok / ok / ok / StopIteration",
        contents: "",
    },
    Case {
        calls: "append q 1 / append q 2 / iter q c / extend q r / extendleft q r / next c / extend q q / next c",
        replies: "ok / ok / ok / ok / ok / 1 / ok / RuntimeError moved",
        contents: "[1, 2, 1, 2]",
    },
    Case {
        calls: "append q 1 / append q 2 / iter q c / pop q / append q 2 / next c",
        replies: "ok / ok / ok / 2 / ok / RuntimeError moved",
        contents: "[1, 2]",
    },
    Case {
        calls: "append q 1 / append q 2 / append q 3 / iter q a / iter q b / next a / next b / next a / popleft q / next a / next b / iter q a / next a",
        replies: "ok / ok / ok / ok / ok / 1 / 1 / 2 / 1 / RuntimeError moved / RuntimeError moved / ok / 2",
        contents: "[2, 3]",
    },
    Case {
        calls: "append q 1 / append r 5 / iter q c / append r 6 / next c / iter r c / append q 2 / next c / next c / next c",
        replies: "ok / ok / ok / ok / 1 / ok / ok / 5 / 6 / StopIteration",
        contents: "[1, 2] [5, 6]",
    },
    Case {
        calls: "append p 1 / append p 2 / append p 3 / iter p c / clear p / next c / append p 1 / append p 2 / append p 3 / next c",
        replies: "ok / ok / ok / ok / ok / RuntimeError moved / ok / ok / ok / RuntimeError moved",
        contents: "[1, 2, 3]",
    },
    Case {
        calls: "append q 1 / append q 2 / iter q c / next c / get q 0 / has q 1 / len q / items q / pop r / next c / next c",
        replies: "ok / ok / ok / 1 / 1 / True / 2 / [1, 2] / IndexError / 2 / StopIteration",
        contents: "[1, 2]",
    },
];
