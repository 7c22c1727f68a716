//! The grammar as lists of rules. The first letter of a rule is its symbol, and its form follows the colon. A letter in
//! a form is a symbol that has rules: a lower-case one is inside an index. Each rule of a capital letter is also one of
//! the lower-case letter, with all its letters in lower case. Any other character is a token: `0` an integer, `1` a
//! name, `2` the keyword `any`, `3` `return`, `4` `..`, `5` `=>`, and a sign spells itself. `#` is no token.

/// Programs P, expressions E, and their levels down to the bases of suffixes, X, and the primary expressions, B.
pub static COMMON: [&str; 51] = [
    "P:E;",
    "P:E;P",
    "P:;",
    "P:;P",
    "P:3;",
    "P:3E;",
    "P:3;P",
    "P:3E;P",
    "E:C",
    "C:O",
    "C:O?E|C",
    "O:R",
    "O:O&R",
    "R:M",
    "R:R<M",
    "M:N",
    "M:M+N",
    "M:M-N",
    "N:W",
    "N:N*W",
    "W:U",
    "W:U^W",
    "U:!U",
    "U:-U",
    "U:X",
    "X:B",
    "X:X.1",
    "X:X.(E)",
    "X:X:1()",
    "X:X:1(L)",
    "X:X:(E)()",
    "X:X:(E)(L)",
    "X:X[e]",
    "X:X[e4e]",
    "B:0",
    "B:1",
    "B:$1",
    "B:$1()",
    "B:$1(L)",
    "b:$",
    "B:(E)",
    "B:{}",
    "B:{L}",
    "B:`E!2'",
    "B:`E!L'",
    "B:`E!25E'",
    "B:`E!L5E'",
    "L:H",
    "L:H,L",
    "H:E",
    "H:@E",
];

/// Calls of functions by name.
pub static CALLS: [&str; 2] = ["B:1()", "B:1(L)"];

/// Expressions Y that end in braces with a `?` piece.
pub static SCATTERS: [&str; 19] = [
    "Y:{D}", "Y:!Y", "Y:-Y", "Y:U^Y", "Y:N*Y", "Y:M+Y", "Y:M-Y", "Y:R<Y", "Y:O&Y", "Y:O?E|Y",
    "D:S", "D:S,T", "D:H,D", "T:H", "T:S", "T:H,T", "T:S,T", "S:?1", "S:?1=E",
];

/// Assignments to any expression.
pub static LOOSE: [&str; 2] = ["E:C=E", "E:Y=E"];

/// Assignments to targets A: without a `?` piece Q, places Z, variables J. An expression that ends in braces with a `?`
/// piece continues up to the place of the `=`.
pub static TARGETS: [&str; 30] = [
    "E:Y#", "E:A=E", "A:Q", "A:{F}", "Q:Z", "Q:Z[e4e]", "Q:{V}", "Q:(Q)", "Z:1", "Z:$1", "Z:(Z)",
    "Z:X.1", "Z:X.(E)", "Z:Z[e]", "V:J", "V:J,V", "V:@J", "V:@J,I", "I:J", "I:J,I", "J:1", "J:(J)",
    "F:G", "F:G,F", "F:@J", "F:@J,K", "K:G", "K:G,K", "G:J", "G:S",
];
