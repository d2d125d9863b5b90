//! Which operators of two operands are one group.

/// How tight an operator of two operands is.
fn precedence(operator: &str) -> u8 {
    match operator {
        "??" => 1,
        "||" => 2,
        "&&" => 3,
        "|" => 4,
        "^" => 5,
        "&" => 6,
        "==" | "===" | "!=" | "!==" => 7,
        "<" | ">" | "<=" | ">=" | "in" | "instanceof" => 8,
        "<<" | ">>" | ">>>" => 9,
        "+" | "-" => 10,
        "*" | "/" | "%" => 11,
        _ => 12,
    }
}

/// Whether operators of a chain are one group.
pub fn are_one_level(a: &str, b: &str) -> bool {
    let level = precedence(a);
    level == precedence(b) && !matches!(level, 7 | 9 | 12) && (level != 11 || a == b)
}
