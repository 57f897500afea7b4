// The letters of calls and of rows, each with its byte; a discriminant holds it as an `isize`.
#[derive(Clone, Copy, Debug, PartialEq, Eq)]
pub(crate) enum CallLetter {
    Trade = b'T' as isize,
    DeclarePurchase = b'B' as isize,
    DeclareSale = b'S' as isize,
    Withdraw = b'W' as isize,
    OpenTrial = b'O' as isize,
    KeepTrial = b'K' as isize,
    DropTrial = b'X' as isize,
    Draw = b'R' as isize,
    NextDay = b'N' as isize,
    LegResult = b'E' as isize,
}

#[derive(Clone, Copy, Debug, PartialEq, Eq)]
pub(crate) enum RowLetter {
    Declared = b'D' as isize,
    Undeclared = b'U' as isize,
    Virtual = b'V' as isize,
    Leg = b'L' as isize,
    Refused = b'Z' as isize,
}
